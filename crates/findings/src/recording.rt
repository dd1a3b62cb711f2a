ghost use Rattle.std.specs.Prelude.{◌≡◌, ◌<◌, length, IfOk};
ghost use Rattle.findings.specs.Recordings.{along, CanRecord, IsRecorded, IsRecordedRun, Recordable, recorded_text, recording_name, wanted_of};
ghost use Rattle.netlist.specs.Runs.{IsMade};
ghost use Rattle.trace.specs.Trace.{trace_text};

use netlist::{Run, Valuations};
use prover::{Finding, Task};
use psl_base::{Bits, Bytes, FILE_LIMIT, NoMemory, Text, add_bytes, add_number};
use std::alloc::Global;
use trace_buses::write_buses;
use trace_judge::{JudgedTrace, Traced, judge_trace};
use wave_judge::Verdict;

/// Which recordings are wanted of runs that violate assertions or meet covers.
#[derive(Clone, Copy)]
pub struct Recordings<'a> {
    /// The recording for directive N has the name `PREFIX.N.vcd`.
    pub prefix: &'a str,
    /// How often the loop of a run is written.
    pub loops: u32,
    /// Whether each bus of the netlist's first names is one vector.
    pub buses: bool,
}

/// The recording of a run that violates an assertion or meets a cover, or of its first valuations where it holds its inputs behind them.
#[derive(Debug, Drop)]
pub enum Recorded {
    /// The name of its file; how many samples it has; what it says of the directive alone, without what the text assumes;
    /// and its text.
    Judged {
        name: Text,
        samples: u32,
        verdict: Verdict,
        text: Bytes,
    },
    /// It would have more than 268,435,456 bytes: none is made.
    TooLong,
}

/// The recording of a finding, where that is a run and recordings are wanted. Of a run that holds its inputs the valuations
/// of the finding are recorded, and no loop.
pub(crate) fn recorded_of(
    alloc: Global,
    task: Task<'_>,
    recordings: Option<Recordings<'_>>,
    finding: &Finding,
) -> Result<Option<Recorded>, NoMemory>
    requires { Recordable task (wanted_of recordings) finding.now }
    ensures { IfOk result (IsRecorded task.entry.netlist.now task.entry.directive.now (wanted_of recordings.entry) finding.now) }
{
    let Some(recordings) = recordings else {
        return Ok(None);
    };
    match finding {
        Finding::Violated(run) => {
            let recorded = recording_of(alloc, task, recordings, run)?;
            Ok(Some(recorded))
        }
        Finding::Held(path, _) => {
            let unlooped = Recordings {
                prefix: recordings.prefix,
                loops: 0,
                buses: recordings.buses,
            };
            let recorded = recording_of(alloc, task, unlooped, &along(alloc, path)?)?;
            Ok(Some(recorded))
        }
        Finding::Proved(_)
        | Finding::ProvedReach(_)
        | Finding::Depth(_)
        | Finding::DepthReach(_, _)
        | Finding::Steps(_, _)
        | Finding::LogFull(_, _)
        | Finding::Large(_) => Ok(None),
    }
}

fn recording_of(
    alloc: Global,
    task: Task<'_>,
    recordings: Recordings<'_>,
    run: &Run,
) -> Result<Recorded, NoMemory>
    requires { CanRecord task recordings.loops run.now }
    ensures { IfOk result (IsRecordedRun task.entry.netlist.now task.entry.directive.now ((recordings.entry.prefix.now, recordings.entry.buses), recordings.entry.loops) run.now) }
{
    let traced = Traced {
        netlist: task.netlist,
        run,
        loops: recordings.loops,
    };
    match judge_trace(alloc, traced, task.directive, FILE_LIMIT as u64)? {
        Some(judged) => {
            let JudgedTrace {
                text,
                samples,
                verdict,
            } = judged;
            let name = recording_name(alloc, recordings.prefix, task.directive.number)?;
            let text = text_of(alloc, traced, recordings.buses, text)?;
            Ok(Recorded::Judged {
                name,
                samples,
                verdict,
                text,
            })
        }
        None => Ok(Recorded::TooLong),
    }
}

/// The text of a recording: the trace as it was judged, or the one in which each bus is one vector.
fn text_of(alloc: Global, traced: Traced<'_>, buses: bool, trace: Bytes) -> Result<Bytes, NoMemory>
    requires made { IsMade traced.netlist.now traced.run.now }
    requires trace { trace ≡ trace_text traced.netlist.now traced.run.now traced.loops }
    ensures { IfOk result (λ text. text ≡ recorded_text traced.entry.netlist.now traced.entry.run.now traced.entry.loops buses) }
{
    if buses {
        write_buses(alloc, traced.netlist, traced.run, traced.loops)
    } else {
        Ok(trace)
    }
}

/// A path as the stem of a run, and its last valuation as the loop.
fn along(alloc: Global, path: &Valuations) -> Result<Run, NoMemory>
    requires { 0 < length path.now }
    ensures { IfOk result (λ run. run ≡ along path.now) }
{
    let valuations = path.as_slice();
    Ok(Run {
        stem: copied(alloc, valuations)?,
        loop_part: copied(alloc, &valuations[valuations.len() - 1..])?,
    })
}

fn copied(alloc: Global, valuations: &[Bits]) -> Result<Valuations, NoMemory>
    ensures { IfOk result (λ new. new ≡ valuations.now) }
{
    let mut copies = Valuations::new(alloc);
    for valuation in valuations {
        copies.push(valuation.copy(alloc)?)?;
    }
    Ok(copies)
}

/// The name of the file of a recording.
fn recording_name(alloc: Global, prefix: &str, number: u32) -> Result<Text, NoMemory>
    ensures { IfOk result (λ name. name ≡ recording_name prefix.now number) }
{
    let mut name = Vec::new(alloc);
    add_bytes(&mut name, prefix.as_bytes())?;
    add_bytes(&mut name, b".")?;
    add_number(&mut name, number as u64)?;
    add_bytes(&mut name, b".vcd")?;
    Ok(Text::from_vec(name))
}
