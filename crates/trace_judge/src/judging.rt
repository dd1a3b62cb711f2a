ghost use Rattle.std.specs.Prelude.{◌≡◌, ◌≤◌, length, nat_lt, IfOk};
ghost use Rattle.psl_tree.specs.Directives.{IsOver, IsSmall};
ghost use Rattle.netlist.specs.Runs.{IsMade};
ghost use Rattle.psl_base.specs.Places.{file_limit};
ghost use Rattle.trace.specs.Trace.{trace_text};
ghost use Rattle.trace_judge.specs.Verdicts.{IsJudged, IsJudgedUpTo, IsReadable};
ghost use Rattle.vcd_reader.specs.Sampled.{letters_of};
ghost use Rattle.wave_judge.specs.Faults.{IsJudgeable};
ghost use Rattle.wave_judge.specs.Judged.{IsVerdict};

use crate::reading::read_trace;
use netlist::{Netlist, Run, soundness_law};
use psl_base::{Bytes, NoMemory};
use psl_tree::{Directive, UnitFault};
use std::alloc::Global;
use trace::{trace_length, write_trace};
use vcd_reader::Recording;
use wave_judge::{Verdict, judge_one};

/// A run of a netlist, or another stem and loop of its valuations, and how often the loop is written.
#[derive(Clone, Copy)]
pub struct Traced<'a> {
    pub netlist: &'a Netlist,
    pub run: &'a Run,
    pub loops: u32,
}

/// The trace of a run, and what it says of a directive.
#[derive(Debug, Drop)]
pub struct JudgedTrace {
    /// Its text, as `write_trace` gives it.
    pub text: Bytes,
    /// How many samples it has.
    pub samples: u32,
    pub verdict: Verdict,
}

/// The trace of a run, where it has at most so many bytes, and what it says of a directive over the names of the netlist:
/// the verdict on the first letters of the run's word, as many as the trace has samples. A path of valuations is judged as a
/// stem whose loop is written no time. None where the trace has more bytes; it is not built then. Asked for are at most as many
/// bytes as a file may have. It takes time that grows
/// as the trace's length and as the number of its samples times the size of the formula.
///
/// # Errors
/// `NoMemory` where the allocator refuses memory.
pub fn judge_trace(
    alloc: Global,
    traced: Traced<'_>,
    directive: &Directive,
    most: u64,
) -> Result<Option<JudgedTrace>, NoMemory>
    requires readable { IsReadable traced.netlist.now traced.run.now traced.loops }
    requires in_range { IsOver traced.netlist.now.names directive.now }
    requires small { IsSmall directive.now }
    requires judgeable { IsJudgeable directive.now }
    requires limit { most ≤ file_limit }
    ensures { IfOk result (IsJudgedUpTo most traced.entry.netlist.now traced.entry.run.now traced.entry.loops directive.now) }
{
    if is_longer(alloc, traced, most)? {
        return Ok(None);
    }
    let judged = judged(alloc, traced, directive)?;
    Ok(Some(judged))
}

/// Whether the trace has more than so many bytes.
fn is_longer(alloc: Global, traced: Traced<'_>, most: u64) -> Result<bool, NoMemory>
    requires { IsMade traced.netlist.now traced.run.now }
    ensures { IfOk result (λ longer. longer ≡ nat_lt most (length (trace_text traced.entry.netlist.now traced.entry.run.now traced.entry.loops))) }
{
    let length = trace_length(alloc, traced.netlist, traced.run, traced.loops, most)?;
    Ok(length.is_none())
}

/// The same of a trace that is no longer than a file may be.
fn judged(alloc: Global, traced: Traced<'_>, directive: &Directive) -> Result<JudgedTrace, NoMemory>
    requires readable { IsReadable traced.netlist.now traced.run.now traced.loops }
    requires in_range { IsOver traced.netlist.now.names directive.now }
    requires small { IsSmall directive.now }
    requires judgeable { IsJudgeable directive.now }
    requires short { length (trace_text traced.netlist.now traced.run.now traced.loops) ≤ file_limit }
    ensures { IfOk result (IsJudged traced.entry.netlist.now traced.entry.run.now traced.entry.loops directive.now) }
{
    soundness_law(traced.netlist);
    let text = write_trace(alloc, traced.netlist, traced.run, traced.loops)?;
    let recording = read_trace(alloc, text.copy(alloc)?, traced)?;
    let verdict = verdict_on(alloc, &recording, directive)?;
    Ok(JudgedTrace {
        text,
        samples: recording.samples(),
        verdict,
    })
}

/// The verdict of a directive that can be judged.
fn verdict_on(
    alloc: Global,
    recording: &Recording,
    directive: &Directive,
) -> Result<Verdict, NoMemory>
    requires in_range { IsOver recording.now.names directive.now }
    requires small { IsSmall directive.now }
    requires judgeable { IsJudgeable directive.now }
    ensures { IfOk result (IsVerdict (letters_of recording.now) directive.now) }
{
    match judge_one(alloc, directive, recording) {
        Ok(verdict) => Ok(verdict),
        Err(UnitFault::NoMemory) => Err(NoMemory),
        Err(UnitFault::TooLarge(_, _)) => unreachable!(),
    }
}
