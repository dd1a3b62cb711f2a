ghost use Rattle.std.specs.Prelude.{◌≡◌, ◌⊎◌, ◌<◌, ◌∷◌, [], length, IfOk, IfSome, is_some};
ghost use Rattle.psl_tree.specs.Directives.{AreOver, AreSmall};
ghost use Rattle.commands.specs.Faults.{of_none};
ghost use Rattle.commands.specs.Stages.{IsStage, IsReading};
ghost use Rattle.commands.specs.Settled.{AreSettled};
ghost use Rattle.commands.specs.Waves.{AreJudged, IsFirstRefused, JudgeReading, JudgedReading, KnownReading, WaveStage, unknown_fault, unknown_of};

use crate::directives::directives;
use crate::faults::{at, fault_in, judge_diagnostic};
use crate::inputs::{Inputs, load_inputs};
use crate::outcome::{Fault, Settlements};
use crate::reason::Reason;
use crate::settled::settlements;
use psl_base::{NoMemory, Shelf};
use psl_tree::Unit;
use std::alloc::Global;
use vcd_reader::{Recording, Unknown};
use wave_judge::{Verdicts, judge};

/// The verdicts of a text on a recording, in order.
#[derive(Drop)]
pub struct Judgement {
    pub verdicts: Verdicts,
    /// From where on each is settled, where that is asked for.
    pub settled: Option<Settlements>,
}

/// Judges a text on a recording, both read from files: `wave UNIT RECORDING --unknown WORD`; and tells from where on its
/// verdicts are settled, if `--where` stands there.
pub fn wave<F: Shelf>(
    alloc: Global,
    files: &mut F,
    unit: &str,
    recording: &str,
    unknown: Unknown,
    points: bool,
) -> Result<Judgement, Fault>
    ensures stage { IsStage (unit.now ∷ recording.now ∷ []) (WaveStage unit.now recording.now unknown points) (F.state files.old) (F.state files.new) result }
    ensures asked { IfOk result (λ judged. is_some judged.settled ≡ points) }
{
    let inputs = load_inputs(alloc, files, unit, recording, unknown)?;
    judge_inputs(alloc, &inputs, unit, recording, unknown, points)
}

/// How unknown bits read by the word of `--unknown`.
pub fn unknown_of(word: command_line::Unknown) -> Unknown
    ensures { result ≡ unknown_of word }
{
    match word {
        command_line::Unknown::Zero => Unknown::Zero,
        command_line::Unknown::One => Unknown::One,
        command_line::Unknown::Refuse => Unknown::Refuse,
    }
}

/// The same of a text on the recording in a file of this name.
fn judge_inputs(
    alloc: Global,
    inputs: &Inputs,
    unit: &str,
    name: &str,
    unknown: Unknown,
    points: bool,
) -> Result<Judgement, Fault>
    ensures reading { IsReading (unit.now ∷ name.now ∷ []) (JudgedReading points unknown unit.now name.now inputs.now) result }
    ensures asked { IfOk result (λ judged. is_some judged.settled ≡ points) }
{
    let recording = &inputs.recording;
    let directives = directives(alloc, &inputs.tree, recording.names(), unit)?;
    let verdicts = verdicts(alloc, &directives, recording, unit, name, unknown)?;
    let settled = settled(alloc, &directives, recording, &verdicts, points)?;
    Ok(Judgement { verdicts, settled })
}

/// The verdicts of directives, unless a sample is refused.
fn verdicts(
    alloc: Global,
    directives: &Unit,
    recording: &Recording,
    unit: &str,
    name: &str,
    unknown: Unknown,
) -> Result<Verdicts, Fault>
    requires in_range { AreOver recording.now.names directives.now }
    requires small { AreSmall directives.now }
    ensures reading { IsReading (unit.now ∷ name.now ∷ []) (KnownReading unknown unit.now name.now recording.now directives.now) result }
    ensures judged { IfOk result (AreJudged recording.now directives.now) }
{
    if let Some(sample) = first_refused(directives, recording, unknown) {
        return Err(unknown_fault(alloc, name, recording, sample));
    }
    judged(alloc, directives, recording, unit)
}

/// From where on verdicts are settled, where that is asked for.
fn settled(
    alloc: Global,
    directives: &Unit,
    recording: &Recording,
    verdicts: &Verdicts,
    points: bool,
) -> Result<Option<Settlements>, NoMemory>
    requires in_range { AreOver recording.now.names directives.now }
    requires small { AreSmall directives.now }
    requires judged { AreJudged recording.now directives.now verdicts.now }
    ensures settled { IfOk result (AreSettled points recording.now directives.now verdicts.now) }
    ensures asked { IfOk result (λ settled. is_some settled ≡ points) }
{
    if !points {
        return Ok(None);
    }
    let found = wave_judge::points(alloc, directives, recording, verdicts)?;
    let settled = settlements(alloc, recording, found.as_slice())?;
    Ok(Some(settled))
}

/// The first sample that is refused, counted from 0.
fn first_refused(directives: &Unit, recording: &Recording, unknown: Unknown) -> Option<u32>
    requires { AreOver recording.now.names directives.now }
    ensures first { IsFirstRefused unknown recording.now directives.now result }
    ensures within { IfSome result (λ sample. sample < length recording.now.samples) }
{
    match unknown {
        Unknown::Zero | Unknown::One => None,
        Unknown::Refuse => recording.first_unknown(directives),
    }
}

/// What is told of a sample that is refused.
fn unknown_fault(alloc: Global, name: &str, recording: &Recording, sample: u32) -> Fault
    requires { sample < length recording.now.samples }
    ensures { (result ≡ of_none Reason.NoMemory) ⊎ (result ≡ unknown_fault name.now recording.now sample) }
{
    let diagnostic = at(Reason::UnknownValue, recording.time_place(sample));
    fault_in(alloc, name, diagnostic)
}

/// The verdicts of directives on a recording.
pub(crate) fn judged(
    alloc: Global,
    directives: &Unit,
    recording: &Recording,
    unit: &str,
) -> Result<Verdicts, Fault>
    requires in_range { AreOver recording.now.names directives.now }
    requires small { AreSmall directives.now }
    ensures { IsReading (unit.now ∷ []) (JudgeReading unit.now recording.now directives.now) result }
{
    match judge(alloc, directives, recording) {
        Ok(verdicts) => Ok(verdicts),
        Err(fault) => Err(fault_in(alloc, unit, judge_diagnostic(directives, fault))),
    }
}
