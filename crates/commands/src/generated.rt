ghost use Rattle.std.specs.Prelude.{◌≡◌, ◌≤◌, length, IfOk, IfErr, Ok};
ghost use Rattle.psl_sugar.specs.Budget.{GivesFormula};
ghost use Rattle.commands.specs.Faults.{of_none};
ghost use Rattle.commands.specs.declared.reason.Reason.{Reason};
ghost use Rattle.commands.specs.Generated.{AreMade, AreAnswered, GeneratedStage, IsMade, answered, value_of};
ghost use Rattle.vcd_writer.specs.Made.{made_text};
ghost use Rattle.vcd_reader.specs.Rules.{sample_limit};

use crate::outcome::{Fault, Outcome};
use psl_base::{Bytes, NoMemory, Place};
use psl_sugar::{MeasuredBool, MeasuredFl, Strength, SugarFault};
use psl_tree::{Atom, Directive, Edge, Kind, Unit, UnitFault};
use std::alloc::Global;
use vcd_reader::{Recording, Unknown, read_faultless};
use vcd_writer::{make_recording, short_law};
use wave_judge::{Verdicts, judge};

/// Makes a recording from a seed and judges `assert always (req -> next! ack);` on it: `gen SEED SAMPLES`.
pub fn generate(alloc: Global, seed: u32, samples: u32) -> Result<Outcome, Fault>
    requires { samples ≤ sample_limit }
    ensures made { IfOk result (λ outcome. GeneratedStage seed samples (Ok outcome)) }
    ensures memory { IfErr result (λ fault. fault ≡ of_none Reason.NoMemory) }
{
    let (bytes, verdicts) = judge_made(alloc, seed, samples)?;
    Ok(Outcome::Made(seed as u64, samples, bytes, verdicts))
}

/// How many bytes the made recording has, and the verdicts on it.
fn judge_made(alloc: Global, seed: u32, samples: u32) -> Result<(u64, Verdicts), NoMemory>
    requires { samples ≤ sample_limit }
    ensures bytes { IfOk result (λ made. made.0 ≡ length (made_text seed samples)) }
    ensures verdicts { IfOk result (λ made. AreMade seed samples made.1) }
{
    let text = make_recording(alloc, seed, samples)?;
    let bytes = text.len() as u64;
    let recording = read_made(alloc, text, seed, samples)?;
    let directives = answered_unit(alloc)?;
    match judge(alloc, &directives, &recording) {
        Ok(verdicts) => Ok((bytes, verdicts)),
        Err(UnitFault::NoMemory) => Err(NoMemory),
        // The one formula has no sequence, and few obligations.
        Err(UnitFault::TooLarge(_, _)) => unreachable!(),
    }
}

/// What the text of a made recording says.
fn read_made(alloc: Global, text: Bytes, seed: u32, samples: u32) -> Result<Recording, NoMemory>
    requires text { text ≡ made_text seed samples }
    requires few { samples ≤ sample_limit }
    ensures { IfOk result (IsMade seed samples) }
{
    short_law();
    let recording = read_faultless(alloc, text, Unknown::Zero)?;
    Ok(recording)
}

/// `assert always (req -> next! ack);` over the signals of the made recording.
fn answered_unit(alloc: Global) -> Result<Unit, NoMemory>
    ensures { IfOk result (λ unit. AreAnswered unit) }
{
    let mut unit = Unit::new(alloc);
    let formula = answered(alloc)?;
    unit.push(Directive {
        number: 1,
        kind: Kind::Assert,
        label: None,
        place: Place { line: 1, column: 1 },
        formula: formula.into_tree(),
    })?;
    Ok(unit)
}

/// `always (req -> next! ack)`
fn answered(alloc: Global) -> Result<MeasuredFl, NoMemory>
    ensures { IfOk result (λ formula. formula ≡ answered) }
{
    match built(alloc) {
        Ok(formula) => Ok(formula),
        Err(SugarFault::NoMemory) => Err(NoMemory),
        Err(SugarFault::TooLarge) => unreachable!(),
    }
}

/// The same, where it might be too large.
fn built(alloc: Global) -> Result<MeasuredFl, SugarFault>
    ensures { GivesFormula result answered }
{
    let request = MeasuredFl::now(MeasuredBool::test(value_of(0)))?;
    let answer = MeasuredFl::now(MeasuredBool::test(value_of(1)))?;
    let answered = request.implication(alloc, answer.next(alloc, Strength::Strong)?)?;
    answered.always(alloc)
}

/// The value of a signal of one bit.
fn value_of(signal: u32) -> Atom
    ensures { result ≡ value_of signal }
{
    Atom {
        signal,
        bit: 0,
        edge: Edge::Value,
    }
}
