ghost use Rattle.std.specs.Prelude.{◌≡◌, ◌⊎◌, ◌∷◌, [], List, ℕ};
ghost use Rattle.replay.specs.declared.answer.ReplayFault.TheVariants as faults;
ghost use Rattle.commands.specs.Faults.{missing_in, of_none};
ghost use Rattle.commands.specs.Replays.{ReplayedReading, ReplayReading, ReplayStage, replayed_of};
ghost use Rattle.commands.specs.Stages.{IsReading, IsStage};

use crate::directives::directives;
use crate::faults::{missing_in, of_none};
use crate::inputs::{Circuit, load_circuit, load_recording};
use crate::outcome::Fault;
use crate::reason::Reason;
use crate::wave::judged;
use netlist::Netlist;
use psl_base::Shelf;
use replay::{Replay, ReplayFault, replay};
use std::alloc::Global;
use vcd_reader::{Recording, Unknown};
use wave_judge::Verdicts;

/// Where a recording leaves a netlist, if it does; how many samples it has; and the verdicts of a text on it.
#[derive(Drop)]
pub struct Replayed {
    pub replay: Replay,
    pub samples: u32,
    pub verdicts: Verdicts,
}

/// Tells whether a recording is a path of a netlist, and judges a text on it, all read from files:
/// `replay UNIT NETLIST RECORDING`.
pub fn replay_files<F: Shelf>(
    alloc: Global,
    files: &mut F,
    unit: &str,
    netlist: &str,
    recording: &str,
) -> Result<Replayed, Fault>
    ensures { IsStage (unit.now ∷ netlist.now ∷ recording.now ∷ []) (ReplayStage unit.now netlist.now recording.now)
        (F.state files.old) (F.state files.new) result }
{
    let circuit = load_circuit(alloc, files, unit, netlist)?;
    let sampled = load_recording(alloc, files, recording, Unknown::Zero)?;
    replay_of(alloc, &circuit, &sampled, unit, recording)
}

/// The same of what was read from the files of these names.
fn replay_of(
    alloc: Global,
    circuit: &Circuit,
    sampled: &Recording,
    unit: &str,
    name: &str,
) -> Result<Replayed, Fault>
    ensures { IsReading (unit.now ∷ name.now ∷ []) (ReplayedReading unit.now name.now circuit.now sampled.now) result }
{
    let directives = directives(alloc, &circuit.tree, sampled.names(), unit)?;
    let answer = replay_in(alloc, &circuit.netlist, sampled, name)?;
    let verdicts = judged(alloc, &directives, sampled, unit)?;
    Ok(with_samples(sampled, answer, verdicts))
}

fn with_samples(sampled: &Recording, answer: Replay, verdicts: Verdicts) -> Replayed
    ensures { result ≡ replayed_of sampled.now answer verdicts }
{
    Replayed {
        replay: answer,
        samples: sampled.samples(),
        verdicts,
    }
}

/// Where a recording leaves a netlist, if it does.
fn replay_in(
    alloc: Global,
    netlist: &Netlist,
    sampled: &Recording,
    name: &str,
) -> Result<Replay, Fault>
    ensures { IsReading (name.now ∷ []) (ReplayReading name.now netlist.now sampled.now) result }
{
    match replay(alloc, netlist, sampled) {
        Ok(answer) => Ok(answer),
        Err(fault) => Err(replay_fault(alloc, name, fault)),
    }
}

/// The fault of a recording that is not compared with a netlist.
fn replay_fault(alloc: Global, name: &str, fault: ReplayFault) -> Fault
    ensures { (result ≡ of_none Reason.NoMemory)
        ⊎ ((signal : List ℕ) × (fault ≡ faults.MissingSignal signal) × (result ≡ missing_in name.now signal)) }
{
    match fault {
        ReplayFault::MissingSignal(signal) => missing_in(alloc, name, signal),
        ReplayFault::NoMemory => of_none(Reason::NoMemory),
    }
}
