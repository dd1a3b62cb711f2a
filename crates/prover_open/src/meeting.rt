// Whether what is owed and pending in a joint state is met by one that may come next.
ghost use Rattle.std.specs.Prelude.{◌≡◌, ◌<◌, length, All, IfOk, IsTrue};
ghost use Rattle.joint_theory.specs.States.{is_listed, may_meet, AreMet};
ghost use Rattle.netlist.specs.Valuations.{bit};
ghost use Rattle.prover_held.specs.Judged.{HaveSignals};
ghost use Rattle.prover_held.specs.Lasting.{letter_in};
ghost use Rattle.run_terms.specs.Automata.{TestsSignals};

use crate::listing::{marks_of, meeting_marks};
use crate::reading::Reading;
use joint_theory::JointState;
use prover_held::{automaton_law, is_met};
use psl_base::NoMemory;
use std::alloc::Global;

// Whether the letter at a place meets the deltas of obligations with these values of the obligations at the next
// place.
fn are_met(reading: Reading<'_>, place: usize, numbers: &[u32], next: &[bool]) -> bool
    requires tests { TestsSignals reading.netlist.now reading.automaton.now }
    requires path { HaveSignals reading.netlist.now reading.path.now }
    requires place { place < length reading.path.now }
    requires numbers { All (λ number. number < length reading.automaton.now.obligations) numbers.now }
    requires long { length next.now ≡ length reading.automaton.now.obligations }
    ensures { IsTrue result → AreMet reading.entry.automaton.now
        (letter_in reading.entry.netlist.now reading.entry.path.now place) (bit next.now) numbers.now }
{
    let mut met = true;
    for number in numbers {
        met = met
            && is_met(
                reading.netlist,
                reading.automaton,
                reading.path,
                place,
                *number,
                next,
            );
    }
    met
}

/// Whether the letter at a place meets what is owed there with what is owed next.
pub(crate) fn owed_met(
    alloc: Global,
    reading: Reading<'_>,
    place: usize,
    now: &JointState,
    next: &JointState,
) -> Result<bool, NoMemory>
    requires tests { TestsSignals reading.netlist.now reading.automaton.now }
    requires path { HaveSignals reading.netlist.now reading.path.now }
    requires place { place < length reading.path.now }
    requires now { All (λ number. number < length reading.automaton.now.obligations) now.now.owed }
    requires next { All (λ number. number < length reading.automaton.now.obligations) next.now.owed }
    ensures { IfOk result (λ met. IsTrue met
        → AreMet reading.entry.automaton.now (letter_in reading.entry.netlist.now reading.entry.path.now place)
        (is_listed next.now.owed) now.now.owed) }
{
    automaton_law(reading.automaton);
    let owed = marks_of(alloc, reading.automaton.len(), next.owed.as_slice())?;
    let met = are_met(reading, place, now.owed.as_slice(), owed.as_slice());
    Ok(met)
}

/// Whether the letter at a place meets what is pending there with what is owed next and accepting, or pending next.
pub(crate) fn pending_met(
    alloc: Global,
    reading: Reading<'_>,
    place: usize,
    now: &JointState,
    next: &JointState,
) -> Result<bool, NoMemory>
    requires tests { TestsSignals reading.netlist.now reading.automaton.now }
    requires path { HaveSignals reading.netlist.now reading.path.now }
    requires place { place < length reading.path.now }
    requires now { All (λ number. number < length reading.automaton.now.obligations) now.now.pending }
    requires owed { All (λ number. number < length reading.automaton.now.obligations) next.now.owed }
    requires pending { All (λ number. number < length reading.automaton.now.obligations) next.now.pending }
    ensures { IfOk result (λ met. IsTrue met
        → AreMet reading.entry.automaton.now (letter_in reading.entry.netlist.now reading.entry.path.now place)
        (may_meet reading.entry.automaton.now next.now) now.now.pending) }
{
    automaton_law(reading.automaton);
    let owed = marks_of(alloc, reading.automaton.len(), next.owed.as_slice())?;
    let pending = marks_of(alloc, reading.automaton.len(), next.pending.as_slice())?;
    let marks = meeting_marks(
        alloc,
        reading.automaton,
        owed.as_slice(),
        pending.as_slice(),
    )?;
    let met = are_met(reading, place, now.pending.as_slice(), marks.as_slice());
    Ok(met)
}
