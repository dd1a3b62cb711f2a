// Whether an automaton is met along a path and when its inputs are held then.
ghost use Rattle.std.specs.Prelude.{◌↔◌, ◌≡◌, ◌<◌, ℕ, true, length, IfOk, IsTrue};
ghost use Rattle.alternating_theory.specs.Obligations.{obligation_at};
ghost use Rattle.alternating_theory.specs.Positive.{met};
ghost use Rattle.netlist.specs.Valuations.{bit};
ghost use Rattle.gates_frames.specs.Paths.{IsPath};
ghost use Rattle.run_terms.specs.Automata.{IsSound, TestsSignals};
ghost use Rattle.prover_held.specs.Judged.{AreAsked};
ghost use Rattle.prover_held.specs.Lasting.{letter_in, IsMetWhenHeld};

use crate::lasting::{automaton_law, lasting};
use crate::letters::is_met;
use alternating::Alternating;
use netlist::{Netlist, Valuations};
use psl_base::{Bits, NoMemory};
use std::alloc::Global;

/// Whether an automaton accepts the word of the run that begins with a path and holds its inputs, as far as the path
/// tells.
///
/// # Errors
///
/// `NoMemory` if memory is refused.
pub fn is_met_when_held(
    alloc: Global,
    netlist: &Netlist,
    automaton: &Alternating,
    path: &Valuations,
) -> Result<bool, NoMemory>
    requires tests { TestsSignals netlist.now automaton.now }
    requires path { IsPath netlist.now true path.now }
    ensures { IfOk result (λ met. IsTrue met ↔ IsMetWhenHeld netlist.now automaton.now path.now) }
{
    automaton_law(automaton);
    let kept = lasting(alloc, netlist, automaton, path)?;
    let first = asked_first(alloc, netlist, automaton, path, &kept)?;
    Ok(*first.at(automaton.start() as usize))
}

// What is met at the first place of a path, where this is owed behind it, as a value for each obligation.
fn asked_first(
    alloc: Global,
    netlist: &Netlist,
    automaton: &Alternating,
    path: &Valuations,
    kept: &Bits,
) -> Result<Bits, NoMemory>
    requires sound { IsSound automaton.now }
    requires tests { TestsSignals netlist.now automaton.now }
    requires path { IsPath netlist.now true path.now }
    requires long { length kept.now ≡ length automaton.now.obligations }
    ensures { IfOk result (AreAsked netlist.now automaton.now path.now (bit kept.now) (length path.now)) }
{
    let mut found = kept.copy(alloc)?;
    for place in (0..path.len()).rev() {
        found = asked_at(alloc, netlist, automaton, path, place, &found)?;
    }
    Ok(found)
}

// What is met at a place, where this is owed at the next one, as a value for each obligation.
fn asked_at(
    alloc: Global,
    netlist: &Netlist,
    automaton: &Alternating,
    path: &Valuations,
    place: usize,
    next: &Bits,
) -> Result<Bits, NoMemory>
    requires tests { TestsSignals netlist.now automaton.now }
    requires path { IsPath netlist.now true path.now }
    requires place { place < length path.now }
    requires long { length next.now ≡ length automaton.now.obligations }
    ensures long { IfOk result (λ found. length found ≡ length automaton.now.obligations) }
    ensures each { IfOk result (λ found. (number : ℕ) → number < length automaton.now.obligations
        → bit found number ≡ met (obligation_at automaton.now.obligations number).delta
        (letter_in netlist.now path.now place) (bit next.now)) }
{
    let mut found = Bits::new(alloc);
    for number in 0..automaton.len() {
        let met = is_met(netlist, automaton, path, place, number, next.as_slice());
        found.push(met)?;
    }
    Ok(found)
}
