// The obligations that keep themselves met for as long as the inputs stay.
ghost use Rattle.std.specs.Prelude.{◌≡◌, ◌-◌, ◌&&◌, ◌<◌, not, true, false, length, if◌then◌else◌, slice_set, IfOk};
ghost use Rattle.alternating_theory.specs.Obligations.{obligation_at};
ghost use Rattle.alternating_theory.specs.Positive.{met};
ghost use Rattle.gates_frames.specs.Paths.{IsPath};
ghost use Rattle.netlist.specs.Valuations.{bit};
ghost use Rattle.run_terms.specs.Automata.{IsSound, TestsSignals};
ghost use Rattle.prover_held.specs.Judged.{last_letter, positive_marked, AreCandidates, IsLargest, Sweeps};

use crate::inputs::{input_marks, positive_marked};
use crate::letters::is_met;
use alternating::Alternating;
use netlist::{Netlist, Valuations};
use psl_base::{Bits, NoMemory};
use std::alloc::Global;

/// A law of automata: the start is one of the obligations, and so is all that the obligations owe.
pub fn automaton_law(automaton: &Alternating)
    ensures { IsSound automaton.now }
{
    let _start = automaton.start();
    for number in 0..automaton.len() {
        let _delta = automaton.delta(number);
    }
}

/// The largest set of obligations that lasts on the inputs of a path's last valuation, as a value for each obligation.
/// Each pass over the obligations drops one at least, and the last pass none.
pub(crate) fn lasting(
    alloc: Global,
    netlist: &Netlist,
    automaton: &Alternating,
    path: &Valuations,
) -> Result<Bits, NoMemory>
    requires sound { IsSound automaton.now }
    requires tests { TestsSignals netlist.now automaton.now }
    requires path { IsPath netlist.now true path.now }
    ensures { IfOk result (IsLargest netlist.now automaton.now path.now) }
{
    let mut kept = candidates(alloc, netlist, automaton)?;
    let mut more = true;
    while more {
        more = sweep(netlist, automaton, path, &mut kept);
    }
    Ok(kept)
}

// The obligations that are accepting and test inputs alone.
fn candidates(alloc: Global, netlist: &Netlist, automaton: &Alternating) -> Result<Bits, NoMemory>
    ensures { IfOk result (AreCandidates netlist.now automaton.now) }
{
    let marks = input_marks(alloc, netlist)?;
    let mut kept = Bits::new(alloc);
    for number in 0..automaton.len() {
        kept.push(is_candidate(automaton, number, marks.as_slice()))?;
    }
    Ok(kept)
}

// Whether an obligation is accepting and tests marked signals alone.
fn is_candidate(automaton: &Alternating, number: u32, marks: &[bool]) -> bool
    requires { number < length automaton.now.obligations }
    ensures { result ≡ ((obligation_at automaton.now.obligations number).accepting
        && positive_marked marks.now (obligation_at automaton.now.obligations number).delta) }
{
    let delta = automaton.delta(number);
    automaton.accepting(number) && positive_marked(marks, delta)
}

// One pass. It says whether it dropped an obligation.
fn sweep(netlist: &Netlist, automaton: &Alternating, path: &Valuations, kept: &mut Bits) -> bool
    requires sound { IsSound automaton.now }
    requires tests { TestsSignals netlist.now automaton.now }
    requires path { IsPath netlist.now true path.now }
    requires long { length kept.old ≡ length automaton.now.obligations }
    ensures { Sweeps netlist.now automaton.now path.now (length automaton.now.obligations) kept.old kept.new result }
{
    let mut more = false;
    for number in 0..automaton.len() {
        more = drop_unmet(netlist, automaton, path, number, kept) || more;
    }
    more
}

// Drops an obligation that the last letter and the kept ones do not meet. It says whether it dropped it.
fn drop_unmet(
    netlist: &Netlist,
    automaton: &Alternating,
    path: &Valuations,
    number: u32,
    kept: &mut Bits,
) -> bool
    requires tests { TestsSignals netlist.now automaton.now }
    requires path { IsPath netlist.now true path.now }
    requires long { length kept.old ≡ length automaton.now.obligations }
    requires number { number < length automaton.now.obligations }
    ensures unmet { result ≡ (bit kept.old number
        && not (met (obligation_at automaton.now.obligations number).delta (last_letter netlist.now path.now)
        (bit kept.old))) }
    ensures kept { kept.new ≡ (if result then slice_set kept.old number false else kept.old) }
{
    let unmet = is_unmet(netlist, automaton, path, number, kept.as_slice());
    if unmet {
        kept.set(number as usize, false);
    }
    unmet
}

// Whether an obligation is kept that the last letter and the kept ones do not meet.
fn is_unmet(
    netlist: &Netlist,
    automaton: &Alternating,
    path: &Valuations,
    number: u32,
    kept: &[bool],
) -> bool
    requires tests { TestsSignals netlist.now automaton.now }
    requires path { IsPath netlist.now true path.now }
    requires long { length kept.now ≡ length automaton.now.obligations }
    requires number { number < length automaton.now.obligations }
    ensures { result ≡ (bit kept.now number
        && not (met (obligation_at automaton.now.obligations number).delta (last_letter netlist.now path.now)
        (bit kept.now))) }
{
    let last = path.len() - 1;
    kept[number as usize] && !is_met(netlist, automaton, path, last, number, kept)
}
