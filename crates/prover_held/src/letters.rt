// What a combination asks of the letter at a place of a path.
ghost use Rattle.std.specs.Prelude.{◌≡◌, ◌<◌, ◌≤◌, ℕ, length};
ghost use Rattle.alternating.specs.Views.{positive_of};
ghost use Rattle.alternating_theory.specs.Atoms.{AtomsOfPositive};
ghost use Rattle.alternating_theory.specs.Obligations.{obligation_at};
ghost use Rattle.alternating_theory.specs.Positive.{met, OwesWithin};
ghost use Rattle.gates_frames.specs.Paths.{valuation_of};
ghost use Rattle.netlist.specs.Valuations.{bit};
ghost use Rattle.psl_tree.specs.Atoms.{AtomsOfBoolean};
ghost use Rattle.psl_tree.specs.Holds.{holds};
ghost use Rattle.psl_tree.specs.Names.{AtomInRange};
ghost use Rattle.psl_tree.specs.Trees.{boolean_of};
ghost use Rattle.run_terms.specs.Automata.{TestsSignals};
ghost use Rattle.prover_held.specs.Judged.{atom_in, HaveSignals};
ghost use Rattle.prover_held.specs.Lasting.{letter_in};

use alternating::{Alternating, Positive};
use netlist::{Netlist, Valuations, soundness_law};
use psl_tree::{Atom, Bool, Edge};

// Whether a signal is 1 at a place.
fn is_one(path: &Valuations, place: usize, signal: u32) -> bool
    requires place { place < length path.now }
    requires signal { signal < length (valuation_of path.now place) }
    ensures { result ≡ bit (valuation_of path.now place) signal }
{
    let valuation = path.at(place).as_slice();
    valuation[signal as usize]
}

// Whether an atom holds at a place. At the first one no bit went anywhere.
fn is_held(path: &Valuations, place: usize, atom: Atom) -> bool
    requires place { place < length path.now }
    requires signal { (other : ℕ) → other ≤ place → atom.signal < length (valuation_of path.now other) }
    ensures { result ≡ atom_in path.now place atom }
{
    let signal = atom.signal;
    match atom.edge {
        Edge::Value => is_one(path, place, signal),
        Edge::Rise => {
            place > 0 && !is_one(path, place - 1, signal) && is_one(path, place, signal)
        }
        Edge::Fall => {
            place > 0 && is_one(path, place - 1, signal) && !is_one(path, place, signal)
        }
    }
}

/// Whether a Boolean holds on the letter at a place of a path. Places are counted from 0.
pub fn holds(netlist: &Netlist, path: &Valuations, place: usize, test: &Bool) -> bool
    requires path { HaveSignals netlist.now path.now }
    requires place { place < length path.now }
    requires atoms { AtomsOfBoolean (AtomInRange netlist.now.names) (boolean_of test.now) }
    ensures { result ≡ holds (letter_in netlist.now path.now place) (boolean_of test.now) }
{
    match test {
        Bool::Const(value) => *value,
        Bool::Test(atom) => {
            soundness_law(netlist);
            is_held(path, place, *atom)
        }
        Bool::Not(part) => !holds(netlist, path, place, part),
        Bool::And(left, right) => {
            holds(netlist, path, place, left) && holds(netlist, path, place, right)
        }
        Bool::Or(left, right) => {
            holds(netlist, path, place, left) || holds(netlist, path, place, right)
        }
    }
}

// Whether the letter at a place meets a combination with these values of the obligations at the next place.
fn meets(
    netlist: &Netlist,
    path: &Valuations,
    place: usize,
    positive: &Positive,
    next: &[bool],
) -> bool
    requires path { HaveSignals netlist.now path.now }
    requires place { place < length path.now }
    requires atoms { AtomsOfPositive (AtomInRange netlist.now.names) (positive_of positive.now) }
    requires owed { OwesWithin 0 (length next.now) (positive_of positive.now) }
    ensures { result ≡ met (positive_of positive.now) (letter_in netlist.now path.now place) (bit next.now) }
{
    match positive {
        Positive::Const(value) => *value,
        Positive::Holds(test) => holds(netlist, path, place, test),
        Positive::Owed(number) => next[*number as usize],
        Positive::And(left, right) => {
            meets(netlist, path, place, left, next) && meets(netlist, path, place, right, next)
        }
        Positive::Or(left, right) => {
            meets(netlist, path, place, left, next) || meets(netlist, path, place, right, next)
        }
    }
}

/// Whether the letter at a place of a path meets the delta of an obligation with these values of the obligations at
/// the next place. Places and obligations are counted from 0.
pub fn is_met(
    netlist: &Netlist,
    automaton: &Alternating,
    path: &Valuations,
    place: usize,
    number: u32,
    next: &[bool],
) -> bool
    requires tests { TestsSignals netlist.now automaton.now }
    requires path { HaveSignals netlist.now path.now }
    requires place { place < length path.now }
    requires number { number < length automaton.now.obligations }
    requires long { length next.now ≡ length automaton.now.obligations }
    ensures { result ≡ met (obligation_at automaton.now.obligations number).delta
        (letter_in netlist.now path.now place) (bit next.now) }
{
    let delta = automaton.delta(number);
    meets(netlist, path, place, delta, next)
}
