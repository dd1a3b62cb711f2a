// The signals that an automaton tests.
ghost use Rattle.std.specs.Prelude.{◌≡◌, length};

use crate::slice::Slice;
use alternating::Positive;
use psl_base::Bits;
use psl_tree::{Atom, Bool, Edge};

/// Keeps a signal, if there is a bit for it. It says whether it was not kept before.
pub(crate) fn keep(kept: &mut Bits, signal: u32) -> bool
    ensures { length kept.new ≡ length kept.old }
{
    let place = signal as usize;
    if place < kept.len() && !*kept.at(place) {
        kept.set(place, true);
        true
    } else {
        false
    }
}

// Keeps the signal of an atom, and its value before where an edge of it is tested.
fn mark_atom(atom: Atom, slice: &mut Slice)
    ensures now { length slice.new.now ≡ length slice.old.now }
    ensures before { length slice.new.before ≡ length slice.old.before }
    ensures tested { length slice.new.tested ≡ length slice.old.tested }
{
    keep(&mut slice.now, atom.signal);
    match atom.edge {
        Edge::Value => {}
        Edge::Rise | Edge::Fall => {
            keep(&mut slice.before, atom.signal);
            keep(&mut slice.tested, atom.signal);
        }
    }
}

// Keeps the signals of a Boolean.
fn mark_boolean(test: &Bool, slice: &mut Slice)
    ensures now { length slice.new.now ≡ length slice.old.now }
    ensures before { length slice.new.before ≡ length slice.old.before }
    ensures tested { length slice.new.tested ≡ length slice.old.tested }
{
    match test {
        Bool::Const(_) => {}
        Bool::Test(atom) => mark_atom(*atom, slice),
        Bool::Not(part) => mark_boolean(part, slice),
        Bool::And(left, right) | Bool::Or(left, right) => {
            mark_boolean(left, slice);
            mark_boolean(right, slice);
        }
    }
}

/// Keeps the signals of what an obligation asks.
pub(crate) fn mark_positive(asked: &Positive, slice: &mut Slice)
    ensures now { length slice.new.now ≡ length slice.old.now }
    ensures before { length slice.new.before ≡ length slice.old.before }
    ensures tested { length slice.new.tested ≡ length slice.old.tested }
{
    match asked {
        Positive::Const(_) | Positive::Owed(_) => {}
        Positive::Holds(test) => mark_boolean(test, slice),
        Positive::And(left, right) | Positive::Or(left, right) => {
            mark_positive(left, slice);
            mark_positive(right, slice);
        }
    }
}
