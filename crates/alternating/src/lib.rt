//! Alternating automata of formulas without clocks: one obligation for each thing that can be owed at
//! a place. On every finite word the automaton has the value that satisfaction gives, in each of the
//! three views, and one step gives the values of all obligations at a place from those at the next.
#![tactic(auto)]

mod abort;
mod automaton;
mod build;
mod dual;
mod laws;
mod letter;
mod literal;
mod marking;
mod merge;
mod obligation;
mod part;
mod pending;
mod positive;
mod prefix;
mod stage;
mod step;
mod suffix;
mod trim;
mod truths;

pub use automaton::{Alternating, has_large_sequence, of};
pub use laws::values_and_letters;
pub use positive::Positive;
pub use truths::Truths;
