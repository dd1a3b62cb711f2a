//! The trees that a text of the Property Specification Language stands for, the letters and words
//! on which they are judged, and what a Boolean says of a letter.
//!
//! And what formulas mean, as definitions and lemmas: traces, tight satisfaction, satisfaction with and
//! without a clock, the three views of a finite word and the rewriting of clocks; and the automata of
//! sequences, which accept the lists of letters that satisfy these tightly. `worked_examples` states
//! examples of the definitions.
#![tactic(auto)]

mod atom;
mod boolean;
mod copies;
mod counts;
mod directive;
mod fl;
mod letter;
mod limit;
mod name;
mod range;
mod rows;
mod sere;

pub use atom::{Atom, Atoms, Edge, same_atom};
pub use boolean::Bool;
pub use counts::{MOST_CONSTRUCTORS, MOST_OBLIGATIONS, MOST_STATES, measure, obligations, states};
pub use directive::{Directive, Kind, Unit};
pub use fl::Fl;
pub use letter::{Letter, Letters, Word, holds};
pub use limit::{Limit, LimitFault, UnitFault};
pub use name::{Name, Names};
pub use range::{are_in_range, is_in_range};
pub use rows::worked_examples;
pub use sere::Sere;
