//! The meaning of a whole text of the Property Specification Language: its directives in the kernel, over the names of
//! signals, or its first fault (IEEE 1850, clauses 5 to 7); and the rule by which a name stands for a signal.
#![tactic(auto)]

mod asked;
mod directives;
mod elaborated;
mod expressions;
mod flaws;
mod kinds;
mod meaning;
mod nodes;
mod occurrences;
mod operators;
mod order;
mod referred;
mod repetitions;
mod scope;
mod senses;
mod signals;
mod statements;
mod texts;

pub use psl_layer_theory::{Found, LayerFault};
pub use psl_names::{NameIndex, look_up};
pub use texts::resolve;
