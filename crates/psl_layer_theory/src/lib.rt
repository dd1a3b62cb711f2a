//! What a surface tree of the Property Specification Language means over the names of signals (IEEE 1850, clauses 5 to
//! 7): the kind of an expression, the faults of kinds and names, and the kernel of each directive.
#![tactic(auto)]

mod fault;
mod found;
mod kind;
mod laws;
mod operator;

pub use fault::{Cause, Flaw, LayerFault};
pub use found::{Found, Reference, Side};
pub use kind::ExpressionKind;
pub use laws::{one_answer, rows, worked_examples};
pub use operator::{DeclarationWord, InfixOperator, PrefixOperator, RepetitionOperator};
