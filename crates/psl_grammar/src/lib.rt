//! The grammar of the Property Specification Language as data (IEEE 1850, Annex A, in the profile of this tool), and
//! its theory: which tokens a symbol derives and with which tree, which tokens begin it, where a syntax fault stands.
#![tactic(auto)]

mod laws;
mod tree;

pub use laws::{beginnings, first_syntax_fault, one_tree, reading, worked_examples};
pub use tree::{Count, Expression, Path, Statement, UnitTree, VerificationUnit};
