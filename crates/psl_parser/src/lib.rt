//! Reads the tokens of a text in the Property Specification Language into its tree (IEEE 1850, Annex A, in the profile
//! of this tool), or names the first token with a fault.
#![tactic(auto)]

mod booleans;
mod counted;
mod fault;
mod laws;
mod limit;
mod limit_laws;
mod make;
mod marks;
mod operands;
mod operators;
mod parser;
mod parsing;
mod properties;
mod repetitions;
mod scan;
mod sequences;
mod state;
mod units;

pub use fault::ParseFault;
pub use laws::one_answer;
pub use limit::{Limit, Passed};
pub use limit_laws::{one_limit, statements};
pub use parsing::parse;
pub use psl_grammar::UnitTree;
pub use scan::first_passed;
