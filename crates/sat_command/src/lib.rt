//! The command `sat`: reads a formula in the DIMACS format, solves it, and says what was found out.
#![tactic(auto)]

mod finish;
mod message;
mod model_text;
mod planning;
mod report;
mod rows;
mod solving;
mod top;
mod words;

pub use report::{Fault, Report};
pub use top::run;
