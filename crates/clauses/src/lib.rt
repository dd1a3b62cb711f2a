//! Clauses and clause logs: what they are, when a log refutes a formula, and that a refuted formula has no model.
#![tactic(auto)]

mod cnf;
mod flat;
mod laws;
mod log;

pub use cnf::Cnf;
pub use flat::{Clauses, CnfFault, MOST_VARIABLES, MOST_WORDS};
pub use laws::refutation_law;
pub use log::{Entries, Entry, Log, MOST_LOG_WORDS};
