//! A solver of formulas: it learns lemmas from conflicts, and logs each of them with the clauses that it follows from.
//!
//! Beside `solve` it gives the steps of a search, for solvers that take them otherwise.
#![tactic(auto)]

mod answer;
mod attach;
mod choose;
mod decide;
mod drop;
mod heuristics;
mod learn;
mod load;
mod order;
mod refute;
mod restart;
mod run;
mod solver;
mod spread;
mod usage;
mod valuation;

pub use answer::{Answer, FULL_LOG_WORDS};
pub use attach::{attach_lemma, go_back};
pub use decide::Decider;
pub use drop::is_reason;
pub use heuristics::Heuristics;
pub use learn::analyze;
pub use load::{other_literal, read_literals};
pub use psl_base::NoMemory;
pub use run::{solve, solve_first};
pub use usage::Candidate;
pub use valuation::values;
