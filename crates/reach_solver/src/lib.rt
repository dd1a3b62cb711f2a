//! Questions about a formula with further clauses, asked of one solver that goes on: each further clause stays in it
//! with a selector, which is assumed where the clause is asked.
//!
//! Source: Een and Sorensson, Temporal induction by incremental SAT solving (2003).
#![tactic(auto)]

mod fingerprint;
mod solver;
mod text;

pub use solver::{Literals, ReachSolver, Told};
pub use text::text_of;
