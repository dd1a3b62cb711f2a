//! Circuits as clauses: gates, the paths of a circuit, and the clauses whose models they are. It holds types,
//! definitions and lemmas; its functions state laws.
#![tactic(auto)]

mod circuit;
mod laws;

pub use circuit::{Circuit, Gate, Gates, Literals};
pub use laws::{distinct_law, relation_law, size_law, term_law, unrolling_law};
