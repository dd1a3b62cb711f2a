//! The search for a run of so many valuations whose word an automaton accepts, as clauses over frames of shared nodes:
//! the formula, and the run that a model gives.
//!
//! Source: Biere, Cimatti, Clarke and Zhu, Symbolic model checking without BDDs (1999).
#![tactic(auto)]

mod beginning;
mod closing;
mod comparing;
mod counting;
mod facts;
mod formula;
mod framing;
mod free;
mod laws;
mod obligations;
mod places;
mod placing;
mod putting;
mod runs;
mod serving;
mod tested;

pub use formula::{OrderedFormula, ordered_search, search_formula};
pub use laws::{example_law, filled_law, growing_law, search_law, search_size_law};
pub use runs::read_run;
