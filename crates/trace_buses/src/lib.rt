//! The buses among the first names of a netlist's signals, and the trace of a run in which each of them is one
//! vector.
#![tactic(auto)]

mod buses;
mod carried;
mod joining;
mod laws;
mod names;
mod spans;
mod vectors;

pub use laws::{examples_law, path_law, read_law, word_law};
pub use vectors::{vectors_in, write_buses};
