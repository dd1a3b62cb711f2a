//! Frames of a netlist: a literal for each signal at each moment. It holds definitions and lemmas; its functions state
//! laws.
#![tactic(auto)]

mod laws;

pub use laws::{example_law, path_law};
