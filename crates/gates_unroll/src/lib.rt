//! Frames of a netlist, built one behind another: for each signal of a cone the literal of a node.
#![tactic(auto)]

mod frames;
mod inputs;
mod latches;
mod laws;
mod tables;

pub use frames::{first_frame, next_frame};
pub use laws::growing_law;
