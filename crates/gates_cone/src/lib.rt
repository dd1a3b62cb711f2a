//! The cone of signals of a netlist: what feeds them through tables and latches.
#![tactic(auto)]

mod cone;
mod drivers;
mod keeping;
mod laws;
mod spreading;

pub use cone::{cone_of, cone_with_latches};
pub use laws::{cone_law, frames_law};
