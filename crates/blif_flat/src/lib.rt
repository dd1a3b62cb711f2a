//! The netlist of a hierarchy of models: what its flat lines say, and why that is a netlist.
#![tactic(auto)]

mod flat;
mod instance_names;
mod laws;
mod parts;

pub use flat::{FlatNetlist, flat_netlist};
pub use laws::{soundness_law, unfolding_law};
pub use parts::FlatParts;
pub use psl_base::NoMemory;
