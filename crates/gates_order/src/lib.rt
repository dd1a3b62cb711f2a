//! An order in which the tables of a netlist can be computed, as a function of the netlist: by the depth of each table
//! above others, and then by its number.
#![tactic(auto)]

mod laws;
mod layers;
mod levels;
mod order;

pub use laws::order_law;
pub use order::order_of;
