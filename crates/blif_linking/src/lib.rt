//! How the models of a netlist's text are linked: which model each `.subckt` places, what its connections say, and what
//! is wrong where models do not fit together.
#![tactic(auto)]

mod actuals;
mod connections;
mod driving;
mod interface;
mod laws;
mod library;
mod linking;
mod links;
mod names;
mod naming;
mod numbering;
mod order;
mod outlining;
mod role;
mod undriven;
mod unknown;

pub use blif_model::NoMemory;
pub use connections::first_bad;
pub use driving::first_driven;
pub use interface::{Interface, interfaces_of};
pub use laws::worked_links;
pub use linking::{LinkedModels, link};
pub use links::{Connected, link_of};
pub use outlining::outline;
pub use role::Role;
pub use undriven::first_undriven;
pub use unknown::first_unknown;
