//! Netlists from text in the Berkeley Logic Interchange Format: the models of a file are read into one netlist, or refused with its
//! first fault.
#![tactic(auto)]

mod flat;
mod kept;
mod laws;
mod models;
mod places;
mod reading;
mod shape;

pub use blif_model::BlifFault;
pub use laws::{hierarchy_law, one_reading_law};
pub use reading::read_blif;
