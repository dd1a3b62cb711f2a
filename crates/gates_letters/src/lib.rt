//! What a letter of a run makes true, as nodes over the frames of a netlist: Booleans, and positive combinations of
//! obligations.
#![tactic(auto)]

mod booleans;
mod combinations;
mod later;
mod laws;
mod literals;

pub use booleans::boolean_of;
pub use combinations::{combination_of, combination_with};
pub use later::{Later, Listed};
pub use laws::{boolean_law, combination_law};
