//! Nodes in the making, with folding and sharing.
#![tactic(auto)]

mod builder;
mod left;
mod literals;
mod tables;

pub use builder::Builder;
pub use left::{Cubes, cubes};
pub use literals::negated;
