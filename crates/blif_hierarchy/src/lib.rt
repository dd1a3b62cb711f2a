//! Hierarchies of models as a whole: what they cost, how deep they are, and what drives their signals.
//!
//! All of it is found by sums over placements, before anything is flattened.
#![tactic(auto)]

mod cost;
mod depth;
mod laws;
mod lines;
mod place;
mod recursion;

pub use cost::{NAME_SIZE, Scale, first_too_large};
pub use depth::first_too_deep;
pub use laws::hierarchy_law;
pub use lines::first_too_long;
pub use place::PlacementAt;
pub use psl_base::NoMemory;
pub use recursion::first_recursive;
