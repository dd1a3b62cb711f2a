//! The trail of a solver: which literals are true, since which level and for which reason. A literal is a number.
#![tactic(auto)]

mod laws;
mod literals;
mod path;

pub use laws::signed_law;
pub use literals::{number_of, opposite, signed};
pub use path::Trail;
pub use psl_base::NoMemory;
