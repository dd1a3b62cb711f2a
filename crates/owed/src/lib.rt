//! What a circuit owes of an assertion or of a cover, under the assumptions of its text; and how large that is, and whether
//! it is within the limits of the formulas for a netlist, which is told before anything of it is built.
#![tactic(auto)]

mod formula;
mod kinds;
mod laws;
mod limits;
mod size;
mod violations;

pub use formula::owed;
pub use kinds::is_asked;
pub use laws::{owes, violating_runs};
pub use limits::check_sizes;
pub use size::{Size, assumed_size, owed_size};
pub use violations::violation;
