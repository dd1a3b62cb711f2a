//! Property directed reachability over an abstract machine: frames of clauses that are strengthened until they keep a
//! goal out, are found inductive, or a path to the goal is found.
#![tactic(auto)]

mod adding;
mod bits;
mod blocking;
mod budget;
mod clearing;
mod entry;
mod frames;
mod laws;
mod learning;
mod leaving_out;
mod level;
mod literals;
mod machine;
mod path;
mod settling;
mod step;
mod stop;
mod words;

pub use bits::{is_in_cube, is_met};
pub use entry::{Entered, Entry, Path};
pub use frames::Frames;
pub use laws::frames_law;
pub use level::KeptClause;
pub use literals::Literals;
pub use machine::Machine;
pub use step::Step;
pub use stop::{ReachQuery, Stop};
