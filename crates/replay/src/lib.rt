//! Whether a recording is one that a netlist can make: the first sample and the first signal where it is not.
#![tactic(auto)]

mod answer;
mod bits;
mod laws;
mod leaving;
mod replaying;
mod values;

pub use answer::{Replay, ReplayFault};
pub use bits::bit_named;
pub use laws::{examples_law, first_law, path_law};
pub use replaying::replay;
