//! Runs that hold their inputs: a path from an initial valuation, and from its last valuation on the inputs stay as
//! they are. Such a run goes on for ever and is given by its first valuations, so it shows a violation where no loop
//! that is short enough closes.
#![tactic(auto)]

mod bits;
mod inputs;
mod judge;
mod lasting;
mod laws;
mod letters;
mod walking;

pub use bits::no_bits;
pub use judge::is_met_when_held;
pub use lasting::automaton_law;
pub use laws::held_law;
pub use letters::{holds, is_met};
pub use walking::{Choices, filled, follow, walk};
