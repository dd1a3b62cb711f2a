//! Circuits as clauses: a circuit at so many positions, and that its states there are different.
#![tactic(auto)]

mod adding;
mod distinctness;
mod limits;
mod literals;
mod parts;
mod sizes;
mod states;
mod unrolling;

pub use distinctness::distinct;
pub use limits::fits;
pub use unrolling::unroll;
