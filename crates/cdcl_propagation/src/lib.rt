//! Unit propagation by watched literals, over clauses by number and a trail.
#![tactic(auto)]

mod adding;
mod others;
mod propagator;
mod visit;
mod watch;
mod work;

pub use propagator::Propagator;
pub use psl_base::NoMemory;
