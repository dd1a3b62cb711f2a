//! The canonical text of a formula, by the names of its signals.
#![tactic(auto)]

mod naming;
mod printing;

pub use printing::print_fl;
