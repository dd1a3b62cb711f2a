//! Clocks rewritten away: a formula under a clock, or under none, becomes a formula without clocks
//! and synchronous aborts that the same words satisfy.
#![tactic(auto)]

mod rewriting;
mod rows;
mod ticks;
mod trees;

pub use rewriting::unclock;
