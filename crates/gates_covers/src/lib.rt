//! Covers of tables: the rows of each table of at most four inputs as one side of a cover, and few rows that fit where
//! none of them does as the other side.
#![tactic(auto)]

mod candidates;
mod covers;
mod greedy;
mod laws;
mod points;

pub use covers::covers_of;
pub use laws::covers_law;
