//! Some clause of a list is missed, as clauses over any formula: a variable for each clause of the list, which is true
//! only where each of its literals is false.
#![tactic(auto)]

mod laws;

pub use laws::missed_law;
