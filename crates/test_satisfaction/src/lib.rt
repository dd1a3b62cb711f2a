//! Satisfaction by a plain recursion over its definition (IEEE 1850, Annex B), clause by clause. It is slow, it has no
//! automaton, and nothing is proved of what it answers: programs compare the judge of recordings with it.
#![tactic(auto)]

mod satisfied;
mod tight;
mod words;

pub use satisfied::is_satisfied;
pub use words::Letter;
