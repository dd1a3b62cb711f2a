//! A solver that is asked again and again: clauses are added between questions, each question assumes some literals,
//! and what was learned stays.
#![tactic(auto)]

mod asked;
mod assuming;
mod back;
mod final_core;
mod growing;
mod incremental;
mod storing;
mod watches;

pub use asked::{Asked, Literals};
pub use growing::Growing;
pub use psl_base::NoMemory;
