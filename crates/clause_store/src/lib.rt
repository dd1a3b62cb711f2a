//! Clauses by place, which come and go, in one region of memory.
#![tactic(auto)]

mod region;
mod store;

pub use psl_base::NoMemory;
pub use region::MOST_WORDS;
pub use store::Store;
