//! Lists of words under stable ids, in one region of memory.
//!
//! Millions of short lists that come and go live in a `Pool`: two blocks of memory in place of a
//! block for each list. A list keeps its id until it is given back, whatever happens to the others.
#![tactic(auto)]

mod free;
mod region;
mod runs;

pub use psl_base::NoMemory;
pub use region::{Id, MOST_WORDS, Pool};
