//! The analysis of a conflict: from a trail and a clause that is false to a lemma with its hints.
#![tactic(auto)]

mod analyzer;
mod collect;
mod explain;
mod implied;
mod reach;
mod search;
mod settle;
mod standing;
mod sweep;
mod view;

pub use analyzer::Analyzer;
pub use collect::Lemma;
pub use psl_base::NoMemory;
pub use view::{TrailView, level_of};
