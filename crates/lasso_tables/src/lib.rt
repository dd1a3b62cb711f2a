//! Tables with a value for each place of a word with a loop, and the next place of each.
//!
//! Places are counted from 0: those of the stem, then those of the loop. Two more follow, the one of Top for ever and the
//! one of Bottom for ever, which are their own next places. The dual of a word has Top and Bottom exchanged (IEEE 1850,
//! Annex B). A call that takes memory answers `NoMemory` where memory is refused.
#![tactic(auto)]

mod places;
mod tables;

pub use places::{holds_at, next_places};
pub use tables::{after_step, both, held, opposites};
