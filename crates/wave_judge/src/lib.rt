//! The verdicts of a recording: what three views of it say of each directive (IEEE 1850, Annex B).
//! Each directive's formula becomes an alternating automaton without clocks, and one pass from the
//! last sample to the first gives the values of its obligations, 64 samples at a time. From which sample on a verdict
//! is settled is found by bisection over passes on first samples.
#![tactic(auto)]

mod columns;
mod judging;
mod laws;
mod leveling;
mod packing;
mod pass;
mod search;
mod settling;
mod verdict;

pub use judging::{judge, judge_one};
pub use laws::{one_answer_law, settled_stays};
pub use leveling::level;
pub use settling::points;
pub use verdict::{Level, Points, Verdict, Verdicts};
