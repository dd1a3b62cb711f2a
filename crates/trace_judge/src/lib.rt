//! What the trace of a run says of a directive: the verdict on the first letters of the run's word, as many as the trace
//! has samples.
#![tactic(auto)]

mod judging;
mod reading;

pub use judging::{JudgedTrace, Traced, judge_trace};
