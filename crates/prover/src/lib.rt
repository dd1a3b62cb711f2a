//! The prover: whether each run of a netlist satisfies what is owed of a directive.
#![tactic(auto)]

mod claim;
mod closing;
mod context;
mod finding;
mod glance;
mod halt;
mod holding;
mod keeping;
mod milestone;
mod options;
mod proving;
mod raising;
mod reaching;
mod searching;
mod silence;
mod stop;
mod task;
mod telling;

pub use finding::{Finding, OpenPath, OpenPaths, Query, ReachEnds, SearchEnd};
pub use halt::ProveFault;
pub use milestone::{Milestone, Wording};
pub use options::Options;
pub use proving::{prove, prove_aloud};
pub use reach::FrameCount;
pub use task::Task;
