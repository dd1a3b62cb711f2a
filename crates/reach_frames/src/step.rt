// What a step of the search ends in.
use crate::Path;
use clauses::Clauses;
use psl_base::{Bits, Items};

/// What a step of the search ends in.
#[derive(Debug, Drop)]
pub enum Step {
    /// Every frame keeps the goal out, and each but the last has its stuck state.
    Cleared(Items<Bits>),
    /// An inductive invariant that keeps the goal out.
    Invariant(Clauses),
    /// A path to the goal.
    Path(Path),
    /// The budget is spent.
    Paused,
}
