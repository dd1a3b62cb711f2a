// What a search answers.
use clauses::{Clauses, Log};
use joint_theory::{JointPath, JointStates};
use psl_base::Items;
use reach_frames::ReachQuery;

/// Lists of clauses.
pub type ClauseLists = Items<Clauses>;

/// Frames, the first of which is for at most one step, and for each but the last a state that meets the next one and
/// misses it.
#[derive(Debug, Drop)]
pub struct Frames {
    pub frames: ClauseLists,
    pub stuck: JointStates,
}

/// How many frames keep the bad states out, and how many clauses the last of them has.
#[derive(Clone, Copy, Debug, PartialEq, Eq)]
pub struct FrameCount {
    pub frames: usize,
    pub clauses: usize,
}

/// What is found out about the bad states.
#[derive(Debug, Drop)]
pub enum Reached {
    /// Inductive clauses keep them out. The logs refute the queries for an initial state, a step and a bad state.
    Inductive(Clauses, Log, Log, Log),
    /// A path leads to one.
    Path(JointPath),
    /// Frames keep them out for so many steps.
    Open(Frames),
    /// The steps were spent on a query; the log has as many lemmas.
    Spent(ReachQuery, Log),
    /// The log of a query is full.
    LogFull(ReachQuery, Log),
    /// The formula of a query is too large.
    Large(ReachQuery),
}
