// Why a search stops before it is done.
use clauses::{Clauses, Log};
use psl_base::{Items, NoMemory};

/// A formula that a machine could not decide.
#[derive(Debug, Drop)]
pub enum ReachQuery {
    /// A state that begins and misses one of these clauses.
    Initial(Clauses),
    /// A state that meets these clauses, and one that follows it and misses one of them.
    Step(Clauses),
    /// A state of the goal that meets these clauses.
    Bad(Clauses),
    /// A state that meets these clauses and is outside the cube, and one that follows it in the cube. Where the truth value
    /// says so, the first begins.
    Relative(Clauses, bool, Items<i32>),
}

/// Why a search stops before it is done. What it carries is in boxes: every call of a deep recursion has room on the stack
/// for a stop that it may hand on.
#[derive(Debug, Drop)]
pub enum Stop {
    /// The allocator refused memory.
    NoMemory,
    /// The steps of the solver are spent.
    Spent(Box<ReachQuery>, Box<Log>),
    /// The log of the solver is full.
    LogFull(Box<ReachQuery>, Box<Log>),
    /// The formula would be too large.
    Large(Box<ReachQuery>),
}

impl From<NoMemory> for Stop {
    ghost use Rattle.std.specs.Prelude.{◌≡◌};
    ghost use Rattle.reach_frames.specs.declared.stop.Stop.{Stop};

    ghost from_gives = { λ refused stop. stop ≡ Stop.NoMemory };

    fn from(_refused: NoMemory) -> Stop {
        Stop::NoMemory
    }
}
