use psl_base::NoMemory;
use thiserror::Error;

/// The most words of a log that is read, where a lemma counts its literals, its hints and two.
pub const MOST_READ_WORDS: usize = 100_000_000;

/// Why lines are no log, with the line, counted from 1.
#[derive(Clone, Copy, Debug, PartialEq, Eq, Drop, Error)]
pub enum LogFault {
    /// A whole line that is no line of an entry.
    #[error("L1 BadLine")]
    BadLine(u64),
    /// The text ends inside a line.
    #[error("L2 Truncated")]
    Truncated(u64),
    /// With this line the words are too many.
    #[error("L3 TooLong")]
    TooLong(u64),
    /// The allocator refused memory.
    #[error("out of memory")]
    NoMemory,
}

impl From<NoMemory> for LogFault {
    ghost use Rattle.std.specs.Prelude.{◌≡◌};
    ghost use Rattle.clause_text.specs.declared.fault.LogFault.{LogFault};

    ghost from_gives = { λ refused fault. fault ≡ LogFault.NoMemory };

    fn from(_refused: NoMemory) -> LogFault {
        LogFault::NoMemory
    }
}
