ghost use Rattle.std.specs.Prelude.{◌≡◌};

use psl_base::{NoMemory, Place};
use thiserror::Error;

/// Why a text has no tokens. The first fault in the text is named.
#[derive(Clone, Copy, Debug, PartialEq, Eq, Error)]
pub enum LexFault {
    /// A byte that begins no token, a `\` directly before white space, or a byte of a constant that
    /// is no base or no digit of its base, with the place of that byte.
    #[error("a byte that begins no token")]
    BadByte(Place),

    /// A comment, string, escaped name or constant that does not end, with the place of its first
    /// byte. A string ends on its line.
    #[error("a comment, string, escaped name or constant does not end")]
    Unended(Place),

    /// A number past 2^64 - 1, or a constant whose size is 0 or past 64 or too small for its value,
    /// with the place of its first byte.
    #[error("a number is too large")]
    NumberTooLarge(Place),

    /// The allocator refused memory.
    #[error("out of memory")]
    NoMemory,
}

impl From<NoMemory> for LexFault {
    ghost use Rattle.psl_lexer.specs.declared.fault.LexFault.TheVariants.{NoMemory as MemoryFault};

    ghost from_gives = { λ _ fault. fault ≡ MemoryFault };

    fn from(_refused: NoMemory) -> LexFault {
        LexFault::NoMemory
    }
}
