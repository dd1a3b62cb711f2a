ghost use Rattle.std.specs.Prelude.{◌≡◌};

use psl_base::NoMemory;
use thiserror::Error;

/// Why tokens have no tree. The token is named by its index, counted from 0; the end of the text counts as a token
/// behind the last one.
#[derive(Clone, Copy, Debug, PartialEq, Eq, Error)]
pub enum ParseFault {
    /// The first token with which the tokens up to it begin no text of the grammar.
    #[error("syntax error")]
    Syntax { token: u32 },

    /// The bracket that opens a 65th level in one statement.
    #[error("brackets are nested too deep")]
    NestedTooDeep { token: u32 },

    /// The 2,049th token of a statement.
    #[error("a statement is too long")]
    StatementTooLong { token: u32 },

    /// The allocator refused memory.
    #[error("out of memory")]
    NoMemory,
}

/// Why reading stops at the next token.
#[derive(Clone, Copy)]
pub enum Fault {
    /// The token does not fit.
    Syntax,
    /// The token fits and passes a limit.
    Limit,
    /// The allocator refused memory.
    NoMemory,
}

impl From<NoMemory> for Fault {
    ghost use Rattle.psl_parser.specs.declared.fault.Fault.TheVariants.{NoMemory as MemoryFault};

    ghost from_gives = { λ _ fault. fault ≡ MemoryFault };

    fn from(_refused: NoMemory) -> Fault {
        Fault::NoMemory
    }
}
