ghost use Rattle.std.specs.Prelude.{◌≡◌};

use psl_base::{NoMemory, Place, ReadAllFault};
use std::alloc::{AllocError, AllocFailed};
use thiserror::Error;

/// Why a recording was not read. A fault of the text has the place of its token, and the end of the text counts
/// as a last token (IEEE 1364, clause 18.2).
#[derive(Clone, Copy, Debug, PartialEq, Eq, Error)]
pub enum VcdFault {
    /// A token begins with `$` where a section or a change is wanted, and is none that may stand in that part.
    #[error("unknown keyword")]
    UnknownKeyword(Place),

    /// Not `$end` where a section wants it, or a time or another keyword inside a block of changes.
    #[error("`$end` is missing")]
    MissingEnd(Place),

    /// A size that is none, a code with a byte outside `!` to `~`, or `$end` where a `$var` or a `$scope` wants
    /// another token.
    #[error("a declaration is out of form")]
    BadVar(Place),

    /// The code in a `$var` is declared with another size.
    #[error("a code is declared with another size")]
    CodeSizeDiffers(Place),

    /// `$upscope` where no scope is open.
    #[error("no scope is open")]
    ScopeNotOpen(Place),

    /// No decimal number up to 2^64 - 1 follows `#`.
    #[error("a time is no number")]
    BadTime(Place),

    /// A time that is lower than the one before it.
    #[error("a time falls")]
    TimeFalls(Place),

    /// A change of a code that no `$var` declares.
    #[error("a code is not declared")]
    CodeNotDeclared(Place),

    /// In the body, neither a keyword nor a time nor a change.
    #[error("not a change")]
    BadValue(Place),

    /// A value with more letters than its signal has bits, where the signal is read: none of a `real`, a `realtime`
    /// or a `string` is. The place is that of the code.
    #[error("a value is too long")]
    VectorTooLong(Place),

    /// Where a section of the definitions is wanted, a token that does not begin with `$`, or `$dumpvars` or its kin.
    #[error("a change stands before the definitions end")]
    ChangeBeforeDefinitionsEnd(Place),

    /// The text ends inside a section, a block or a change, or before the definitions end.
    #[error("the text ends too early")]
    EndsInside(Place),

    /// A time that would begin a sample past the limit, which is 1,000,000.
    #[error("too many samples")]
    TooManySamples(Place),

    /// The `$end` of a `$var` with which the bits of all codes pass 1,000,000.
    #[error("too many signals")]
    TooManySignals(Place),

    /// The file is longer than 268,435,456 bytes.
    #[error("the file is too long")]
    TooLong,

    /// The shelf failed and has counted the fault, or it tells that the file is not there.
    #[error("the file cannot be read")]
    ReadFault,

    /// The allocator refused memory.
    #[error("out of memory")]
    NoMemory,
}

impl From<NoMemory> for VcdFault {
    ghost use Rattle.vcd_reader.specs.declared.fault.VcdFault.TheVariants.{NoMemory as MemoryFault};

    ghost from_gives = { λ _ fault. fault ≡ MemoryFault };

    fn from(_refused: NoMemory) -> VcdFault {
        VcdFault::NoMemory
    }
}

impl From<AllocError> for VcdFault {
    ghost use Rattle.vcd_reader.specs.declared.fault.VcdFault.TheVariants.{NoMemory as MemoryFault};

    ghost from_gives = { λ _ fault. fault ≡ MemoryFault };

    fn from(_refused: AllocError) -> VcdFault {
        VcdFault::NoMemory
    }
}

impl<T: Drop> From<AllocFailed<T>> for VcdFault {
    ghost use Rattle.vcd_reader.specs.declared.fault.VcdFault.TheVariants.{NoMemory as MemoryFault};

    ghost from_gives = { λ _ fault. fault ≡ MemoryFault };

    fn from(_refused: AllocFailed<T>) -> VcdFault {
        VcdFault::NoMemory
    }
}

impl From<ReadAllFault> for VcdFault {
    ghost use Rattle.std.specs.Prelude.{◌≡◌};
    ghost use Rattle.vcd_reader.specs.Faults.{fault_of};

    ghost from_gives = { λ fault new. new ≡ fault_of fault };

    fn from(fault: ReadAllFault) -> VcdFault {
        match fault {
            ReadAllFault::ReadFault => VcdFault::ReadFault,
            ReadAllFault::TooLong => VcdFault::TooLong,
            ReadAllFault::NoMemory => VcdFault::NoMemory,
        }
    }
}
