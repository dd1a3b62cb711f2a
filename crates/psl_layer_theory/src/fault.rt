ghost use Rattle.std.specs.Prelude.{◌≡◌};

use psl_base::{NoMemory, Place};
use thiserror::Error;

/// What is wrong with kinds and names. At one place the first of these is named.
#[derive(Clone, Copy, Debug, PartialEq, Eq)]
pub enum Cause {
    /// An operand is of a kind that is not accepted there.
    Kind,
    /// Nothing matches a path, its index is out of range, or a declared name has an index.
    UnknownName,
    /// Two different signals or ranges match a path.
    Ambiguous,
    /// A name or the default clock is declared twice in one list of statements.
    DeclaredTwice,
    /// A range's second number is below its first, or a count that begins at 1 is 0.
    EmptyRange,
    /// A constant needs more bits than the other side of its comparison has.
    ConstantTooWide,
}

/// A fault of kinds and names, and where it stands.
#[derive(Clone, Copy, Debug, PartialEq, Eq)]
pub struct Flaw {
    pub place: Place,
    pub cause: Cause,
}

/// Why a tree has no kernel.
#[derive(Clone, Copy, Debug, PartialEq, Eq, Error)]
pub enum LayerFault {
    /// An operand is of a kind that is not accepted there.
    #[error("an operand is of a kind that is not accepted here")]
    Kind(Place),

    /// Nothing matches a path, its index is out of range, or a declared name has an index.
    #[error("nothing has this name")]
    UnknownName(Place),

    /// Two different signals or ranges match a path.
    #[error("two signals have this name")]
    Ambiguous(Place),

    /// A name or the default clock is declared twice in one list of statements.
    #[error("declared twice")]
    DeclaredTwice(Place),

    /// A range's second number is below its first, or a count that begins at 1 is 0.
    #[error("an empty range")]
    EmptyRange(Place),

    /// A constant needs more bits than the other side of its comparison has.
    #[error("a constant is too wide")]
    ConstantTooWide(Place),

    /// A directive's formula has more than 4,096 constructors, with the place of the directive's word.
    #[error("a formula is too large")]
    TooLarge(Place),

    /// The allocator refused memory.
    #[error("out of memory")]
    NoMemory,
}

impl From<NoMemory> for LayerFault {
    ghost use Rattle.psl_layer_theory.specs.declared.fault.LayerFault.TheVariants.{NoMemory as MemoryFault};

    ghost from_gives = { λ _ fault. fault ≡ MemoryFault };

    fn from(_refused: NoMemory) -> LayerFault {
        LayerFault::NoMemory
    }
}
