ghost use Rattle.std.specs.Prelude.{◌≡◌};

use psl_base::NoMemory;
use thiserror::Error;

/// A limit on what is judged on a recording, or asked of a netlist.
#[derive(Clone, Copy, Debug, PartialEq, Eq, Drop, Error)]
pub enum Limit {
    /// A sequence counts more than 1,024 states.
    #[error("a sequence counts more than 1024 states")]
    Sere,
    /// The formula counts more than 2,048 obligations.
    #[error("the formula counts more than 2048 obligations")]
    Automaton,
    /// The netlist and the formula are too large for so many positions.
    #[error("too large to be unrolled")]
    Unroll,
    /// What is asked of a solver of them is too large, or the circuit that it is made of.
    #[error("the formula is too large")]
    Formula,
}

/// Why a formula is not judged, or not asked.
#[derive(Clone, Copy, Debug, PartialEq, Eq, Drop, Error)]
pub enum LimitFault {
    /// It passes a limit.
    #[error("{0}")]
    TooLarge(Limit),
    /// The allocator refused memory.
    #[error("out of memory")]
    NoMemory,
}

impl From<NoMemory> for LimitFault {
    ghost use Rattle.psl_tree.specs.declared.limit.LimitFault.TheVariants.{NoMemory as MemoryFault};

    ghost from_gives = { λ _ fault. fault ≡ MemoryFault };

    fn from(_refused: NoMemory) -> LimitFault {
        LimitFault::NoMemory
    }
}

/// Why the directives of a unit are not judged, or not asked.
#[derive(Clone, Copy, Debug, PartialEq, Eq, Drop, Error)]
pub enum UnitFault {
    /// The directive of this number passes a limit.
    #[error("directive {0}: {1}")]
    TooLarge(u32, Limit),
    /// The allocator refused memory.
    #[error("out of memory")]
    NoMemory,
}

impl From<NoMemory> for UnitFault {
    ghost use Rattle.psl_tree.specs.declared.limit.UnitFault.TheVariants.{NoMemory as MemoryFault};

    ghost from_gives = { λ _ fault. fault ≡ MemoryFault };

    fn from(_refused: NoMemory) -> UnitFault {
        UnitFault::NoMemory
    }
}
