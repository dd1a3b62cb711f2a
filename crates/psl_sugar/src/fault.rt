ghost use Rattle.std.specs.Prelude.{◌≡◌};
ghost use Rattle.psl_sugar.specs.declared.fault.SugarFault.TheVariants.{NoMemory as MemoryFault};

use psl_base::NoMemory;
use thiserror::Error;

/// Why a tree was not built.
#[derive(Clone, Copy, Debug, PartialEq, Eq, Error)]
pub enum SugarFault {
    /// The tree has more than 4,096 constructors.
    #[error("the formula is too large")]
    TooLarge,

    /// The allocator refused memory.
    #[error("out of memory")]
    NoMemory,
}

impl From<NoMemory> for SugarFault {
    ghost from_gives = { λ _ fault. fault ≡ MemoryFault };

    fn from(_refused: NoMemory) -> SugarFault {
        SugarFault::NoMemory
    }
}
