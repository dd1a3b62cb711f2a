use crate::stop::Stop;
use psl_base::NoMemory;
use thiserror::Error;

/// Why a search that tells how far it has come ends before its end.
#[derive(Debug, Drop)]
pub(crate) enum Halt {
    /// It stops at a query.
    Stopped(Stop),
    /// What was to be told was not written.
    Unwritten,
}

/// Why nothing is found out of a directive.
#[derive(Clone, Copy, Debug, PartialEq, Eq, Error)]
pub enum ProveFault {
    /// A line was to be told, and only its first bytes could be written.
    #[error("progress cannot be written")]
    Unwritten,
    /// The allocator refused memory.
    #[error("out of memory")]
    NoMemory,
}

impl From<NoMemory> for Halt {
    ghost use Rattle.std.specs.Prelude.{◌≡◌};
    ghost use Rattle.prover.specs.declared.halt.Halt.{Halt};
    ghost use Rattle.prover.specs.declared.stop.Stop.{Stop};

    ghost from_gives = { λ refused halt. halt ≡ Halt.Stopped Stop.NoMemory };

    fn from(_refused: NoMemory) -> Halt {
        Halt::Stopped(Stop::NoMemory)
    }
}

impl From<Stop> for Halt {
    ghost use Rattle.std.specs.Prelude.{◌≡◌};
    ghost use Rattle.prover.specs.declared.halt.Halt.{Halt};

    ghost from_gives = { λ stop halt. halt ≡ Halt.Stopped stop };

    fn from(stop: Stop) -> Halt {
        Halt::Stopped(stop)
    }
}

impl From<NoMemory> for ProveFault {
    ghost use Rattle.std.specs.Prelude.{◌≡◌};
    ghost use Rattle.prover.specs.declared.halt.ProveFault.{ProveFault};

    ghost from_gives = { λ refused fault. fault ≡ ProveFault.NoMemory };

    fn from(_refused: NoMemory) -> ProveFault {
        ProveFault::NoMemory
    }
}
