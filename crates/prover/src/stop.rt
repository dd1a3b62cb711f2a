ghost use Rattle.std.specs.Prelude.{◌≡◌};
ghost use Rattle.prover.specs.Stops.{stop_of};

use crate::finding::{Finding, Query};
use clauses::CnfFault;
use psl_base::NoMemory;

/// Why the search ends at a query.
#[derive(Debug, Drop)]
pub(crate) enum Stop {
    /// Something is found out about the directive.
    Found(Finding),
    /// The allocator refused memory.
    NoMemory,
}

impl Stop {
    /// Why it ends where there is no formula of a query.
    pub fn without(query: Query, fault: CnfFault) -> Stop
        ensures { result ≡ stop_of query fault }
    {
        match fault {
            CnfFault::TooLarge => Stop::Found(Finding::Large(query)),
            CnfFault::NoMemory => Stop::NoMemory,
        }
    }
}

impl From<NoMemory> for Stop {
    ghost use Rattle.std.specs.Prelude.{◌≡◌};
    ghost use Rattle.prover.specs.declared.stop.Stop.{Stop};

    ghost from_gives = { λ refused stop. stop ≡ Stop.NoMemory };

    fn from(_refused: NoMemory) -> Stop {
        Stop::NoMemory
    }
}
