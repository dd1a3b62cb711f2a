ghost use Rattle.std.specs.Prelude.{IfOk};
ghost use Rattle.prover.specs.Claims.{IsClaimOf};
ghost use Rattle.prover.specs.Tasks.{IsProvable};

use crate::task::Task;
use alternating::Alternating;
use owed::{owed, violation};
use psl_base::NoMemory;
use psl_tree::Fl;
use std::alloc::Global;

/// What is owed, and the automaton of the words that violate it.
#[derive(Drop)]
pub(crate) struct Claim {
    pub owed: Fl,
    pub violation: Alternating,
}

pub(crate) fn claim_of(alloc: Global, task: Task) -> Result<Claim, NoMemory>
    requires { IsProvable task }
    ensures { IfOk result (IsClaimOf task.entry) }
{
    Ok(Claim {
        owed: owed(alloc, task.unit, task.directive)?,
        violation: violation(alloc, task.unit, task.directive)?,
    })
}
