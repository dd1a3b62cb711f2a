// Going back as far as need be.
ghost use Rattle.std.specs.Prelude.{◌≡◌, take};
ghost use Rattle.cdcl_incremental.specs.Levels.{true_at};

use cdcl::{Decider, go_back};
use cdcl_propagation::Propagator;

/// Goes back to a level, where the current one is above it.
pub(crate) fn go_back_to(propagator: &mut Propagator, decider: &mut Decider, level: usize)
    ensures clauses { propagator.new.clauses ≡ propagator.old.clauses }
    ensures variables { propagator.new.path.variables ≡ propagator.old.path.variables }
    ensures literals { propagator.new.path.literals ≡ true_at propagator.old.path level }
    ensures limits { propagator.new.path.limits ≡ take level propagator.old.path.limits }
{
    if level < propagator.trail().limits().len() {
        go_back(propagator, decider, level);
    }
}
