// A place is explained by its reason.
ghost use Rattle.std.specs.Prelude.{◌≡◌, ◌≢◌, ◌<◌, ◌≤◌, length, Some, IsSome, IfOk};
ghost use Rattle.clauses.specs.Live.{clause_of};
ghost use Rattle.cdcl_conflict.specs.declared.standing.Standing.TheVariants.{Waiting};
ghost use Rattle.cdcl_conflict_theory.specs.Trails.{size_of, reason_at, IsTrail, KnowsPlaces};
ghost use Rattle.cdcl_conflict.specs.Views.{steps_of};
ghost use Rattle.cdcl_conflict.specs.Standings.{IsListed, IsExplaining, standing_at};

use crate::TrailView;
use crate::reach::reach_clause;
use crate::standing::Standing;
use clause_store::Store;
use psl_base::NoMemory;

/// The clause of a number, which is live.
pub fn clause_at(clauses: &Store, number: u32) -> &[u32]
    requires { IsSome (clause_of clauses.now number) }
    ensures { clause_of clauses.now number ≡ Some result.now }
{
    let Some(clause) = clauses.get(number as usize - 1) else {
        unreachable!()
    };
    clause
}

/// Explains a place that waits: its reason is read, and the places of the reason's other literals are reached. It
/// answers how many places of the current level wait since.
pub fn explain(
    place: usize,
    trail: &TrailView<'_>,
    clauses: &Store,
    standings: &mut [Standing],
    reached: &mut Vec<u32>,
) -> Result<usize, NoMemory>
    requires trail { IsTrail clauses.now (steps_of trail.now) }
    requires places { KnowsPlaces (steps_of trail.now) trail.now.places.now }
    requires place { place < size_of (steps_of trail.now) }
    requires reasoned { reason_at (steps_of trail.now) place ≢ 0 }
    requires room { size_of (steps_of trail.now) ≤ length standings.old }
    requires listed { IsListed (size_of (steps_of trail.now)) standings.old reached.old.items }
    requires waits { standing_at standings.old place ≡ Waiting }
    ensures { IfOk result
        (λ waiting. IsExplaining clauses.now (steps_of trail.now) place standings.old reached.old.items standings.new reached.new.items waiting) }
{
    standings[place] = Standing::Explained;
    let reason = clause_at(clauses, trail.reasons[place]);
    reach_clause(reason, place, trail, standings, reached)
}
