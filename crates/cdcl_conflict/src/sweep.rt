// The sweep down the current level, to its first unique implication point.
ghost use Rattle.std.specs.Prelude.{◌≡◌, ◌≢◌, ℕ, ◌+◌, ◌<◌, ◌≤◌, length, IfOk};
ghost use Rattle.cdcl_conflict.specs.declared.standing.Standing.TheVariants.{Waiting};
ghost use Rattle.cdcl_conflict_theory.specs.Trails.{size_of, IsTrail, KnowsPlaces};
ghost use Rattle.cdcl_conflict.specs.Views.{steps_of};
ghost use Rattle.cdcl_conflict.specs.Standings.{IsListed, IsSweeping, IsSwept, standing_at, waiting_below};

use crate::TrailView;
use crate::explain::explain;
use crate::standing::Standing;
use clause_store::Store;
use psl_base::NoMemory;

/// Explains the places of the current level that wait, the highest first, until a single one does: the first unique
/// implication point, which is kept. (GRASP, a search algorithm for propositional satisfiability, 1999;
/// Efficient conflict driven learning in a Boolean satisfiability solver, 2001.)
pub fn sweep(
    mut waiting: usize,
    trail: &TrailView<'_>,
    clauses: &Store,
    standings: &mut [Standing],
    reached: &mut Vec<u32>,
) -> Result<(), NoMemory>
    requires trail { IsTrail clauses.now (steps_of trail.now) }
    requires places { KnowsPlaces (steps_of trail.now) trail.now.places.now }
    requires room { size_of (steps_of trail.now) ≤ length standings.old }
    requires listed { IsListed (size_of (steps_of trail.now)) standings.old reached.old.items }
    requires sweeping { IsSweeping (steps_of trail.now) standings.old (size_of (steps_of trail.now)) waiting }
    ensures { IfOk result
        (λ _. IsSwept clauses.now (steps_of trail.now) waiting standings.old standings.new reached.new.items) }
{
    if waiting == 0 {
        return Ok(());
    }
    let mut end = trail.literals.len();
    while waiting > 1 {
        end = last_waiting(standings, trail.start, end);
        waiting = waiting - 1 + explain(end, trail, clauses, standings, reached)?;
    }
    let top = last_waiting(standings, trail.start, end);
    standings[top] = Standing::Kept;
    Ok(())
}

/// The highest place that waits, from the start on and in front of the end. There is one.
fn last_waiting(standings: &[Standing], start: usize, end: usize) -> usize
    requires room { end ≤ length standings.now }
    requires some { 0 < waiting_below standings.now start end }
    ensures start { start ≤ result }
    ensures end { result < end }
    ensures waits { standing_at standings.now result ≡ Waiting }
    ensures last { (place : ℕ) → result < place → place < end → standing_at standings.now place ≢ Waiting }
    ensures one { waiting_below standings.now start result + 1 ≡ waiting_below standings.now start end }
{
    let mut place = end;
    loop {
        place -= 1;
        if let Standing::Waiting = standings[place] {
            return place;
        }
    }
}
