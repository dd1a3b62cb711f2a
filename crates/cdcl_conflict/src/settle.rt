// The lower levels: which literals the lemma needs.
ghost use Rattle.std.specs.Prelude.{◌≡◌, ◌≢◌, ℕ, ◌<◌, ◌≤◌, length, IsTrue, IfOk};
ghost use Rattle.cdcl_conflict.specs.declared.standing.Standing.TheVariants.{Waiting};
ghost use Rattle.cdcl_conflict_theory.specs.Trails.{size_of, reason_at, IsTrail, KnowsPlaces};
ghost use Rattle.cdcl_conflict.specs.Views.{steps_of};
ghost use Rattle.cdcl_conflict.specs.Standings.{IsListed, IsSettled, IsSettling, standing_at};

use crate::TrailView;
use crate::explain::explain;
use crate::implied::{Memory, is_implied};
use crate::standing::Standing;
use clause_store::Store;
use psl_base::NoMemory;

/// Settles each place of a lower level: it is kept, or explained where the lemma can do without it.
pub fn settle_lower(
    trail: &TrailView<'_>,
    clauses: &Store,
    standings: &mut [Standing],
    reached: &mut Vec<u32>,
    memory: &mut Memory,
) -> Result<(), NoMemory>
    requires trail { IsTrail clauses.now (steps_of trail.now) }
    requires places { KnowsPlaces (steps_of trail.now) trail.now.places.now }
    requires room { size_of (steps_of trail.now) ≤ length standings.old }
    requires listed { IsListed (size_of (steps_of trail.now)) standings.old reached.old.items }
    requires lower { (place : ℕ) → standing_at standings.old place ≡ Waiting → place < trail.now.start }
    ensures { IfOk result
        (λ _. IsSettling clauses.now (steps_of trail.now) (length reached.new.items) standings.old standings.new reached.new.items) }
{
    let mut index = 0;
    while index < reached.len() {
        settle(
            reached[index] as usize,
            trail,
            clauses,
            standings,
            reached,
            memory,
        )?;
        index += 1;
    }
    Ok(())
}

/// Settles a place, if it waits.
fn settle(
    place: usize,
    trail: &TrailView<'_>,
    clauses: &Store,
    standings: &mut [Standing],
    reached: &mut Vec<u32>,
    memory: &mut Memory,
) -> Result<(), NoMemory>
    requires trail { IsTrail clauses.now (steps_of trail.now) }
    requires places { KnowsPlaces (steps_of trail.now) trail.now.places.now }
    requires place { place < size_of (steps_of trail.now) }
    requires room { size_of (steps_of trail.now) ≤ length standings.old }
    requires listed { IsListed (size_of (steps_of trail.now)) standings.old reached.old.items }
    ensures { IfOk result
        (λ _. IsSettled clauses.now (steps_of trail.now) place standings.old reached.old.items standings.new reached.new.items) }
{
    let Standing::Waiting = standings[place] else {
        return Ok(());
    };
    if is_redundant(place, trail, clauses, standings, memory) {
        explain(place, trail, clauses, standings, reached)?;
    } else {
        standings[place] = Standing::Kept;
    }
    Ok(())
}

/// Whether the lemma can do without a literal: it is of level 0, or it follows from literals that were reached and from
/// level 0.
fn is_redundant(
    place: usize,
    trail: &TrailView<'_>,
    clauses: &Store,
    standings: &[Standing],
    memory: &mut Memory,
) -> bool
    requires trail { IsTrail clauses.now (steps_of trail.now) }
    requires places { KnowsPlaces (steps_of trail.now) trail.now.places.now }
    requires place { place < size_of (steps_of trail.now) }
    requires room { size_of (steps_of trail.now) ≤ length standings.now }
    ensures reasoned { IsTrue result → reason_at (steps_of trail.now) place ≢ 0 }
    ensures fixed { place < trail.now.fixed → IsTrue result }
{
    place < trail.fixed || is_implied(place, trail, clauses, standings, memory)
}
