// The search from a conflict, over what is known of the places.
ghost use Rattle.std.specs.Prelude.{◌≡◌, ◌≤◌, ℕ, length, OnOk, IfOk};
ghost use Rattle.cdcl_conflict_theory.specs.Trails.{size_of, IsTrail, IsConflict, KnowsPlaces, HasEnded};
ghost use Rattle.cdcl_conflict.specs.Views.{steps_of};
ghost use Rattle.cdcl_conflict_theory.specs.Lemmas.{IsLearned, IsRefuted};
ghost use Rattle.cdcl_conflict.specs.Standings.{IsClear};

use crate::TrailView;
use crate::collect::{Lemma, collect};
use crate::explain::clause_at;
use crate::implied::Memory;
use crate::reach::reach_clause;
use crate::settle::settle_lower;
use crate::standing::Standing;
use crate::sweep::sweep;
use clause_store::Store;
use psl_base::NoMemory;

/// Searches from a conflict, and wipes out what is then known of the places, also where memory is refused.
pub fn search_and_clear(
    conflict: u32,
    trail: &TrailView<'_>,
    clauses: &Store,
    standings: &mut [Standing],
    reached: &mut Vec<u32>,
    memory: &mut Memory,
    lemma: &mut Lemma,
) -> Result<(), NoMemory>
    requires trail { IsTrail clauses.now (steps_of trail.now) }
    requires places { KnowsPlaces (steps_of trail.now) trail.now.places.now }
    requires conflict { IsConflict clauses.now (steps_of trail.now) conflict }
    requires room { size_of (steps_of trail.now) ≤ length standings.old }
    requires clear { IsClear standings.old }
    ensures learned { OnOk result (HasEnded clauses.now (steps_of trail.now)
        → IsLearned clauses.now (steps_of trail.now) lemma.new.literals.items lemma.new.hints.items) }
    ensures refuted { OnOk result (trail.now.fixed ≡ size_of (steps_of trail.now)
        → IsRefuted clauses.now lemma.new.literals.items lemma.new.hints.items) }
    ensures clear { IsClear standings.new }
{
    let outcome = search(conflict, trail, clauses, standings, reached, memory, lemma);
    if outcome.is_err() {
        clear(standings);
    }
    outcome
}

/// Searches from a conflict: its literals are reached, the current level is swept, the lower ones are settled, and
/// the lemma is written down. Nothing is known of the places before, nor after it.
fn search(
    conflict: u32,
    trail: &TrailView<'_>,
    clauses: &Store,
    standings: &mut [Standing],
    reached: &mut Vec<u32>,
    memory: &mut Memory,
    lemma: &mut Lemma,
) -> Result<(), NoMemory>
    requires trail { IsTrail clauses.now (steps_of trail.now) }
    requires places { KnowsPlaces (steps_of trail.now) trail.now.places.now }
    requires conflict { IsConflict clauses.now (steps_of trail.now) conflict }
    requires room { size_of (steps_of trail.now) ≤ length standings.old }
    requires clear { IsClear standings.old }
    ensures learned { OnOk result (HasEnded clauses.now (steps_of trail.now)
        → IsLearned clauses.now (steps_of trail.now) lemma.new.literals.items lemma.new.hints.items) }
    ensures refuted { OnOk result (trail.now.fixed ≡ size_of (steps_of trail.now)
        → IsRefuted clauses.now lemma.new.literals.items lemma.new.hints.items) }
    ensures clear { OnOk result (IsClear standings.new) }
{
    reached.clear();
    let clause = clause_at(clauses, conflict);
    let waiting = reach_clause(clause, trail.literals.len(), trail, standings, reached)?;
    sweep(waiting, trail, clauses, standings, reached)?;
    memory.clear();
    settle_lower(trail, clauses, standings, reached, memory)?;
    collect(conflict, trail, standings, reached.as_mut_slice(), lemma)
}

/// Nothing is known of the places any more.
fn clear(standings: &mut [Standing])
    ensures { IsClear standings.new }
{
    for standing in standings.iter_mut() {
        *standing = Standing::Untouched;
    }
}
