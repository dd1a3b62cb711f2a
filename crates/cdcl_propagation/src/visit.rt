// A look at an entry of a literal's list, which changes nothing. A search spends most of its time here, in one loop
// with what `work` has: calls would cost more than what they do.
ghost use Rattle.std.specs.Prelude.{◌≡◌, ◌≢◌, ◌⊎◌, ℕ, ◌*◌, ◌<◌, ◌≤◌, List, length, Some, None, IfSome, IfNone};
ghost use Rattle.std.specs.List.{All, Contains};
ghost use Rattle.clauses.specs.Live.{clause_of};
ghost use Rattle.cdcl_trail.specs.Literals.{opposite};
ghost use Rattle.cdcl_propagation.specs.Watching.{IsPaired, IsEntry};
ghost use Rattle.cdcl_propagation.specs.Visits.{IsForced, Says};

use crate::others::{exchanged, spares};
use crate::watch::{Pair, Visit, Watch};
use cdcl_trail::{Trail, opposite};
use clause_store::Store;

/// The live clause of a number.
#[inline(always)]
pub(crate) fn clause_at(clauses: &Store, number: u32) -> Option<&[u32]>
    ensures some { IfSome result (λ clause. clause_of clauses.now number ≡ Some clause.now) }
    ensures none { IfNone result (clause_of clauses.now number ≡ None) }
{
    if number == 0 {
        return None;
    }
    clauses.get(number as usize - 1)
}

/// Some literal of a clause other than this one, that is not false.
#[inline(always)]
fn open_literal(clause: &[u32], trail: &Trail, other: u32) -> Option<u32>
    requires { All (λ literal. literal < 2 * trail.now.variables) clause.now }
    ensures some { IfSome result (λ literal. Contains clause.now literal × (literal ≢ other) × (Contains trail.now.literals (opposite literal) → ⊥)) }
    ensures none { IfNone result (All (λ literal. (literal ≡ other) ⊎ Contains trail.now.literals (opposite literal)) clause.now) }
{
    for literal in clause {
        if *literal != other && !trail.is_true(opposite(*literal)) {
            return Some(*literal);
        }
    }
    None
}

/// What there is to do with a clause whose literals are all false, but for the blocker maybe, which is not true.
#[inline(always)]
fn forced(trail: &Trail, watch: Watch) -> Visit
    requires { watch.blocker < 2 * trail.now.variables }
    ensures { ((result ≡ Visit.Conflict) × Contains trail.now.literals (opposite watch.blocker))
        ⊎ ((result ≡ Visit.Force watch) × (Contains trail.now.literals (opposite watch.blocker) → ⊥)) }
{
    if trail.is_true(opposite(watch.blocker)) {
        Visit::Conflict
    } else {
        Visit::Force(watch)
    }
}

/// What there is to do at an entry of the list of a false literal.
#[inline(always)]
pub(crate) fn look_at(
    clauses: &Store,
    pairs: &[Pair],
    trail: &Trail,
    watch: Watch,
    literal: u32,
) -> Visit
    requires paired { IsPaired clauses.now pairs.now (2 * trail.now.variables) }
    requires within { (number : ℕ) (clause : List ℕ) → clause_of clauses.now number ≡ Some clause → All (λ literal. literal < 2 * trail.now.variables) clause }
    requires entry { IsEntry clauses.now (length pairs.now) (2 * trail.now.variables) literal watch }
    requires false_ { Contains trail.now.literals (opposite literal) }
    ensures { Says clauses.now pairs.now trail.now literal watch result }
{
    if trail.is_true(watch.blocker) {
        return Visit::Keep(watch);
    }
    if watch.is_short {
        return forced(trail, watch);
    }
    let pair = pairs[watch.number as usize];
    let Some(other) = pair.other(literal) else {
        return Visit::Gone;
    };
    let watch = Watch {
        blocker: other,
        ..watch
    };
    if trail.is_true(other) {
        return Visit::Keep(watch);
    }
    let Some(clause) = clause_at(clauses, watch.number) else {
        return Visit::Gone;
    };
    // The clause watches a literal even where that is true: a true literal is seldom made false soon after, and the
    // clause then stands in no list that is worked.
    if let Some(first) = open_literal(&spares(pair.others), trail, other) {
        return Visit::Move(Pair {
            first,
            second: other,
            others: exchanged(pair.others, first, literal),
        });
    }
    if pair.others.is_whole {
        return forced(trail, watch);
    }
    match open_literal(clause, trail, other) {
        Some(first) => Visit::Move(Pair {
            first,
            second: other,
            others: pair.others,
        }),
        None => forced(trail, watch),
    }
}
