// A clause more. The trail is kept as far as the clause lets it be: questions that share what they assume go on from
// there. (Incremental lazy backtracking, in Introducing Intel SAT solver, 2022.)
ghost use Rattle.std.specs.Prelude.{◌≡◌, ◌∷◌, ◌++◌, ◌+◌, ◌*◌, ◌^◌, ◌-◌, ◌<◌, ◌≤◌, [], length, Some, IsTrue, IfOk, OnErr};
ghost use Rattle.std.specs.Bool.{OnTrue, OnFalse};
ghost use Rattle.std.specs.List.{All, Contains};
ghost use Rattle.clauses.specs.declared.flat.TheConstants.{MOST_VARIABLES};
ghost use Rattle.clauses.specs.Models.{Assignment};
ghost use Rattle.clauses.specs.Literals.{clause_within};
ghost use Rattle.clause_store.specs.Stored.{stored_words};
ghost use Rattle.cdcl_trail.specs.Literals.{opposite as opposite_of};
ghost use Rattle.cdcl_propagation.specs.Adding.{KeepsClauses};
ghost use Rattle.cdcl_incremental.specs.Standing.{AreMet, IsRest, IsStored, IsPut};

use crate::back::go_back_to;
use crate::watches::watches_of;
use cdcl::{Decider, other_literal, read_literals};
use cdcl_propagation::Propagator;
use cdcl_trail::{Trail, number_of, opposite};
use clause_store::{MOST_WORDS, Store};
use clauses::MOST_VARIABLES;
use psl_base::NoMemory;
use std::alloc::Global;

/// What became of a clause.
pub(crate) enum Stored {
    /// It was stored, or a part of it that says the same beside the other clauses.
    Clause,
    /// No assignment meets it beside the other clauses.
    Refuted,
    /// There is no room for it.
    Full,
}

/// Whether there is room for one clause more, of so many literals.
pub(crate) fn has_room(clauses: &Store, more: usize) -> bool
    ensures words { OnTrue result (stored_words clauses.now + more ≤ MOST_WORDS) }
    ensures numbers { OnTrue result (length clauses.now < 2 ^ 31 - 1) }
{
    let words = clauses.words();
    words <= MOST_WORDS
        && more <= (MOST_WORDS - words) as usize
        && clauses.len() < MOST_VARIABLES as usize
}

/// Goes back to the lowest level, and propagates there: whether a clause is false then.
fn is_refuted(propagator: &mut Propagator, decider: &mut Decider) -> Result<bool, NoMemory>
    ensures clauses { propagator.new.clauses ≡ propagator.old.clauses }
    ensures variables { propagator.new.path.variables ≡ propagator.old.path.variables }
    ensures lowest { propagator.new.path.limits ≡ [] }
    ensures refuted { IfOk result (λ refuted. OnTrue refuted
        ((values : Assignment) → AreMet values propagator.new.clauses → ⊥)) }
{
    go_back_to(propagator, decider, 0);
    match propagator.propagate()? {
        Some(_conflict) => {
            let _settled = propagator.trail();
            Ok(true)
        }
        None => Ok(false),
    }
}

/// Stores a clause at the highest level at which two literals of it are not false, to watch these, if there are any:
/// whether it did.
fn store_above(
    propagator: &mut Propagator,
    decider: &mut Decider,
    clause: &[u32],
) -> Result<bool, NoMemory>
    requires { All (λ literal. literal < 2 * propagator.old.path.variables) clause.now }
    ensures variables { propagator.new.path.variables ≡ propagator.old.path.variables }
    ensures stored { IfOk result (λ is_stored. OnTrue is_stored
        (propagator.new.clauses ≡ propagator.old.clauses ++ Some clause.now ∷ [])) }
    ensures not_stored { IfOk result (λ is_stored. OnFalse is_stored
        (propagator.new.clauses ≡ propagator.old.clauses)) }
    ensures err { OnErr result (KeepsClauses propagator.old.clauses propagator.new.clauses) }
{
    let Some(watches) = watches_of(propagator.trail(), clause) else {
        return Ok(false);
    };
    if watches.levels == 0 || !has_room(propagator.clauses(), clause.len()) {
        return Ok(false);
    }
    go_back_to(propagator, decider, watches.levels - 1);
    propagator.attach(clause, watches.first, watches.second)?;
    Ok(true)
}

/// Stores a clause: as it is, where two literals of it are not false at some level, or else without those that are
/// false at the lowest.
pub(crate) fn store(
    alloc: Global,
    propagator: &mut Propagator,
    decider: &mut Decider,
    clause: &[i32],
) -> Result<Stored, NoMemory>
    requires within { IsTrue (clause_within propagator.old.path.variables clause.now) }
    requires few { propagator.old.path.variables ≤ MOST_VARIABLES }
    ensures variables { propagator.new.path.variables ≡ propagator.old.path.variables }
    ensures stored { IfOk result (IsStored propagator.old.clauses clause.now propagator.new.clauses) }
    ensures err { OnErr result (KeepsClauses propagator.old.clauses propagator.new.clauses) }
{
    let variables = propagator.trail().places().len() as u32;
    let mut numbers = Vec::new(alloc);
    read_literals(&mut numbers, clause, variables)?;
    if store_above(propagator, decider, &numbers)? {
        return Ok(Stored::Clause);
    }
    if is_refuted(propagator, decider)? {
        return Ok(Stored::Refuted);
    }
    let rest = rest_of(alloc, propagator.trail(), clause)?;
    put(propagator, &rest)
}

/// The literals of a clause that are not false, or else one that is true.
fn rest_of(alloc: Global, trail: &Trail, clause: &[i32]) -> Result<Vec<u32>, NoMemory>
    requires within { IsTrue (clause_within trail.now.variables clause.now) }
    requires few { trail.now.variables ≤ MOST_VARIABLES }
    ensures { IfOk result (λ rest. IsRest trail.now.literals clause.now rest.items) }
{
    let _path = trail.literals();
    let mut rest = Vec::new(alloc);
    for literal in clause {
        let number = number_of(*literal);
        if trail.is_true(number) {
            rest.clear();
            rest.push(number)?;
            return Ok(rest);
        }
        if !trail.is_true(opposite(number)) {
            rest.push(number)?;
        }
    }
    Ok(rest)
}

/// Puts literals, of which none is false at the lowest level, among the clauses.
fn put(propagator: &mut Propagator, rest: &[u32]) -> Result<Stored, NoMemory>
    requires lowest { propagator.old.path.limits ≡ [] }
    requires within { All (λ literal. literal < 2 * propagator.old.path.variables) rest.now }
    requires not_false { All (λ literal. Contains propagator.old.path.literals (opposite_of literal) → ⊥) rest.now }
    ensures variables { propagator.new.path.variables ≡ propagator.old.path.variables }
    ensures put { IfOk result (IsPut propagator.old.clauses rest.now propagator.new.clauses) }
    ensures err { OnErr result (KeepsClauses propagator.old.clauses propagator.new.clauses) }
{
    let [first, ..] = rest else {
        return Ok(Stored::Refuted);
    };
    if !has_room(propagator.clauses(), rest.len()) {
        return Ok(Stored::Full);
    }
    match other_literal(rest, *first) {
        Some(second) => propagator.attach(rest, *first, second)?,
        None => propagator.attach_unit(rest, *first)?,
    }
    Ok(Stored::Clause)
}
