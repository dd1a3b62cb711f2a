// The clauses of a formula are taken over.
ghost use Rattle.std.specs.Prelude.{◌≡◌, ◌≢◌, ◌*◌, ◌<◌, ◌≤◌, map, IsTrue, IfOk, OnOk, IfSome, IfNone};
ghost use Rattle.std.specs.List.{All, Contains};
ghost use Rattle.clauses.specs.declared.flat.TheConstants.{MOST_VARIABLES};
ghost use Rattle.clauses.specs.Literals.{clause_within};
ghost use Rattle.cdcl_trail.specs.Literals.{signed as signed_of};
ghost use Rattle.cdcl.specs.Loading.{nothing_yet, IsLoaded, CanAdd, AddsUnlessFalse};

use cdcl_propagation::Propagator;
use cdcl_trail::{number_of, opposite};
use clauses::Cnf;
use psl_base::NoMemory;
use std::alloc::Global;

/// Adds the clauses of a formula, up to the first that is false by clauses of one literal before it. It gives the place
/// of that one, counted from 0.
pub(crate) fn load(
    alloc: Global,
    cnf: &Cnf,
    propagator: &mut Propagator,
) -> Result<Option<usize>, NoMemory>
    requires { propagator.old ≡ nothing_yet cnf.now.variables }
    ensures { IfOk result (IsLoaded cnf.now propagator.new) }
{
    let _few = cnf.clauses.words();
    let mut clause = Vec::new(alloc);
    for place in 0..cnf.clauses.len() {
        read_literals(&mut clause, cnf.clauses.at(place), cnf.variables)?;
        if !add_clause(propagator, &clause)? {
            return Ok(Some(place));
        }
    }
    Ok(None)
}

/// Reads the literals of a clause as numbers.
///
/// # Errors
///
/// `NoMemory` if memory is refused.
pub fn read_literals(numbers: &mut Vec<u32>, clause: &[i32], variables: u32) -> Result<(), NoMemory>
    requires within { IsTrue (clause_within variables clause.now) }
    requires few { variables ≤ MOST_VARIABLES }
    ensures is { OnOk result (map signed_of numbers.new.items ≡ clause.now) }
    ensures below { OnOk result (All (λ literal. literal < 2 * variables) numbers.new.items) }
{
    numbers.clear();
    for literal in clause {
        numbers.push(number_of(*literal))?;
    }
    Ok(())
}

/// Adds a clause before anything is propagated or decided, unless it is false: whether it was added.
fn add_clause(propagator: &mut Propagator, clause: &[u32]) -> Result<bool, NoMemory>
    requires { CanAdd propagator.old clause.now }
    ensures { IfOk result (λ added. AddsUnlessFalse propagator.old clause.now added propagator.new) }
{
    let [first, ..] = clause else {
        return Ok(false);
    };
    match other_literal(clause, *first) {
        Some(second) => propagator.attach(clause, *first, second)?,
        None if propagator.trail().is_true(opposite(*first)) => return Ok(false),
        None => propagator.attach_unit(clause, *first)?,
    }
    Ok(true)
}

/// A literal of a clause that differs from this one.
pub fn other_literal(clause: &[u32], literal: u32) -> Option<u32>
    ensures some { IfSome result (λ other. Contains clause.now other × (literal ≢ other)) }
    ensures none { IfNone result (All (λ other. other ≡ literal) clause.now) }
{
    for other in clause {
        if *other != literal {
            return Some(*other);
        }
    }
    None
}
