// Clauses that say that some clause of a list is missed.
ghost use Rattle.std.specs.Prelude.{◌≡◌, ◌+◌, ◌<◌, ◌≤◌, negsuc, neg_ℤ, length, IsTrue};
ghost use Rattle.clauses.specs.declared.flat.TheConstants.{MOST_VARIABLES};
ghost use Rattle.clauses.specs.Literals.{clause_within, clauses_within, is_within};
ghost use Rattle.gates_theory.specs.Unrolled.{moved as higher};
ghost use Rattle.run_formulas.specs.Adding.{Adds};
ghost use Rattle.joint_selectors.specs.Missed as spec;

use clauses::{Clauses, Cnf, CnfFault};
use run_formulas::{add_clause, following, moved};
use std::alloc::Global;

/// The variable behind so many is false.
fn unselected(before: u32) -> i32
    requires { before < MOST_VARIABLES }
    ensures { result ≡ negsuc before }
{
    -((before + 1) as i32)
}

/// The negation of a literal of a variable that is so much higher.
fn moved_negation(base: u32, literal: i32) -> i32
    requires { IsTrue (is_within MOST_VARIABLES (higher base literal)) }
    ensures { result ≡ neg_ℤ (higher base literal) }
{
    -moved(base, literal)
}

/// The variable behind so many is true only where a clause is missed.
fn add_missed_clause(
    cnf: &mut Cnf,
    base: u32,
    size: u32,
    before: u32,
    clause: &[i32],
) -> Result<(), CnfFault>
    requires within { IsTrue (clause_within size clause.now) }
    requires fits { base + size ≤ cnf.old.variables }
    requires selector { before < cnf.old.variables }
    ensures { Adds cnf.old cnf.new (spec.missed base before clause.now) result }
{
    let selector = unselected(before);
    for i in 0..clause.len() {
        add_clause(cnf, &[selector, moved_negation(base, clause[i])])?;
    }
    Ok(())
}

/// Each of the variables behind so many is true only where its clause is missed.
fn add_each_missed(
    cnf: &mut Cnf,
    base: u32,
    size: u32,
    before: u32,
    clauses: &Clauses,
) -> Result<(), CnfFault>
    requires within { IsTrue (clauses_within size clauses.now) }
    requires fits { base + size ≤ cnf.old.variables }
    requires selectors { before + length clauses.now ≤ cnf.old.variables }
    ensures { Adds cnf.old cnf.new (spec.each_missed base before clauses.now) result }
{
    for place in 0..clauses.len() {
        add_missed_clause(cnf, base, size, before + place as u32, clauses.at(place))?;
    }
    Ok(())
}

/// Some clause of a list is missed, whose literals are of so many variables, and are moved so much higher. A selector for
/// each clause follows the variables before. The formula's variables count them already.
///
/// # Errors
///
/// `TooLarge` only where there would be too many words, and `NoMemory` if memory is refused.
pub(crate) fn add_missed(
    alloc: Global,
    cnf: &mut Cnf,
    base: u32,
    size: u32,
    before: u32,
    clauses: &Clauses,
) -> Result<(), CnfFault>
    requires within { IsTrue (clauses_within size clauses.now) }
    requires fits { base + size ≤ cnf.old.variables }
    requires selectors { before + length clauses.now ≤ cnf.old.variables }
    ensures { Adds cnf.old cnf.new (spec.some_missed base before clauses.now) result }
{
    add_each_missed(cnf, base, size, before, clauses)?;
    let Ok(selectors) = following(alloc, before, clauses.len() as u32) else {
        return Err(CnfFault::NoMemory);
    };
    add_clause(cnf, selectors.as_slice())
}
