// A solver whose clauses grow.
ghost use Rattle.std.specs.Prelude.{◌≤◌, IsTrue};
ghost use Rattle.clauses.specs.Literals.{clause_within};
ghost use Rattle.clauses.specs.declared.flat.TheConstants.{MOST_VARIABLES};

use cdcl_incremental::Growing;
use clauses::{Clauses, Cnf, CnfFault, MOST_VARIABLES};
use psl_base::NoMemory;
use std::alloc::Global;

// A solver has room for at least so many variables more when it begins. Where they do not suffice, another one begins,
// and what was learned is lost.
const LEAST_ROOM: u32 = 50_000;

/// A solver of no clause over so many variables, with room for as many again.
pub(crate) fn empty(alloc: Global, variables: u32) -> Result<Growing, NoMemory>
    requires { variables ≤ MOST_VARIABLES }
{
    let room = variables.max(LEAST_ROOM).min(MOST_VARIABLES - variables);
    Growing::new(alloc, &Cnf::new(alloc, variables), room)
}

/// Opens variables until there are so many: whether there was room for them.
pub(crate) fn open_all(growing: &mut Growing, variables: u32) -> bool {
    for _opened in growing.variables()..variables {
        if growing.open().is_none() {
            return false;
        }
    }
    true
}

/// Adds clauses.
pub(crate) fn add_all(
    alloc: Global,
    growing: &mut Growing,
    clauses: &Clauses,
) -> Result<(), CnfFault> {
    for place in 0..clauses.len() {
        add(alloc, growing, clauses.at(place))?;
    }
    Ok(())
}

/// Adds a clause. That its literals are of variables that there are is looked at here, and proved nowhere.
pub(crate) fn add(alloc: Global, growing: &mut Growing, clause: &[i32]) -> Result<(), CnfFault> {
    if !are_within(growing.variables(), clause) {
        return Err(CnfFault::TooLarge);
    }
    growing.add(alloc, clause)
}

/// Whether literals are of so many variables.
pub(crate) fn are_within(variables: u32, literals: &[i32]) -> bool
    ensures { IsTrue result → IsTrue (clause_within variables literals.now) }
{
    for literal in literals {
        if *literal == 0 || literal.unsigned_abs() > variables {
            return false;
        }
    }
    true
}
