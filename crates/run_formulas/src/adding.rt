// Clauses that are added to a formula.
ghost use Rattle.std.specs.Prelude.{◌≡◌, ◌+◌, ◌*◌, ◌<◌, ◌≤◌, pos, [], ◌∷◌, map, IsTrue};
ghost use Rattle.std.specs.List.{range_with_len};
ghost use Rattle.clauses.specs.Literals.{clause_within, is_within};
ghost use Rattle.gates_theory.specs.Unrolled.{moved as higher, units};
ghost use Rattle.run_formulas.specs.Adding.{Adds};

use crate::moved;
use clauses::{Cnf, CnfFault};
use gates_theory::Literals;
use std::alloc::Global;

/// A clause.
pub fn add_clause(cnf: &mut Cnf, clause: &[i32]) -> Result<(), CnfFault>
    requires { IsTrue (clause_within cnf.old.variables clause.now) }
    ensures { Adds cnf.old cnf.new (clause.now ∷ []) result }
{
    cnf.push(clause)
}

/// A literal is true.
pub(crate) fn add_unit(cnf: &mut Cnf, literal: i32) -> Result<(), CnfFault>
    requires { IsTrue (is_within cnf.old.variables literal) }
    ensures { Adds cnf.old cnf.new ((literal ∷ []) ∷ []) result }
{
    cnf.push(&[literal])
}

/// Literals are true, of variables that are so much higher.
pub fn add_units(cnf: &mut Cnf, base: u32, variables: u32, literals: &[i32]) -> Result<(), CnfFault>
    requires within { IsTrue (clause_within variables literals.now) }
    requires fits { base + variables ≤ cnf.old.variables }
    ensures { Adds cnf.old cnf.new (units base literals.now) result }
{
    for i in 0..literals.len() {
        add_unit(cnf, moved(base, literals[i]))?;
    }
    Ok(())
}

/// A variable is true at one of the first so many positions, each of which has so many variables.
pub fn add_somewhere(
    alloc: Global,
    cnf: &mut Cnf,
    size: u32,
    positions: u32,
    variable: u32,
) -> Result<(), CnfFault>
    requires some { 0 < variable }
    requires variable { variable ≤ size }
    requires fits { positions * size ≤ cnf.old.variables }
    ensures { Adds cnf.old cnf.new
        (map (λ position. higher (position * size) (pos variable)) (range_with_len 0 positions) ∷ []) result }
{
    let mut literals = Literals::new(alloc);
    for position in 0..positions {
        let literal = (position * size + variable) as i32;
        literals.push(literal)?;
    }
    cnf.push(literals.as_slice())
}
