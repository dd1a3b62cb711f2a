// Clauses that are added to a formula.
ghost use Rattle.std.specs.Prelude.{◌≡◌, [], ◌∷◌, IsTrue};
ghost use Rattle.clauses.specs.Literals.{clause_within, clauses_within, is_within};
ghost use Rattle.gates_theory.specs.Unrolled.{conjunction};
ghost use Rattle.gates_formula.specs.Adding.{Adds};

use clauses::{Clauses, Cnf, CnfFault};
use gates_builder::negated;

/// One clause.
pub fn add(cnf: &mut Cnf, clause: &[i32]) -> Result<(), CnfFault>
    requires { IsTrue (clause_within cnf.old.variables clause.now) }
    ensures { Adds cnf.old cnf.new (clause.now ∷ []) result }
{
    cnf.push(clause)
}

/// Clauses in their order.
pub fn add_all(cnf: &mut Cnf, clauses: &Clauses) -> Result<(), CnfFault>
    requires { IsTrue (clauses_within cnf.old.variables clauses.now) }
    ensures { Adds cnf.old cnf.new clauses.now result }
{
    for i in 0..clauses.len() {
        add(cnf, clauses.at(i))?;
    }
    Ok(())
}

/// A literal is the conjunction of two others.
pub fn add_conjunction(cnf: &mut Cnf, output: i32, first: i32, second: i32) -> Result<(), CnfFault>
    requires output { IsTrue (is_within cnf.old.variables output) }
    requires first { IsTrue (is_within cnf.old.variables first) }
    requires second { IsTrue (is_within cnf.old.variables second) }
    ensures { Adds cnf.old cnf.new (conjunction output first second) result }
{
    let neither = negated(output);
    add(cnf, &[neither, first])?;
    add(cnf, &[neither, second])?;
    add(cnf, &[output, negated(first), negated(second)])
}
