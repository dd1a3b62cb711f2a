// Clauses by which cubes imply a literal.
ghost use Rattle.std.specs.Prelude.{◌≡◌, ◌∷◌, neg_ℤ, map, IfOk, IsTrue};
ghost use Rattle.clauses.specs.declared.flat.TheConstants.{MOST_VARIABLES};
ghost use Rattle.clauses.specs.Literals.{clause_within, clauses_within, is_within};
ghost use Rattle.gates_nodes.specs.Clauses.{implied};
ghost use Rattle.gates_formula.specs.Adding.{Adds};

use crate::adding::add;
use clauses::{Cnf, CnfFault};
use gates_builder::negated;
use gates_theory::Literals;
use psl_base::NoMemory;
use std::alloc::Global;

/// For each of some cubes: where its literals are true, so is another literal.
pub fn add_implied(
    alloc: Global,
    cnf: &mut Cnf,
    literal: i32,
    cubes: &[Literals],
) -> Result<(), CnfFault>
    requires literal { IsTrue (is_within cnf.old.variables literal) }
    requires cubes { IsTrue (clauses_within cnf.old.variables cubes.now) }
    ensures { Adds cnf.old cnf.new (implied literal cubes.now) result }
{
    for cube in cubes {
        let clause = implication(alloc, literal, cube.as_slice())?;
        add(cnf, clause.as_slice())?;
    }
    Ok(())
}

// The clause that literals that are true together imply another one.
fn implication(alloc: Global, literal: i32, cube: &[i32]) -> Result<Literals, NoMemory>
    requires { IsTrue (clause_within MOST_VARIABLES cube.now) }
    ensures { IfOk result (λ clause. clause ≡ literal ∷ map neg_ℤ cube.now) }
{
    let mut clause = Literals::new(alloc);
    clause.push(literal)?;
    for i in 0..cube.len() {
        clause.push(negated(cube[i]))?;
    }
    Ok(clause)
}
