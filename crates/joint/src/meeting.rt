// What is asked of the bits of joint states, as clauses.
ghost use Rattle.std.specs.Prelude.{◌≡◌, ◌≤◌, ◌∷◌, [], map, neg_ℤ, IfOk, IsTrue};
ghost use Rattle.gates_theory.specs.Unrolled.{units};
ghost use Rattle.clauses.specs.declared.flat.TheConstants.{MOST_VARIABLES};
ghost use Rattle.clauses.specs.Literals.{clause_within, clauses_within};
ghost use Rattle.joint_theory.specs.Queries as queries;
ghost use Rattle.joint_theory.specs.Reaching as spec;
ghost use Rattle.run_formulas.specs.Adding.{Adds};
ghost use Rattle.run_terms.specs.Automata.{TestsSignals};

use crate::product::Product;
use crate::starts::start_literals;
use clauses::{Clauses, Cnf, CnfFault};
use gates_theory::Literals;
use netlist::soundness_law;
use psl_base::NoMemory;
use run_formulas::{add_clause, add_units};
use run_gates::{automaton_law, negated};
use std::alloc::Global;

/// All of some clauses are met.
pub(crate) fn add_met_clauses(cnf: &mut Cnf, clauses: &Clauses) -> Result<(), CnfFault>
    requires { IsTrue (clauses_within cnf.old.variables clauses.now) }
    ensures { Adds cnf.old cnf.new clauses.now result }
{
    for place in 0..clauses.len() {
        add_clause(cnf, clauses.at(place))?;
    }
    Ok(())
}

// The negations of literals.
fn opposite(alloc: Global, literals: &[i32]) -> Result<Literals, NoMemory>
    requires { IsTrue (clause_within MOST_VARIABLES literals.now) }
    ensures { IfOk result (λ new. new ≡ map neg_ℤ literals.now) }
{
    let mut opposite = Literals::new(alloc);
    for i in 0..literals.len() {
        opposite.push(negated(literals[i]))?;
    }
    Ok(opposite)
}

/// Not all of a cube is met.
pub(crate) fn add_outside(alloc: Global, cnf: &mut Cnf, cube: &[i32]) -> Result<(), CnfFault>
    requires { IsTrue (clause_within cnf.old.variables cube.now) }
    ensures { Adds cnf.old cnf.new (map neg_ℤ cube.now ∷ []) result }
{
    let Ok(clause) = opposite(alloc, cube) else {
        return Err(CnfFault::NoMemory);
    };
    add_clause(cnf, clause.as_slice())
}

/// The first state is initial.
pub(crate) fn add_start(alloc: Global, cnf: &mut Cnf, product: Product<'_>) -> Result<(), CnfFault>
    requires tests { TestsSignals product.netlist.now product.violation.now }
    requires fits { product.width ≤ cnf.old.variables }
    ensures { Adds cnf.old cnf.new (units 0
        (queries.start_literals product.entry.netlist.now product.entry.violation.now product.entry.visits)) result }
{
    soundness_law(product.netlist);
    automaton_law(product.violation);
    let Ok(start) = start_literals(alloc, product) else {
        return Err(CnfFault::NoMemory);
    };
    add_units(cnf, 0, product.width, start.as_slice())
}

/// The first state is initial, where that is asked.
pub(crate) fn add_start_where(
    alloc: Global,
    cnf: &mut Cnf,
    product: Product<'_>,
    initial: bool,
) -> Result<(), CnfFault>
    requires tests { TestsSignals product.netlist.now product.violation.now }
    requires fits { product.width ≤ cnf.old.variables }
    ensures { Adds cnf.old cnf.new
        (spec.start_units product.entry.netlist.now product.entry.violation.now product.entry.visits initial) result }
{
    if initial {
        add_start(alloc, cnf, product)
    } else {
        Ok(())
    }
}
