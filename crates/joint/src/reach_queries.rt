// The formulas of reachability.
ghost use Rattle.std.specs.Prelude.{◌≡◌, ◌+◌, ◌-◌, ◌≤◌, ◌∷◌, [], ◌++◌, map, neg_ℤ, length, IfOk, IfErr, IsTrue};
ghost use Rattle.gates_theory.specs.Sizes.{IsTooLarge};
ghost use Rattle.gates_theory.specs.Unrolled.{units};
ghost use Rattle.clauses.specs.declared.flat.CnfFault.{CnfFault};
ghost use Rattle.clauses.specs.Literals.{clause_within, clauses_within};
ghost use Rattle.joint_selectors.specs.Missed.{some_missed};
ghost use Rattle.joint_theory.specs.Bits.{bad_bit};
ghost use Rattle.joint_theory.specs.Queries.{start_literals};
ghost use Rattle.joint_theory.specs.Reaching as spec;
ghost use Rattle.run_formulas.specs.Adding.{Adds};
ghost use Rattle.run_terms.specs.Automata.{TestsSignals};

use crate::found::{some_pair, some_state};
use crate::meeting::{add_met_clauses, add_outside, add_start, add_start_where};
use crate::missing::add_missed;
use crate::product::Product;
use clauses::{Clauses, Cnf, CnfFault};
use run_formulas::{add_clause, add_units};
use std::alloc::Global;

// A state is initial, and misses one of some clauses. The formula has a variable for each clause behind the others.
fn add_initial(
    alloc: Global,
    cnf: &mut Cnf,
    product: Product<'_>,
    clauses: &Clauses,
) -> Result<(), CnfFault>
    requires tests { TestsSignals product.netlist.now product.violation.now }
    requires within { IsTrue (clauses_within product.width clauses.now) }
    requires fits { product.width + length clauses.now ≤ cnf.old.variables }
    ensures { Adds cnf.old cnf.new
        (units 0 (start_literals product.entry.netlist.now product.entry.violation.now product.entry.visits)
        ++ some_missed 0 (cnf.old.variables - length clauses.now) clauses.now) result }
{
    let before = cnf.variables - clauses.len() as u32;
    add_start(alloc, cnf, product)?;
    add_missed(alloc, cnf, 0, product.width, before, clauses)
}

/// An initial state that misses one of some clauses.
pub(crate) fn initial_of(
    alloc: Global,
    product: Product<'_>,
    clauses: &Clauses,
) -> Result<Cnf, CnfFault>
    requires tests { TestsSignals product.netlist.now product.violation.now }
    requires within { IsTrue (clauses_within product.width clauses.now) }
    ensures variables { IfOk result (λ cnf. cnf.variables ≡ spec.initial_variables
        product.entry.netlist.now product.entry.violation.now product.entry.visits clauses.now) }
    ensures clauses { IfOk result (λ cnf. cnf.clauses ≡ spec.query_initial
        product.entry.netlist.now product.entry.violation.now product.entry.visits clauses.now) }
    ensures large { IfErr result (λ fault. fault ≡ CnfFault.TooLarge → IsTooLarge
        (spec.initial_variables product.entry.netlist.now product.entry.violation.now product.entry.visits clauses.now)
        (spec.query_initial product.entry.netlist.now product.entry.violation.now product.entry.visits clauses.now)) }
{
    let mut cnf = some_state(alloc, product, clauses.len())?;
    add_initial(alloc, &mut cnf, product, clauses)?;
    Ok(cnf)
}

// The first state meets all of some clauses, and the second misses one. The formula has a variable for each clause behind
// the others.
fn add_leaving(
    alloc: Global,
    cnf: &mut Cnf,
    product: Product<'_>,
    clauses: &Clauses,
) -> Result<(), CnfFault>
    requires within { IsTrue (clauses_within product.width clauses.now) }
    requires fits { product.width + product.width + length clauses.now ≤ cnf.old.variables }
    ensures { Adds cnf.old cnf.new (clauses.now
        ++ some_missed product.entry.width (cnf.old.variables - length clauses.now) clauses.now) result }
{
    let before = cnf.variables - clauses.len() as u32;
    add_met_clauses(cnf, clauses)?;
    add_missed(alloc, cnf, product.width, product.width, before, clauses)
}

/// A state that meets all of some clauses, and a neighbour that misses one.
pub(crate) fn step_of(
    alloc: Global,
    product: Product<'_>,
    clauses: &Clauses,
) -> Result<Cnf, CnfFault>
    requires tests { TestsSignals product.netlist.now product.violation.now }
    requires within { IsTrue (clauses_within product.width clauses.now) }
    ensures variables { IfOk result (λ cnf. cnf.variables ≡ spec.step_variables
        product.entry.netlist.now product.entry.violation.now product.entry.visits clauses.now) }
    ensures clauses { IfOk result (λ cnf. cnf.clauses ≡ spec.query_step
        product.entry.netlist.now product.entry.violation.now product.entry.visits clauses.now) }
    ensures large { IfErr result (λ fault. fault ≡ CnfFault.TooLarge → IsTooLarge
        (spec.step_variables product.entry.netlist.now product.entry.violation.now product.entry.visits clauses.now)
        (spec.query_step product.entry.netlist.now product.entry.violation.now product.entry.visits clauses.now)) }
{
    let mut cnf = some_pair(alloc, product, clauses.len())?;
    add_leaving(alloc, &mut cnf, product, clauses)?;
    Ok(cnf)
}

// A state meets all of some clauses, and is bad.
fn add_bad(cnf: &mut Cnf, product: Product<'_>, clauses: &Clauses) -> Result<(), CnfFault>
    requires within { IsTrue (clauses_within product.width clauses.now) }
    requires fits { product.width ≤ cnf.old.variables }
    ensures { Adds cnf.old cnf.new (clauses.now
        ++ (bad_bit product.entry.netlist.now product.entry.violation.now product.entry.visits ∷ []) ∷ []) result }
{
    add_met_clauses(cnf, clauses)?;
    add_clause(cnf, &[product.bad()])
}

/// A bad state that meets all of some clauses.
pub(crate) fn bad_of(
    alloc: Global,
    product: Product<'_>,
    clauses: &Clauses,
) -> Result<Cnf, CnfFault>
    requires tests { TestsSignals product.netlist.now product.violation.now }
    requires within { IsTrue (clauses_within product.width clauses.now) }
    ensures variables { IfOk result (λ cnf. cnf.variables ≡ spec.bad_variables
        product.entry.netlist.now product.entry.violation.now product.entry.visits) }
    ensures clauses { IfOk result (λ cnf. cnf.clauses ≡ spec.query_bad
        product.entry.netlist.now product.entry.violation.now product.entry.visits clauses.now) }
    ensures large { IfErr result (λ fault. fault ≡ CnfFault.TooLarge → IsTooLarge
        (spec.bad_variables product.entry.netlist.now product.entry.violation.now product.entry.visits)
        (spec.query_bad product.entry.netlist.now product.entry.violation.now product.entry.visits clauses.now)) }
{
    let mut cnf = some_state(alloc, product, 0)?;
    add_bad(&mut cnf, product, clauses)?;
    Ok(cnf)
}

// The first state meets all clauses of a frame and is outside a cube.
fn add_leading(
    alloc: Global,
    cnf: &mut Cnf,
    product: Product<'_>,
    frame: &Clauses,
    cube: &[i32],
) -> Result<(), CnfFault>
    requires frame { IsTrue (clauses_within product.width frame.now) }
    requires cube { IsTrue (clause_within product.width cube.now) }
    requires fits { product.width ≤ cnf.old.variables }
    ensures { Adds cnf.old cnf.new (frame.now ++ (map neg_ℤ cube.now ∷ [])) result }
{
    add_met_clauses(cnf, frame)?;
    add_outside(alloc, cnf, cube)
}

// The second state is in a cube, and the first is initial where that is asked.
fn add_entered(
    alloc: Global,
    cnf: &mut Cnf,
    product: Product<'_>,
    initial: bool,
    cube: &[i32],
) -> Result<(), CnfFault>
    requires tests { TestsSignals product.netlist.now product.violation.now }
    requires cube { IsTrue (clause_within product.width cube.now) }
    requires fits { product.width + product.width ≤ cnf.old.variables }
    ensures { Adds cnf.old cnf.new (units product.entry.width cube.now
        ++ spec.start_units product.entry.netlist.now product.entry.violation.now product.entry.visits initial) result }
{
    add_units(cnf, product.width, product.width, cube)?;
    add_start_where(alloc, cnf, product, initial)
}

/// A state that meets all clauses of a frame and is outside a cube, and is initial where that is asked, and a neighbour in
/// the cube.
pub(crate) fn relative_of(
    alloc: Global,
    product: Product<'_>,
    frame: &Clauses,
    initial: bool,
    cube: &[i32],
) -> Result<Cnf, CnfFault>
    requires tests { TestsSignals product.netlist.now product.violation.now }
    requires frame { IsTrue (clauses_within product.width frame.now) }
    requires cube { IsTrue (clause_within product.width cube.now) }
    ensures variables { IfOk result (λ cnf. cnf.variables ≡ spec.relative_variables
        product.entry.netlist.now product.entry.violation.now product.entry.visits) }
    ensures clauses { IfOk result (λ cnf. cnf.clauses ≡ spec.query_relative
        product.entry.netlist.now product.entry.violation.now product.entry.visits frame.now initial cube.now) }
    ensures large { IfErr result (λ fault. fault ≡ CnfFault.TooLarge → IsTooLarge
        (spec.relative_variables product.entry.netlist.now product.entry.violation.now product.entry.visits)
        (spec.query_relative product.entry.netlist.now product.entry.violation.now product.entry.visits
        frame.now initial cube.now)) }
{
    let mut cnf = some_pair(alloc, product, 0)?;
    add_leading(alloc, &mut cnf, product, frame, cube)?;
    add_entered(alloc, &mut cnf, product, initial, cube)?;
    Ok(cnf)
}
