// The formulas of a window.
ghost use Rattle.std.specs.Prelude.{◌≡◌, ◌+◌, ◌*◌, ◌^◌, ◌<◌, ◌≤◌, [], ◌∷◌, suc, neg_ℤ, length, IfOk, IfErr, IsTrue};
ghost use Rattle.clauses.specs.declared.flat.CnfFault.{CnfFault};
ghost use Rattle.clauses.specs.declared.flat.TheConstants.{MOST_VARIABLES};
ghost use Rattle.clauses.specs.Literals.{clause_within, variable_of};
ghost use Rattle.gates_theory.specs.Circuits.{IsSound};
ghost use Rattle.gates_theory.specs.Sizes.{IsTooLarge};
ghost use Rattle.run_formulas.specs.Adding.{Adds};
ghost use Rattle.run_formulas.specs.Windows as spec;
ghost use Rattle.run_formulas.specs.Windows.{bad_at, base_variables, good_clauses, induction_variables};

use crate::adding::{add_clause, add_somewhere, add_unit, add_units};
use crate::held::held_to;
use clauses::{Cnf, CnfFault};
use gates::distinct;
use gates_theory::Circuit;
use std::alloc::Global;

/// An initial state, of which these literals are true, and a bad one among so many positions as the window. The variable
/// of a position says that the state there is bad.
///
/// # Errors
///
/// `TooLarge` only where there would be too many variables or words, and `NoMemory` if memory is refused.
pub fn base(
    alloc: Global,
    circuit: &Circuit,
    start: &[i32],
    bad: u32,
    window: u32,
) -> Result<Cnf, CnfFault>
    requires sound { IsSound circuit.now }
    requires some { 0 < bad }
    requires few { bad ≤ length circuit.now.gates }
    requires start { IsTrue (clause_within (length circuit.now.gates) start.now) }
    ensures variables { IfOk result (λ cnf. cnf.variables ≡ base_variables circuit.entry.now window) }
    ensures clauses { IfOk result (λ cnf. cnf.clauses ≡ spec.base circuit.entry.now start.now bad window) }
    ensures large { IfErr result (λ fault. fault ≡ CnfFault.TooLarge
        → IsTooLarge (base_variables circuit.entry.now window) (spec.base circuit.entry.now start.now bad window)) }
{
    match window.checked_sub(1) {
        None => never(alloc),
        Some(last) => base_to(alloc, circuit, start, bad, last),
    }
}

/// A formula that has no model.
fn never(alloc: Global) -> Result<Cnf, CnfFault>
    ensures variables { IfOk result (λ cnf. cnf.variables ≡ 0) }
    ensures clauses { IfOk result (λ cnf. cnf.clauses ≡ [] ∷ []) }
    ensures large { IfErr result (λ fault. fault ≡ CnfFault.TooLarge → ⊥) }
{
    let mut cnf = Cnf::new(alloc, 0);
    add_clause(&mut cnf, &[])?;
    Ok(cnf)
}

/// The same up to a last position.
fn base_to(
    alloc: Global,
    circuit: &Circuit,
    start: &[i32],
    bad: u32,
    last: u32,
) -> Result<Cnf, CnfFault>
    requires sound { IsSound circuit.now }
    requires some { 0 < bad }
    requires few { bad ≤ length circuit.now.gates }
    requires window { last + 1 < 2 ^ 32 }
    requires start { IsTrue (clause_within (length circuit.now.gates) start.now) }
    ensures variables { IfOk result (λ cnf. cnf.variables ≡ base_variables circuit.entry.now (suc last)) }
    ensures clauses { IfOk result (λ cnf. cnf.clauses ≡ spec.base circuit.entry.now start.now bad (suc last)) }
    ensures large { IfErr result (λ fault. fault ≡ CnfFault.TooLarge
        → IsTooLarge (base_variables circuit.entry.now (suc last)) (spec.base circuit.entry.now start.now bad (suc last))) }
{
    let mut cnf = held_to(alloc, circuit, last)?;
    let size = circuit.gates.len() as u32;
    add_units(&mut cnf, 0, size, start)?;
    add_somewhere(alloc, &mut cnf, size, last + 1, bad)?;
    Ok(cnf)
}

/// The state is bad at a position.
fn bad_literal(size: u32, bad: u32, position: u32) -> i32
    requires some { 0 < bad }
    requires fits { position * size + bad ≤ MOST_VARIABLES }
    ensures is { result ≡ bad_at size bad position }
    ensures few { variable_of result ≡ position * size + bad }
{
    (position * size + bad) as i32
}

/// The state is not bad at a position.
fn good_literal(size: u32, bad: u32, position: u32) -> i32
    requires some { 0 < bad }
    requires fits { position * size + bad ≤ MOST_VARIABLES }
    ensures is { result ≡ neg_ℤ (bad_at size bad position) }
    ensures few { variable_of result ≡ position * size + bad }
{
    -((position * size + bad) as i32)
}

/// The states at so many positions are not bad, each of which has so many variables.
fn add_good(cnf: &mut Cnf, size: u32, bad: u32, window: u32) -> Result<(), CnfFault>
    requires some { 0 < bad }
    requires few { bad ≤ size }
    requires fits { window * size ≤ cnf.old.variables }
    ensures { Adds cnf.old cnf.new (good_clauses size bad window) result }
{
    for position in 0..window {
        add_unit(cnf, good_literal(size, bad, position))?;
    }
    Ok(())
}

/// So many different states as the window that are not bad, and then a bad one. The variable of a position says that the
/// state there is bad.
///
/// # Errors
///
/// `TooLarge` only where there would be too many variables or words, and `NoMemory` if memory is refused.
pub fn induction(alloc: Global, circuit: &Circuit, bad: u32, window: u32) -> Result<Cnf, CnfFault>
    requires sound { IsSound circuit.now }
    requires some { 0 < bad }
    requires few { bad ≤ length circuit.now.gates }
    ensures variables { IfOk result (λ cnf. cnf.variables ≡ induction_variables circuit.entry.now window) }
    ensures clauses { IfOk result (λ cnf. cnf.clauses ≡ spec.induction circuit.entry.now bad window) }
    ensures large { IfErr result (λ fault. fault ≡ CnfFault.TooLarge
        → IsTooLarge (induction_variables circuit.entry.now window) (spec.induction circuit.entry.now bad window)) }
{
    let mut cnf = held_to(alloc, circuit, window)?;
    let size = circuit.gates.len() as u32;
    add_good(&mut cnf, size, bad, window)?;
    add_unit(&mut cnf, bad_literal(size, bad, window))?;
    distinct(alloc, circuit, window, &mut cnf)?;
    Ok(cnf)
}
