// The formulas that look for an open path of a window.
ghost use Rattle.std.specs.Prelude.{◌≡◌, IfOk, IfErr};
ghost use Rattle.gates_theory.specs.Sizes.{IsTooLarge};
ghost use Rattle.clauses.specs.declared.flat.CnfFault.{CnfFault};
ghost use Rattle.joint_theory.specs.Queries as spec;
ghost use Rattle.joint_theory.specs.Queries.{base_variables, induction_variables, joint_circuit};
ghost use Rattle.run_terms.specs.Automata.{TestsSignals};

use crate::facts::circuit_is_sound;
use crate::product::Product;
use crate::starts::start_literals;
use clauses::{Cnf, CnfFault};
use gates_theory::Circuit;
use psl_base::NoMemory;
use run_formulas::{base, induction};
use std::alloc::Global;

/// An initial state, and a bad one among so many positions as the window.
pub(crate) fn base_of(
    alloc: Global,
    product: Product<'_>,
    circuit: &Circuit,
    window: u32,
) -> Result<Cnf, CnfFault>
    requires tests { TestsSignals product.netlist.now product.violation.now }
    requires circuit { circuit.now ≡ joint_circuit product.netlist.now product.violation.now product.visits }
    ensures variables { IfOk result (λ cnf. cnf.variables
        ≡ base_variables product.entry.netlist.now product.entry.violation.now product.entry.visits window) }
    ensures clauses { IfOk result (λ cnf. cnf.clauses
        ≡ spec.base product.entry.netlist.now product.entry.violation.now product.entry.visits window) }
    ensures large { IfErr result (λ fault. fault ≡ CnfFault.TooLarge → IsTooLarge
        (base_variables product.entry.netlist.now product.entry.violation.now product.entry.visits window)
        (spec.base product.entry.netlist.now product.entry.violation.now product.entry.visits window)) }
{
    circuit_is_sound(product, circuit);
    let bad = product.bad_variable();
    let start = match start_literals(alloc, product) {
        Ok(start) => start,
        Err(NoMemory) => return Err(CnfFault::NoMemory),
    };
    match base(alloc, circuit, start.as_slice(), bad, window) {
        Ok(cnf) => Ok(cnf),
        Err(fault) => Err(fault),
    }
}

/// So many different states as the window that are not bad, and then a bad one.
pub(crate) fn induction_of(
    alloc: Global,
    product: Product<'_>,
    circuit: &Circuit,
    window: u32,
) -> Result<Cnf, CnfFault>
    requires tests { TestsSignals product.netlist.now product.violation.now }
    requires circuit { circuit.now ≡ joint_circuit product.netlist.now product.violation.now product.visits }
    ensures variables { IfOk result (λ cnf. cnf.variables
        ≡ induction_variables product.entry.netlist.now product.entry.violation.now product.entry.visits window) }
    ensures clauses { IfOk result (λ cnf. cnf.clauses
        ≡ spec.induction product.entry.netlist.now product.entry.violation.now product.entry.visits window) }
    ensures large { IfErr result (λ fault. fault ≡ CnfFault.TooLarge → IsTooLarge
        (induction_variables product.entry.netlist.now product.entry.violation.now product.entry.visits window)
        (spec.induction product.entry.netlist.now product.entry.violation.now product.entry.visits window)) }
{
    circuit_is_sound(product, circuit);
    let bad = product.bad_variable();
    match induction(alloc, circuit, bad, window) {
        Ok(cnf) => Ok(cnf),
        Err(fault) => Err(fault),
    }
}
