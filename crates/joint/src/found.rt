// The formulas of a joint state, and of a joint state and a neighbour, before anything is asked of them.
ghost use Rattle.std.specs.Prelude.{◌≡◌, ◌+◌, ◌<◌, ◌≤◌, length, IfOk, IfErr};
ghost use Rattle.gates_theory.specs.Circuits as circuits;
ghost use Rattle.gates_theory.specs.Sizes.{IsTooLarge};
ghost use Rattle.clauses.specs.declared.flat.CnfFault.{CnfFault};
ghost use Rattle.clauses.specs.declared.flat.TheConstants.{MOST_VARIABLES};
ghost use Rattle.joint_theory.specs.Reaching as spec;
ghost use Rattle.run_formulas.specs.Adding as adding;
ghost use Rattle.run_terms.specs.Automata.{TestsSignals};
ghost use Rattle.run_terms.specs.Formulas.{whole};

use crate::one_position::{one_state, two_states};
use crate::product::Product;
use clauses::{Cnf, CnfFault, MOST_VARIABLES};
use gates_theory::Circuit;
use netlist::soundness_law;
use run_formulas::held_to;
use run_gates::automaton_law;
use std::alloc::Global;

/// A circuit at one position, where it is held, and so many further variables.
fn alone(alloc: Global, circuit: &Circuit, further: usize) -> Result<Cnf, CnfFault>
    requires sound { circuits.IsSound circuit.now }
    requires some { 0 < length circuit.now.gates }
    requires few { length circuit.now.gates ≤ MOST_VARIABLES }
    ensures variables { IfOk result (λ cnf. cnf.variables ≡ length circuit.entry.now.gates + further) }
    ensures clauses { IfOk result (λ cnf. cnf.clauses ≡ adding.held_to circuit.entry.now 0) }
    ensures large { IfErr result (λ fault. fault ≡ CnfFault.TooLarge
        → IsTooLarge (length circuit.entry.now.gates + further) (adding.held_to circuit.entry.now 0)) }
{
    let gates = circuit.gates.len() as u32;
    if further > (MOST_VARIABLES - gates) as usize {
        return Err(CnfFault::TooLarge);
    }
    let mut cnf = held_to(alloc, circuit, 0)?;
    cnf.variables = gates + further as u32;
    Ok(cnf)
}

/// The formula of a joint state, with so many further variables.
pub(crate) fn some_state(
    alloc: Global,
    product: Product<'_>,
    further: usize,
) -> Result<Cnf, CnfFault>
    requires tests { TestsSignals product.netlist.now product.violation.now }
    ensures variables { IfOk result (λ cnf. cnf.variables
        ≡ spec.one_size product.entry.netlist.now product.entry.violation.now product.entry.visits + further) }
    ensures fits { IfOk result (λ cnf. product.entry.width + further ≤ cnf.variables) }
    ensures clauses { IfOk result (λ cnf. cnf.clauses
        ≡ whole (spec.one_state product.entry.netlist.now product.entry.violation.now product.entry.visits) 0) }
    ensures large { IfErr result (λ fault. fault ≡ CnfFault.TooLarge → IsTooLarge
        (spec.one_size product.entry.netlist.now product.entry.violation.now product.entry.visits + further)
        (whole (spec.one_state product.entry.netlist.now product.entry.violation.now product.entry.visits) 0)) }
{
    soundness_law(product.netlist);
    automaton_law(product.violation);
    let circuit = one_state(alloc, product)?;
    let cnf = alone(alloc, &circuit, further)?;
    Ok(cnf)
}

/// The formula of a joint state and a neighbour of it, with so many further variables.
pub(crate) fn some_pair(
    alloc: Global,
    product: Product<'_>,
    further: usize,
) -> Result<Cnf, CnfFault>
    requires tests { TestsSignals product.netlist.now product.violation.now }
    ensures variables { IfOk result (λ cnf. cnf.variables
        ≡ spec.two_size product.entry.netlist.now product.entry.violation.now product.entry.visits + further) }
    ensures fits { IfOk result (λ cnf. product.entry.width + product.entry.width + further ≤ cnf.variables) }
    ensures clauses { IfOk result (λ cnf. cnf.clauses
        ≡ whole (spec.two_states product.entry.netlist.now product.entry.violation.now product.entry.visits) 0) }
    ensures large { IfErr result (λ fault. fault ≡ CnfFault.TooLarge → IsTooLarge
        (spec.two_size product.entry.netlist.now product.entry.violation.now product.entry.visits + further)
        (whole (spec.two_states product.entry.netlist.now product.entry.violation.now product.entry.visits) 0)) }
{
    soundness_law(product.netlist);
    automaton_law(product.violation);
    let circuit = two_states(alloc, product)?;
    let cnf = alone(alloc, &circuit, further)?;
    Ok(cnf)
}
