// The circuit of the joint states.
ghost use Rattle.std.specs.Prelude.{◌≡◌, ◌+◌, ◌<◌, ◌≤◌, length, IfOk, IfErr};
ghost use Rattle.alternating_theory.specs.Atoms.{AtomsOfObligations};
ghost use Rattle.gates_theory.specs.Distinct as distinct;
ghost use Rattle.clauses.specs.declared.flat.CnfFault.{CnfFault};
ghost use Rattle.clauses.specs.declared.flat.TheConstants.{MOST_VARIABLES};
ghost use Rattle.joint_theory.specs.Queries as spec;

use crate::product::Product;
use crate::state::add_state;
use crate::step::add_step;
use clauses::CnfFault;
use gates_theory::Circuit;
use psl_base::NoMemory;
use run_formulas::following;
use run_gates::{Builder, Held, negated};
use std::alloc::Global;

// A circuit whose state bits are its first gates, and as many behind them those of the next state.
fn with_bits(alloc: Global, width: u32, gates: Builder, held: Held) -> Result<Circuit, NoMemory>
    requires { width + width ≤ MOST_VARIABLES }
    ensures gates { IfOk result (λ circuit. circuit.gates ≡ gates) }
    ensures now { IfOk result (λ circuit. circuit.now ≡ distinct.following 0 width) }
    ensures next { IfOk result (λ circuit. circuit.next ≡ distinct.following width width) }
    ensures hold { IfOk result (λ circuit. circuit.hold ≡ held.literals) }
{
    Ok(Circuit {
        now: following(alloc, 0, width)?,
        next: following(alloc, width, width)?,
        gates: gates.into_gates(),
        hold: held.into_literals(),
    })
}

/// The circuit of the joint states.
pub(crate) fn circuit_of(alloc: Global, product: Product<'_>) -> Result<Circuit, CnfFault>
    requires { AtomsOfObligations (λ atom. atom.signal < product.netlist.now.signals) product.violation.now.obligations }
    ensures is { IfOk result (λ circuit. circuit
        ≡ spec.joint_circuit product.entry.netlist.now product.entry.violation.now product.entry.visits) }
    ensures few { IfOk result (λ circuit. length circuit.gates ≤ MOST_VARIABLES) }
    ensures large { IfErr result (λ fault. fault ≡ CnfFault.TooLarge → MOST_VARIABLES
        < spec.joint_size product.entry.netlist.now product.entry.violation.now product.entry.visits) }
{
    let width = product.width;
    let mut gates = Builder::new(alloc);
    let mut held = Held::new(alloc);
    gates.free(width + width + 1)?;
    add_state(&mut gates, &mut held, product, 0)?;
    held.guard(negated(product.bad()));
    add_step(alloc, &mut gates, &mut held, product)?;
    match with_bits(alloc, width, gates, held) {
        Ok(circuit) => Ok(circuit),
        Err(NoMemory) => Err(CnfFault::NoMemory),
    }
}
