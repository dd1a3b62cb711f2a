// The circuits of a joint state without a next one, and of a joint state and a neighbour: they have one position.
ghost use Rattle.std.specs.Prelude.{◌≡◌, ◌+◌, ◌<◌, ◌≤◌, ◌++◌, [], length, IfOk, IfErr};
ghost use Rattle.alternating_theory.specs.Atoms.{AtomsOfObligations};
ghost use Rattle.gates_theory.specs.Relations as relations;
ghost use Rattle.clauses.specs.declared.flat.CnfFault.{CnfFault};
ghost use Rattle.clauses.specs.declared.flat.TheConstants.{MOST_VARIABLES};
ghost use Rattle.joint_theory.specs.Bits.{joint_width};
ghost use Rattle.joint_theory.specs.Reaching as spec;
ghost use Rattle.joint_theory.specs.Relation.{state_terms, step_terms};
ghost use Rattle.run_gates.specs.Building.{BuildsAll};

use crate::product::Product;
use crate::state::add_state;
use crate::step::add_step;
use clauses::CnfFault;
use gates_theory::{Circuit, Literals};
use run_gates::{Builder, Held};
use std::alloc::Global;

/// A circuit that has no state bits, so that nothing ties a position to a next one.
pub(crate) fn without_next(alloc: Global, gates: Builder, held: Held) -> Circuit
    ensures gates { result.gates ≡ gates }
    ensures now { result.now ≡ [] }
    ensures next { result.next ≡ [] }
    ensures hold { result.hold ≡ held.literals }
{
    Circuit {
        now: Literals::new(alloc),
        next: Literals::new(alloc),
        gates: gates.into_gates(),
        hold: held.into_literals(),
    }
}

/// The circuit of a joint state.
pub(crate) fn one_state(alloc: Global, product: Product<'_>) -> Result<Circuit, CnfFault>
    ensures is { IfOk result (λ circuit. circuit ≡ relations.circuit_of
        (spec.one_state product.entry.netlist.now product.entry.violation.now product.entry.visits)) }
    ensures few { IfOk result (λ circuit. length circuit.gates ≤ MOST_VARIABLES) }
    ensures large { IfErr result (λ fault. fault ≡ CnfFault.TooLarge → MOST_VARIABLES
        < spec.one_size product.entry.netlist.now product.entry.violation.now product.entry.visits) }
{
    let mut gates = Builder::new(alloc);
    let mut held = Held::new(alloc);
    gates.free(product.width)?;
    add_state(&mut gates, &mut held, product, 0)?;
    Ok(without_next(alloc, gates, held))
}

// The bits are those of a joint state, and as many behind them those of one that may follow it.
fn add_pair(
    alloc: Global,
    gates: &mut Builder,
    held: &mut Held,
    product: Product<'_>,
) -> Result<(), CnfFault>
    requires { AtomsOfObligations (λ atom. atom.signal < product.netlist.now.signals) product.violation.now.obligations }
    ensures { BuildsAll gates.old gates.new held.old held.new
        (state_terms product.entry.netlist.now product.entry.violation.now product.entry.visits 0
        ++ state_terms product.entry.netlist.now product.entry.violation.now product.entry.visits product.entry.width
        ++ step_terms product.entry.netlist.now product.entry.violation.now product.entry.visits product.entry.width)
        result }
{
    add_state(gates, held, product, 0)?;
    add_state(gates, held, product, product.width)?;
    add_step(alloc, gates, held, product)
}

/// The circuit of a joint state and a neighbour of it.
pub(crate) fn two_states(alloc: Global, product: Product<'_>) -> Result<Circuit, CnfFault>
    requires { AtomsOfObligations (λ atom. atom.signal < product.netlist.now.signals) product.violation.now.obligations }
    ensures is { IfOk result (λ circuit. circuit ≡ relations.circuit_of
        (spec.two_states product.entry.netlist.now product.entry.violation.now product.entry.visits)) }
    ensures few { IfOk result (λ circuit. length circuit.gates ≤ MOST_VARIABLES) }
    ensures large { IfErr result (λ fault. fault ≡ CnfFault.TooLarge → MOST_VARIABLES
        < spec.two_size product.entry.netlist.now product.entry.violation.now product.entry.visits) }
{
    let width = product.width;
    let mut gates = Builder::new(alloc);
    let mut held = Held::new(alloc);
    gates.free(width + width + 1)?;
    add_pair(alloc, &mut gates, &mut held, product)?;
    Ok(without_next(alloc, gates, held))
}
