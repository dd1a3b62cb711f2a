ghost use Rattle.std.specs.Prelude.{◌≡◌, ◌<◌, ◌≤◌, IfOk, IfErr};
ghost use Rattle.clauses.specs.declared.flat.CnfFault.{CnfFault};
ghost use Rattle.clauses.specs.declared.flat.TheConstants.{MOST_VARIABLES};
ghost use Rattle.joint_theory.specs.Queries.{joint_size};
ghost use Rattle.run_terms.specs.Automata.{TestsSignals};

use crate::circuit::circuit_of;
use crate::joined::Joint;
use crate::product::Product;
use alternating::Alternating;
use clauses::CnfFault;
use netlist::{Netlist, soundness_law};
use std::alloc::Global;

/// The joint states of a netlist and an automaton. The automaton tests signals of the netlist.
///
/// # Errors
///
/// `TooLarge` only where the circuit would have more gates than there may be, and `NoMemory` if memory is refused.
pub fn joint<'a>(
    alloc: Global,
    netlist: &'a Netlist,
    violation: &'a Alternating,
    visits: u32,
) -> Result<Joint<'a>, CnfFault>
    requires tests { TestsSignals netlist.now violation.now }
    requires visits { visits ≤ 16 }
    ensures is { IfOk result (λ joint. joint
        ≡ record { design = netlist.now; automaton = violation.now; visits = visits }) }
    ensures few { IfOk result (λ _. joint_size netlist.now violation.now visits ≤ MOST_VARIABLES) }
    ensures large { IfErr result (λ fault. fault ≡ CnfFault.TooLarge
        → MOST_VARIABLES < joint_size netlist.now violation.now visits) }
{
    soundness_law(netlist);
    let product = Product::of(netlist, violation, visits)?;
    let circuit = circuit_of(alloc, product)?;
    Ok(Joint { product, circuit })
}
