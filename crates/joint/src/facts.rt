// What holds of each product and its circuit.
ghost use Rattle.std.specs.Prelude.{◌≡◌, ◌<◌, ◌≤◌, length, IsTrue};
ghost use Rattle.gates_theory.specs.Circuits as circuits;
ghost use Rattle.clauses.specs.Literals.{clause_within, is_within};
ghost use Rattle.joint_theory.specs.Bits.{bad_bit};
ghost use Rattle.joint_theory.specs.Queries.{joint_circuit, start_literals};
ghost use Rattle.netlist.specs.Sound as netlists;
ghost use Rattle.run_terms.specs.Automata.{IsSound, TestsSignals};

use crate::product::Product;
use gates_theory::Circuit;
use netlist::soundness_law;
use run_gates::automaton_law;

/// The circuit of the joint states is sound, and the literals of an initial and of a bad state are of its gates.
pub(crate) fn circuit_is_sound(product: Product<'_>, circuit: &Circuit)
    requires tests { TestsSignals product.netlist.now product.violation.now }
    requires circuit { circuit.now ≡ joint_circuit product.netlist.now product.violation.now product.visits }
    ensures netlist { netlists.IsSound product.entry.netlist.now }
    ensures automaton { IsSound product.entry.violation.now }
    ensures sound { circuits.IsSound circuit.entry.now }
    ensures some { 0 < length circuit.entry.now.gates }
    ensures start { IsTrue (clause_within (length circuit.entry.now.gates)
        (start_literals product.entry.netlist.now product.entry.violation.now product.entry.visits)) }
    ensures width { product.entry.width ≤ length circuit.entry.now.gates }
{
    soundness_law(product.netlist);
    automaton_law(product.violation);
}
