// A test that two joint states are neighbours, by their bits.
ghost use Rattle.std.specs.Prelude.{◌≡◌, ℕ, ◌+◌, ◌<◌, ◌≤◌, false, length, slice_index_or, IfOk, IfErr, IsTrue};
ghost use Rattle.gates_theory.specs.Relations as relations;
ghost use Rattle.clauses.specs.declared.flat.CnfFault.{CnfFault};
ghost use Rattle.clauses.specs.declared.flat.TheConstants.{MOST_VARIABLES};
ghost use Rattle.joint.specs.Values.{AreBitsOfNeighbours};
ghost use Rattle.joint_theory.specs.Reaching as spec;
ghost use Rattle.run_terms.specs.Automata.{TestsSignals};

use crate::evaluating::{all_true, values_of_gates};
use crate::joined::Joint;
use crate::one_position::two_states;
use crate::product::Product;
use clauses::CnfFault;
use gates_theory::Circuit;
use netlist::soundness_law;
use psl_base::{Bits, NoMemory};
use run_gates::automaton_law;
use std::alloc::Global;

// Whether so many values from a place on are these.
fn are_at(values: &Bits, start: usize, bits: &Bits) -> bool
    ensures { IsTrue result → (place : ℕ) → place < length bits.now
        → slice_index_or values.now (start + place) false ≡ slice_index_or bits.now place false }
{
    if values.len() < start || values.len() - start < bits.len() {
        return false;
    }
    for place in 0..bits.len() {
        if *values.at(start + place) != *bits.at(place) {
            return false;
        }
    }
    true
}

// Whether no obligation is pending in a state of these bits.
fn is_emptied(product: Product<'_>, bits: &Bits) -> bool {
    let (signals, obligations) = (product.netlist.signals(), product.obligations());
    let start = 1 + 2 * signals as usize + obligations as usize;
    for number in 0..obligations as usize {
        let place = start + number;
        if place < bits.len() && *bits.at(place) {
            return false;
        }
    }
    true
}

// The values of both states' bits, and whether nothing is pending.
fn given_of(
    alloc: Global,
    product: Product<'_>,
    bits: &Bits,
    next: &Bits,
) -> Result<Bits, NoMemory> {
    let mut given = bits.copy(alloc)?;
    for bit in next.as_slice() {
        given.push(*bit)?;
    }
    given.push(is_emptied(product, bits))?;
    Ok(given)
}

impl<'a> Joint<'a> {
    /// The circuit that computes whether two joint states are neighbours.
    ///
    /// # Errors
    ///
    /// `TooLarge` only where it would have more gates than there may be, and `NoMemory` if memory is refused.
    pub fn pair_circuit(&self, alloc: Global) -> Result<Circuit, CnfFault>
        ensures is { IfOk result (λ circuit. circuit ≡ relations.circuit_of
            (spec.two_states self.now.design self.now.automaton self.now.visits)) }
        ensures few { IfOk result (λ circuit. length circuit.gates ≤ MOST_VARIABLES) }
        ensures large { IfErr result (λ fault. fault ≡ CnfFault.TooLarge
            → MOST_VARIABLES < spec.two_size self.now.design self.now.automaton self.now.visits) }
    {
        circuit_of_pair(alloc, self.product)
    }

    /// Whether two lists are found to be the bits of two joint states of which the second may follow the first, by the
    /// circuit that computes it. It is true only where they are.
    ///
    /// # Errors
    ///
    /// `NoMemory` if memory is refused.
    pub fn are_neighbours(
        &self,
        alloc: Global,
        circuit: &Circuit,
        bits: &Bits,
        next: &Bits,
    ) -> Result<bool, NoMemory>
        requires circuit { circuit.now ≡ relations.circuit_of
            (spec.two_states self.now.design self.now.automaton self.now.visits) }
        ensures { IfOk result (λ are. IsTrue are
            → AreBitsOfNeighbours self.now.design self.now.automaton self.now.visits bits.now next.now) }
    {
        neighbours_by(alloc, self.product, circuit, bits, next)
    }
}

// The circuit of two states.
fn circuit_of_pair(alloc: Global, product: Product<'_>) -> Result<Circuit, CnfFault>
    requires tests { TestsSignals product.netlist.now product.violation.now }
    ensures is { IfOk result (λ circuit. circuit ≡ relations.circuit_of
        (spec.two_states product.entry.netlist.now product.entry.violation.now product.entry.visits)) }
    ensures few { IfOk result (λ circuit. length circuit.gates ≤ MOST_VARIABLES) }
    ensures large { IfErr result (λ fault. fault ≡ CnfFault.TooLarge → MOST_VARIABLES
        < spec.two_size product.entry.netlist.now product.entry.violation.now product.entry.visits) }
{
    soundness_law(product.netlist);
    two_states(alloc, product)
}

// Whether these are the bits of two neighbours, by the values of the circuit's gates.
fn neighbours_by(
    alloc: Global,
    product: Product<'_>,
    circuit: &Circuit,
    bits: &Bits,
    next: &Bits,
) -> Result<bool, NoMemory>
    requires tests { TestsSignals product.netlist.now product.violation.now }
    requires circuit { circuit.now ≡ relations.circuit_of
        (spec.two_states product.netlist.now product.violation.now product.visits) }
    ensures { IfOk result (λ are. IsTrue are → AreBitsOfNeighbours product.entry.netlist.now
        product.entry.violation.now product.entry.visits bits.now next.now) }
{
    soundness_law(product.netlist);
    automaton_law(product.violation);
    let width = product.width as usize;
    if bits.len() != width || next.len() != width {
        return Ok(false);
    }
    let given = given_of(alloc, product, bits, next)?;
    let values = values_of_gates(alloc, circuit.gates.as_slice(), &given)?;
    if are_at(&values, 0, bits) && are_at(&values, width, next) {
        Ok(all_true(&values, circuit.hold.as_slice()))
    } else {
        Ok(false)
    }
}
