// The values of gates, computed one behind another.
ghost use Rattle.std.specs.Prelude.{◌≡◌, [], ◌∷◌, ◌++◌, length, IfOk, IsTrue};
ghost use Rattle.std.specs.List.{list_all};
ghost use Rattle.gates_theory.specs.Circuits.{gate_within, gates_hold, gates_within};
ghost use Rattle.clauses.specs.Literals.{clause_within, is_within};
ghost use Rattle.clauses.specs.Models as models;
ghost use Rattle.joint.specs.Values.{gate_value};
ghost use Rattle.run_terms.specs.Formulas.{values_of};

use gates_theory::Gate;
use psl_base::{Bits, NoMemory};
use std::alloc::Global;

/// Whether a literal is true.
fn is_true(values: &Bits, literal: i32) -> bool
    requires { IsTrue (is_within (length values.now) literal) }
    ensures { result ≡ models.is_true (values_of values.now) literal }
{
    let variable = literal.unsigned_abs();
    let value = *values.at(variable as usize - 1);
    if literal > 0 { value } else { !value }
}

/// The value of a gate, by those of the gates before it. A free gate has a given one.
fn value_of(values: &Bits, gate: Gate, given: bool) -> bool
    requires { IsTrue (gate_within (length values.now) gate) }
    ensures { result ≡ gate_value (values_of values.now) given gate }
{
    match gate {
        Gate::Free => given,
        Gate::And(first, second) => is_true(values, first) && is_true(values, second),
    }
}

/// The values of gates, where the free ones have given values, by their places.
pub(crate) fn values_of_gates(alloc: Global, gates: &[Gate], given: &Bits) -> Result<Bits, NoMemory>
    requires { IsTrue (gates_within 0 gates.now) }
    ensures length { IfOk result (λ values. length values ≡ length gates.now) }
    ensures hold { IfOk result (λ values. IsTrue (gates_hold (values_of values) 0 gates.now)) }
{
    let mut values = Bits::new(alloc);
    for place in 0..gates.len() {
        let one = place < given.len() && *given.at(place);
        let value = value_of(&values, gates[place], one);
        values.push(value)?;
    }
    Ok(values)
}

/// Whether all of some literals are true.
pub(crate) fn all_true(values: &Bits, literals: &[i32]) -> bool
    requires { IsTrue (clause_within (length values.now) literals.now) }
    ensures { result ≡ list_all (models.is_true (values_of values.now)) literals.now }
{
    for literal in literals {
        if !is_true(values, *literal) {
            return false;
        }
    }
    true
}
