// A circuit at so many positions as clauses.
ghost use Rattle.std.specs.Prelude.{◌≡◌, ◌≤◌, ◌↔◌, ℕ, Err, IfOk, IfErr};
ghost use Rattle.clauses.specs.declared.flat.CnfFault.{CnfFault};
ghost use Rattle.clauses.specs.Models.{Assignment, IsModel};
ghost use Rattle.gates_theory.specs.Circuits.{IsPath, IsSound};
ghost use Rattle.gates_theory.specs.Sizes.{unrolled_variables as variables_of, IsTooLarge};
ghost use Rattle.gates_theory.specs.Unrolled.{positions_of, unrolled};
ghost use Rattle.gates.specs.Adding.{AreFew};

use crate::parts::add_position;
use crate::sizes::unrolled_variables;
use clauses::{Clauses, Cnf, CnfFault};
use gates_theory::Circuit;
use std::alloc::Global;

/// A circuit at so many positions as clauses. Gate k, counted from 1, of g gates is at the position i, counted from 0,
/// the variable i * g + k, and the models are the paths of the circuit. It takes time and memory in proportion to the
/// words.
///
/// # Errors
///
/// `TooLarge` exactly where there would be too many variables or words, which is told before anything is built, and
/// `NoMemory` if memory is refused.
pub fn unroll(alloc: Global, circuit: &Circuit, positions: u32) -> Result<Cnf, CnfFault>
    requires { IsSound circuit.now }
    ensures variables { IfOk result (λ cnf. cnf.variables ≡ variables_of circuit.entry.now positions) }
    ensures clauses { IfOk result (λ cnf. cnf.clauses ≡ unrolled circuit.entry.now positions) }
    ensures models { IfOk result (λ cnf. (values : Assignment) → IsModel values cnf.clauses
        ↔ IsPath circuit.entry.now positions (positions_of circuit.entry.now values)) }
    ensures too_large { (result ≡ Err CnfFault.TooLarge)
        ↔ IsTooLarge (variables_of circuit.entry.now positions) (unrolled circuit.entry.now positions) }
{
    let variables = unrolled_variables(circuit, positions)?;
    let clauses = positions_clauses(alloc, circuit, positions)?;
    Ok(Cnf { variables, clauses })
}

/// The clauses, for which there is room.
fn positions_clauses(alloc: Global, circuit: &Circuit, positions: u32) -> Result<Clauses, CnfFault>
    requires sound { IsSound circuit.now }
    requires few { AreFew (variables_of circuit.now positions) (unrolled circuit.now positions) }
    ensures clauses { IfOk result (λ clauses. clauses ≡ unrolled circuit.entry.now positions) }
    ensures memory { IfErr result (λ fault. fault ≡ CnfFault.NoMemory) }
{
    let mut clauses = Clauses::new(alloc);
    for position in 0..positions {
        add_position(&mut clauses, circuit, position)?;
    }
    Ok(clauses)
}
