// A circuit at so many positions, of which the last one is held too.
ghost use Rattle.std.specs.Prelude.{◌≡◌, ◌*◌, ◌<◌, suc, length, IfErr, IfOk};
ghost use Rattle.clauses.specs.declared.flat.CnfFault.{CnfFault};
ghost use Rattle.gates_theory.specs.Circuits.{IsSound};
ghost use Rattle.gates_theory.specs.Sizes.{IsTooLarge};
ghost use Rattle.run_formulas.specs.Adding as spec;

use crate::add_units;
use clauses::{Cnf, CnfFault};
use gates::unroll;
use gates_theory::Circuit;
use std::alloc::Global;

/// A circuit at the positions up to the last one, where it is held too.
///
/// # Errors
///
/// `TooLarge` only where there would be too many variables or words, and `NoMemory` if memory is refused.
pub fn held_to(alloc: Global, circuit: &Circuit, last: u32) -> Result<Cnf, CnfFault>
    requires sound { IsSound circuit.now }
    requires some { 0 < length circuit.now.gates }
    ensures variables { IfOk result (λ cnf. cnf.variables ≡ suc last * length circuit.entry.now.gates) }
    ensures clauses { IfOk result (λ cnf. cnf.clauses ≡ spec.held_to circuit.entry.now last) }
    ensures large { IfErr result (λ fault. fault ≡ CnfFault.TooLarge
        → IsTooLarge (suc last * length circuit.entry.now.gates) (spec.held_to circuit.entry.now last)) }
{
    let Some(positions) = last.checked_add(1) else {
        return Err(CnfFault::TooLarge);
    };
    let mut cnf = unroll(alloc, circuit, positions)?;
    let size = circuit.gates.len() as u32;
    add_units(&mut cnf, last * size, size, circuit.hold.as_slice())?;
    Ok(cnf)
}
