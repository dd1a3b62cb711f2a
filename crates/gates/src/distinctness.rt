// A formula with the clauses that no two states of a circuit's path are equal.
ghost use Rattle.std.specs.Prelude.{◌≡◌, ◌++◌, ◌*◌, ◌≤◌, ◌↔◌, ℕ, length, Err, OnOk, OnErr};
ghost use Rattle.clauses.specs.declared.flat.CnfFault.{CnfFault};
ghost use Rattle.clauses.specs.Models.{Assignment, IsModel};
ghost use Rattle.gates_theory.specs.Circuits.{AreDistinct, AreSame, IsSound};
ghost use Rattle.gates_theory.specs.Distinct as spec;
ghost use Rattle.gates_theory.specs.Sizes.{distinct_variables as variables_of, IsTooLarge};
ghost use Rattle.gates_theory.specs.Unrolled.{positions_of};

use crate::sizes::distinct_variables;
use crate::states::add_states;
use clauses::{Cnf, CnfFault};
use gates_theory::Circuit;
use std::alloc::Global;

/// Adds to a formula that the states of a circuit at the first so many positions are different: a variable for each
/// pair of positions and each state bit, and clauses by which one of them is true and is true only where the bit
/// differs. The formula has the variables of these positions.
///
/// # Errors
///
/// `TooLarge` exactly where there would be too many variables or words, which is told before anything is built, and
/// `NoMemory` if memory is refused. The formula is then as it was.
pub fn distinct(
    alloc: Global,
    circuit: &Circuit,
    positions: u32,
    cnf: &mut Cnf,
) -> Result<(), CnfFault>
    requires sound { IsSound circuit.now }
    requires variables { positions * length circuit.now.gates ≤ cnf.old.variables }
    ensures variables { OnOk result (cnf.new.variables ≡ variables_of circuit.entry.now cnf.old.variables positions) }
    ensures clauses { OnOk result (cnf.new.clauses
        ≡ cnf.old.clauses ++ spec.distinct circuit.entry.now cnf.old.variables positions) }
    ensures different { OnOk result ((values : Assignment) → IsModel values cnf.new.clauses
        → IsModel values cnf.old.clauses
        × AreDistinct circuit.entry.now positions (positions_of circuit.entry.now values)) }
    ensures extends { OnOk result ((values : Assignment) → IsModel values cnf.old.clauses
        → AreDistinct circuit.entry.now positions (positions_of circuit.entry.now values)
        → (further : Assignment) × IsModel further cnf.new.clauses × AreSame cnf.old.variables further values) }
    ensures err_variables { OnErr result (cnf.new.variables ≡ cnf.old.variables) }
    ensures err_clauses { OnErr result (cnf.new.clauses ≡ cnf.old.clauses) }
    ensures too_large { (result ≡ Err CnfFault.TooLarge)
        ↔ IsTooLarge (variables_of circuit.entry.now cnf.old.variables positions)
        (cnf.old.clauses ++ spec.distinct circuit.entry.now cnf.old.variables positions) }
{
    let variables = distinct_variables(circuit, positions, cnf)?;
    let mut buffer = vec![in alloc; 0; circuit.now.len()]?;
    let count = cnf.clauses.len();
    let before = cnf.variables;
    if let Err(fault) = add_states(&mut cnf.clauses, circuit, &mut buffer, before, positions) {
        cnf.clauses.truncate(count);
        return Err(fault);
    }
    cnf.variables = variables;
    Ok(())
}
