ghost use Rattle.std.specs.Prelude.{◌≡◌, ◌+◌, ◌≤◌, IfOk};
ghost use Rattle.clauses.specs.declared.flat.TheConstants.{MOST_VARIABLES};
ghost use Rattle.gates_theory.specs.Distinct as spec;

use gates_theory::Literals;
use psl_base::NoMemory;
use std::alloc::Global;

/// The literals of so many variables that follow so many others.
pub fn following(alloc: Global, variables: u32, count: u32) -> Result<Literals, NoMemory>
    requires { variables + count ≤ MOST_VARIABLES }
    ensures { IfOk result (λ new. new ≡ spec.following variables count) }
{
    let mut literals = Literals::new(alloc);
    for k in 0..count {
        literals.push((variables + k + 1) as i32)?;
    }
    Ok(literals)
}
