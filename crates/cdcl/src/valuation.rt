// The values of variables.
ghost use Rattle.std.specs.Prelude.{◌≡◌, ◌*◌, ◌≤◌, IfOk};
ghost use Rattle.clauses.specs.declared.flat.TheConstants.{MOST_VARIABLES};
ghost use Rattle.cdcl.specs.Turns.{AreValues};

use cdcl_trail::Trail;
use psl_base::{Bits, Items, NoMemory};
use std::alloc::Global;

/// The value of each variable: whether its literal is true.
///
/// # Errors
///
/// `NoMemory` if memory is refused.
pub fn values(alloc: Global, trail: &Trail, variables: u32) -> Result<Bits, NoMemory>
    requires all { variables ≤ trail.now.variables }
    requires few { trail.now.variables ≤ MOST_VARIABLES }
    ensures { IfOk result (AreValues trail.now variables) }
{
    let mut values = Vec::with_capacity(alloc, variables as usize)?;
    for variable in 0..variables {
        values.push(trail.is_true(2 * variable))?;
    }
    Ok(Items::from_vec(values))
}
