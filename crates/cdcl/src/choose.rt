// Variables that have no value.
ghost use Rattle.std.specs.Prelude.{◌≡◌, ◌⊎◌, ◌+◌, ◌*◌, ◌<◌, ◌≤◌, IfSome, IfNone};
ghost use Rattle.std.specs.Bool.{OnTrue, OnFalse};
ghost use Rattle.std.specs.List.{Contains};
ghost use Rattle.clauses.specs.declared.flat.TheConstants.{MOST_VARIABLES};
ghost use Rattle.cdcl.specs.Turns.{IsFree, IsComplete};

use cdcl_trail::Trail;

/// Whether a variable has a value.
pub(crate) fn has_value(trail: &Trail, variable: u32) -> bool
    requires within { variable < trail.now.variables }
    requires few { trail.now.variables ≤ MOST_VARIABLES }
    ensures yes { OnTrue result
        (Contains trail.now.literals (2 * variable) ⊎ Contains trail.now.literals (2 * variable + 1)) }
    ensures no { OnFalse result (IsFree trail.now (2 * variable) × IsFree trail.now (2 * variable + 1)) }
{
    trail.is_true(2 * variable) || trail.is_true(2 * variable + 1)
}

/// The first variable that has no value.
pub(crate) fn free_variable(trail: &Trail, variables: u32) -> Option<u32>
    requires all { variables ≤ trail.now.variables }
    requires few { trail.now.variables ≤ MOST_VARIABLES }
    ensures some { IfSome result (λ variable. IsFree trail.now (2 * variable) × IsFree trail.now (2 * variable + 1)) }
    ensures none { IfNone result (IsComplete trail.now variables) }
{
    for variable in 0..variables {
        if !has_value(trail, variable) {
            return Some(variable);
        }
    }
    None
}
