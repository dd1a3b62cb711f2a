// Cubes that have no initial state.
ghost use Rattle.std.specs.Prelude.{◌≡◌, ℤ, neg_ℤ, Contains, IsTrue};

/// Whether the negation of a literal is among some.
pub(crate) fn is_denied(literals: &[i32], literal: i32) -> bool
    ensures { IsTrue result → Contains literals.now (neg_ℤ literal) }
{
    for other in literals {
        if i64::from(*other) == -i64::from(literal) {
            return true;
        }
    }
    false
}

/// Whether a literal is among some whose negation is among others: nothing makes all of both true.
pub(crate) fn are_apart(literals: &[i32], others: &[i32]) -> bool
    ensures { IsTrue result → (literal : ℤ) × Contains others.now literal × Contains literals.now (neg_ℤ literal) }
{
    for literal in others {
        if is_denied(literals, *literal) {
            return true;
        }
    }
    false
}
