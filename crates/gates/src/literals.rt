ghost use Rattle.std.specs.Prelude.{◌≡◌, ◌<◌, ◌≤◌, ◌+◌, pos, neg_ℤ, IsTrue};
ghost use Rattle.clauses.specs.declared.flat.TheConstants.{MOST_VARIABLES};
ghost use Rattle.clauses.specs.Literals.{is_within};
ghost use Rattle.gates_theory.specs.Unrolled as spec;

/// The literal of a variable.
pub fn positive(variable: u32) -> i32
    requires { variable ≤ MOST_VARIABLES }
    ensures { result ≡ pos variable }
{
    variable as i32
}

/// The negation of a literal.
pub fn negated(literal: i32) -> i32
    requires { IsTrue (is_within MOST_VARIABLES literal) }
    ensures { result ≡ neg_ℤ literal }
{
    -literal
}

/// A literal of a variable that is so much higher.
pub fn moved(base: u32, literal: i32) -> i32
    requires { IsTrue (is_within MOST_VARIABLES (spec.moved base literal)) }
    ensures { result ≡ spec.moved base literal }
{
    if literal < 0 {
        literal - base as i32
    } else {
        literal + base as i32
    }
}
