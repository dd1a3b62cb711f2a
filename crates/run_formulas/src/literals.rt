ghost use Rattle.std.specs.Prelude.{◌≡◌, ◌+◌, ◌≤◌, IsTrue};
ghost use Rattle.clauses.specs.declared.flat.TheConstants.{MOST_VARIABLES};
ghost use Rattle.clauses.specs.Literals.{is_within};
ghost use Rattle.gates_theory.specs.Unrolled as spec;

/// A literal of a variable that is so much higher.
pub fn moved(base: u32, literal: i32) -> i32
    requires { IsTrue (is_within MOST_VARIABLES (spec.moved base literal)) }
    ensures { result ≡ spec.moved base literal }
{
    if literal < 0 {
        literal - base as i32
    } else {
        literal + base as i32
    }
}
