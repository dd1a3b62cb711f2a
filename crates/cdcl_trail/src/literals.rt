// Literals as numbers.
ghost use Rattle.std.specs.Prelude.{◌≡◌, ◌<◌, ◌*◌, IsTrue};
ghost use Rattle.clauses.specs.declared.flat.TheConstants.{MOST_VARIABLES};
ghost use Rattle.clauses.specs.Literals.{is_literal, variable_of};
ghost use Rattle.cdcl_trail.specs.Literals as spec;

/// The negation of a literal.
pub fn opposite(literal: u32) -> u32
    ensures { result ≡ spec.opposite literal }
{
    literal ^ 1
}

/// A literal as a signed number, as clauses and logs have it.
pub fn signed(literal: u32) -> i32
    requires { literal < 2 * MOST_VARIABLES }
    ensures { result ≡ spec.signed literal }
{
    let variable = (literal / 2 + 1) as i32;
    if literal % 2 == 0 {
        variable
    } else {
        -variable
    }
}

/// The literal of a signed number.
pub fn number_of(literal: i32) -> u32
    requires { IsTrue (is_literal literal) }
    ensures is { spec.signed result ≡ literal }
    ensures below { result < 2 * variable_of literal }
{
    let variable = literal.unsigned_abs() - 1;
    if literal > 0 {
        2 * variable
    } else {
        2 * variable + 1
    }
}
