// Literals as numbers from 0.
ghost use Rattle.std.specs.Prelude.{◌≡◌, ◌-◌, ◌+◌, ◌<◌, ◌^◌, true, IfOk, map, OnErr};
ghost use Rattle.clauses.specs.Literals.{is_literal};
ghost use Rattle.clause_log.specs.Codes as spec;

/// The number of a literal: twice the variable before its own, and one more where it is negated.
pub(crate) fn code(literal: i32) -> u32
    requires { is_literal literal ≡ true }
    ensures { result ≡ spec.code_of literal }
{
    let before = literal.unsigned_abs() - 1;
    if literal > 0 {
        2 * before
    } else {
        2 * before + 1
    }
}

/// The literal of a number.
pub(crate) fn literal(code: u32) -> i32
    requires { code < 2 ^ 32 - 2 }
    ensures { result ≡ spec.literal_of code }
{
    let variable = (code / 2 + 1) as i32;
    if code % 2 == 0 { variable } else { -variable }
}
