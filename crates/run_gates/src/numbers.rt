// Numbers of so many bits.
ghost use Rattle.std.specs.Prelude.{◌≡◌, ◌+◌, ◌<◌, ◌≤◌, pos, suc, IsTrue};
ghost use Rattle.clauses.specs.declared.flat.TheConstants.{MOST_VARIABLES};
ghost use Rattle.clauses.specs.Literals.{is_literal};
ghost use Rattle.gates_theory.specs.Distinct.{following};
ghost use Rattle.gates_theory.specs.Terms.{Conjunction, Literal, Negation};
ghost use Rattle.run_gates.specs.Building.{digit_term, less_term, more_term, Builds};
ghost use Rattle.run_terms.specs.Numbers.{at_most};

use crate::Builder;
use crate::builder::negated;
use clauses::CnfFault;

/// A digit is less than another.
fn add_less(gates: &mut Builder, first: i32, second: i32) -> Result<i32, CnfFault>
    requires first { IsTrue (is_literal first) }
    requires second { IsTrue (is_literal second) }
    ensures { Builds gates.old gates.new (less_term first second) result }
{
    gates.and(negated(first), second)
}

/// A digit is more than another.
fn add_more(gates: &mut Builder, first: i32, second: i32) -> Result<i32, CnfFault>
    requires first { IsTrue (is_literal first) }
    requires second { IsTrue (is_literal second) }
    ensures { Builds gates.old gates.new (more_term first second) result }
{
    gates.and(first, negated(second))
}

/// The digits before say that the first number is not at most the second, and one digit more says nothing else.
fn add_stays(gates: &mut Builder, above: i32, first: i32, second: i32) -> Result<i32, CnfFault>
    requires above { IsTrue (is_literal above) }
    requires first { IsTrue (is_literal first) }
    requires second { IsTrue (is_literal second) }
    ensures { Builds gates.old gates.new (Conjunction (Literal above) (Negation (less_term first second))) result }
{
    let less = add_less(gates, first, second)?;
    gates.and(above, negated(less))
}

/// The digits so far, with one more of each number, say that the first is not at most the second, where `above` says it
/// of those before.
fn add_digit(gates: &mut Builder, above: i32, first: i32, second: i32) -> Result<i32, CnfFault>
    requires above { IsTrue (is_literal above) }
    requires first { IsTrue (is_literal first) }
    requires second { IsTrue (is_literal second) }
    ensures { Builds gates.old gates.new (digit_term (Literal above) first second) result }
{
    let stays = add_stays(gates, above, first, second)?;
    let more = add_more(gates, first, second)?;
    gates.either(stays, more)
}

/// The literal of a variable that follows others.
fn following_at(variables: u32, place: u32) -> i32
    requires { variables + place < MOST_VARIABLES }
    ensures is { result ≡ pos (suc (variables + place)) }
    ensures literal { IsTrue (is_literal result) }
{
    (variables + place + 1) as i32
}

/// A number is at most another, or is less where `strict` is true. The digits of each are as many variables, the lowest
/// first, which follow so many others.
pub fn add_at_most(
    gates: &mut Builder,
    strict: i32,
    first: u32,
    second: u32,
    width: u32,
) -> Result<i32, CnfFault>
    requires strict { IsTrue (is_literal strict) }
    requires first { first + width ≤ MOST_VARIABLES }
    requires second { second + width ≤ MOST_VARIABLES }
    ensures { Builds gates.old gates.new
        (at_most (Literal strict) (following first width) (following second width)) result }
{
    let mut above = strict;
    for digit in 0..width {
        above = add_digit(
            gates,
            above,
            following_at(first, digit),
            following_at(second, digit),
        )?;
    }
    Ok(negated(above))
}
