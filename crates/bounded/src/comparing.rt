// Numbers that are compared digit by digit.
ghost use Rattle.std.specs.Prelude.{◌≡◌, ◌+◌, ◌≤◌, ◌<◌, suc, pos};
ghost use Rattle.clauses.specs.declared.flat.TheConstants.{MOST_VARIABLES};
ghost use Rattle.gates_builder.specs.Adding.{Adds, IsOf};
ghost use Rattle.gates_nodes.specs.Nodes.{variables_of};
ghost use Rattle.gates_theory.specs.Distinct.{following};
ghost use Rattle.bounded.specs.Obligations as spec;

use clauses::CnfFault;
use gates_builder::{Builder, negated};

// A digit is 1 or another one is 0, where others before are such that the first is more.
fn not_less(builder: &mut Builder, exceeded: i32, first: i32, second: i32) -> Result<i32, CnfFault>
    requires given { builder.old.given ≡ 0 }
    requires exceeded { IsOf builder.old exceeded }
    requires first { IsOf builder.old first }
    requires second { IsOf builder.old second }
    ensures { Adds builder.old builder.new (spec.not_less exceeded first second builder.old.nodes) result }
{
    let either = builder.or(first, negated(second))?;
    builder.and(exceeded, either)
}

// A number is more than another one, of their highest digits and of whether it is so without these.
fn digit_exceeds(
    builder: &mut Builder,
    exceeded: i32,
    first: i32,
    second: i32,
) -> Result<i32, CnfFault>
    requires given { builder.old.given ≡ 0 }
    requires exceeded { IsOf builder.old exceeded }
    requires first { IsOf builder.old first }
    requires second { IsOf builder.old second }
    ensures { Adds builder.old builder.new (spec.digit_exceeds exceeded first second builder.old.nodes) result }
{
    let more = builder.and(first, negated(second))?;
    let still = not_less(builder, exceeded, first, second)?;
    builder.or(more, still)
}

// The literal of a variable behind so many.
fn literal_behind(builder: &Builder, variables: u32) -> i32
    requires { variables < variables_of builder.now.given builder.now.nodes }
    ensures is { result ≡ pos (suc variables) }
    ensures of { IsOf builder.now result }
{
    let _few = builder.variables();
    (variables + 1) as i32
}

/// A number of so many digits is more than another one. Before the digits of each, the lowest of which comes first,
/// there are so many variables. Where the numbers are equal, a literal says so.
pub(crate) fn exceeds(
    builder: &mut Builder,
    equal: i32,
    first: u32,
    second: u32,
    count: u32,
) -> Result<i32, CnfFault>
    requires given { builder.old.given ≡ 0 }
    requires equal { IsOf builder.old equal }
    requires first { first + count ≤ variables_of 0 builder.old.nodes }
    requires second { second + count ≤ variables_of 0 builder.old.nodes }
    ensures { Adds builder.old builder.new
        (spec.exceeds equal (following first count) (following second count) builder.old.nodes) result }
{
    if count == 0 {
        return Ok(equal);
    }
    let one = literal_behind(builder, first);
    let other = literal_behind(builder, second);
    let exceeded = digit_exceeds(builder, equal, one, other)?;
    exceeds(builder, exceeded, first + 1, second + 1, count - 1)
}
