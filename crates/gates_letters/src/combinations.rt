// Positive combinations on the letter of a frame and the obligations at the next place.
ghost use Rattle.std.specs.Prelude.{IfSome};
ghost use Rattle.std.specs.Option.{option_map};
ghost use Rattle.alternating.specs.Views.{positive_of};
ghost use Rattle.gates_builder.specs.Adding.{Adds, AreOf};
ghost use Rattle.gates_letters.specs.Combinations.{combination_built, combination_by};

use crate::booleans::{boolean_of, constant_of};
use crate::later::{Later, Listed};
use alternating::Positive;
use clauses::CnfFault;
use gates_builder::Builder;

/// Whether the letter of a frame meets a combination, where `later` makes a literal for each obligation at the next
/// place.
///
/// # Errors
///
/// `TooLarge` only where there would be too many variables, and `NoMemory` if memory is refused.
pub fn combination_with<L: Later>(
    builder: &mut Builder,
    before: Option<&[i32]>,
    now: &[i32],
    later: &L,
    positive: &Positive,
) -> Result<i32, CnfFault>
    requires before { IfSome before (λ literals. AreOf builder.old literals.now) }
    requires now { AreOf builder.old now.now }
    requires later { L.ready later.now builder.old }
    ensures { Adds builder.old builder.new (combination_by builder.old.given
        (option_map (λ literals. literals.now) before.entry) now.now (L.made later.now builder.old.given)
        (positive_of positive.now) builder.old.nodes) result }
{
    match positive {
        Positive::Const(value) => constant_of(builder, *value),
        Positive::Holds(test) => boolean_of(builder, before, now, test),
        Positive::Owed(number) => later.literal(builder, *number),
        Positive::And(left, right) => {
            let left = combination_with(builder, before, now, later, left)?;
            let right = combination_with(builder, before, now, later, right)?;
            builder.and(left, right)
        }
        Positive::Or(left, right) => {
            let left = combination_with(builder, before, now, later, left)?;
            let right = combination_with(builder, before, now, later, right)?;
            builder.or(left, right)
        }
    }
}

/// Whether the letter of a frame meets a combination, where `later` gives a literal for each obligation at the next
/// place. An obligation without one is not met there.
///
/// # Errors
///
/// `TooLarge` only where there would be too many variables, and `NoMemory` if memory is refused.
pub fn combination_of(
    builder: &mut Builder,
    before: Option<&[i32]>,
    now: &[i32],
    later: &[i32],
    positive: &Positive,
) -> Result<i32, CnfFault>
    requires before { IfSome before (λ literals. AreOf builder.old literals.now) }
    requires now { AreOf builder.old now.now }
    requires later { AreOf builder.old later.now }
    ensures { Adds builder.old builder.new (combination_built builder.old.given
        (option_map (λ literals. literals.now) before.entry) now.now later.now (positive_of positive.now) builder.old.nodes)
        result }
{
    combination_with(builder, before, now, &Listed { literals: later }, positive)
}
