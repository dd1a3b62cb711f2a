// What directives ask for.
ghost use Rattle.psl_sugar.specs.Budget.{GivesFormula};
ghost use Rattle.psl_sugar.specs.Properties.{covered, covered_at};

use crate::{MeasuredBool, MeasuredFl, MeasuredSere, SugarFault};
use std::alloc::Global;

impl MeasuredFl {
    /// The formula of `cover r`: `{[*];r}!` (IEEE 1850, clause 7.1).
    pub fn covered(alloc: Global, sequence: MeasuredSere) -> Result<MeasuredFl, SugarFault>
        ensures { GivesFormula result (covered sequence) }
    {
        let any = MeasuredSere::any_letters(alloc)?;
        MeasuredFl::strong(any.concat(alloc, sequence)?)
    }

    /// The formula of `cover r@c`, or of `cover r` under a default clock: `({[*];r}!)@c`.
    pub fn covered_at(
        alloc: Global,
        sequence: MeasuredSere,
        clock: MeasuredBool,
    ) -> Result<MeasuredFl, SugarFault>
        ensures { GivesFormula result (covered_at sequence clock) }
    {
        MeasuredFl::covered(alloc, sequence)?.clocked(alloc, clock)
    }
}
