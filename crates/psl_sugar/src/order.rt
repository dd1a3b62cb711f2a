// The left side of a comparison as the smaller number.
ghost use Rattle.psl_sugar.specs.Budget.{GivesBoolean};
ghost use Rattle.psl_sugar.specs.Comparisons.{less_there, less};

use crate::operand::compared_width;
use crate::{MeasuredBool, Operand, SugarFault};
use std::alloc::Global;

impl MeasuredBool {
    // Two bits decide, or else what is to the right of them.
    fn less_there(
        self,
        alloc: Global,
        right: MeasuredBool,
        rest: MeasuredBool,
    ) -> Result<MeasuredBool, SugarFault>
        ensures { GivesBoolean result (less_there self right rest) }
    {
        let no_left = self.copy(alloc)?.not(alloc)?;
        let is_less = no_left.and(alloc, right.copy(alloc)?)?;
        let at_most = self.implication(alloc, right)?;
        is_less.or(alloc, at_most.and(alloc, rest)?)
    }

    /// The left side is less: the rightmost bits come first, and each bit to the left of them counts more.
    pub(crate) fn less(
        alloc: Global,
        left: &Operand,
        right: &Operand,
    ) -> Result<MeasuredBool, SugarFault>
        ensures { GivesBoolean result (less left.now right.now) }
    {
        let mut is_less = MeasuredBool::constant(false);
        for place in 0..compared_width(left, right) {
            is_less = left
                .bit(place)
                .less_there(alloc, right.bit(place), is_less)?;
        }
        Ok(is_less)
    }
}
