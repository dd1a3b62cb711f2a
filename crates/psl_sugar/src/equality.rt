// The two sides of a comparison as equal numbers.
ghost use Rattle.psl_tree.specs.Trees.{And};
ghost use Rattle.psl_sugar.specs.Budget.{GivesBoolean};
ghost use Rattle.psl_sugar.specs.Comparisons.{literal, alike, same_bit, equality};

use crate::boolean_sugar::has_bit;
use crate::operand::compared_width;
use crate::{MeasuredBool, Operand, SugarFault};
use std::alloc::Global;

impl MeasuredBool {
    // A bit as the bit of a value wants it: as it is for a 1, else negated.
    fn literal(self, alloc: Global, is_one: bool) -> Result<MeasuredBool, SugarFault>
        ensures { GivesBoolean result (literal self is_one) }
    {
        if is_one { Ok(self) } else { self.not(alloc) }
    }

    // Two bits are both 1, or both 0.
    fn alike(self, alloc: Global, right: MeasuredBool) -> Result<MeasuredBool, SugarFault>
        ensures { GivesBoolean result (alike self right) }
    {
        let ones = self.copy(alloc)?.and(alloc, right.copy(alloc)?)?;
        let no_left = self.not(alloc)?;
        let zeros = no_left.and(alloc, right.not(alloc)?)?;
        ones.or(alloc, zeros)
    }

    // The two sides have the same bit at a place.
    fn same_bit(
        alloc: Global,
        left: &Operand,
        right: &Operand,
        place: u64,
    ) -> Result<MeasuredBool, SugarFault>
        ensures { GivesBoolean result (same_bit left.now right.now place) }
    {
        match (left, right) {
            (_, Operand::Value(value)) => left.bit(place).literal(alloc, has_bit(*value, place)),
            (Operand::Value(value), _) => right.bit(place).literal(alloc, has_bit(*value, place)),
            _ => left.bit(place).alike(alloc, right.bit(place)),
        }
    }

    // What is said of the bits to the left of a place, and that the two sides have the same bit there.
    fn and_same_bit(
        self,
        alloc: Global,
        left: &Operand,
        right: &Operand,
        place: u64,
    ) -> Result<MeasuredBool, SugarFault>
        ensures { GivesBoolean result (And self (same_bit left.now right.now place)) }
    {
        let here = MeasuredBool::same_bit(alloc, left, right, place)?;
        self.and(alloc, here)
    }

    /// The conjunction from the left of the bits that are the same, the leftmost first.
    pub(crate) fn equality(
        alloc: Global,
        left: &Operand,
        right: &Operand,
    ) -> Result<MeasuredBool, SugarFault>
        ensures { GivesBoolean result (equality left.now right.now) }
    {
        let leftmost = compared_width(left, right).saturating_sub(1);
        let mut all = MeasuredBool::same_bit(alloc, left, right, leftmost)?;
        for more in 0..leftmost {
            all = all.and_same_bit(alloc, left, right, leftmost - (more + 1))?;
        }
        Ok(all)
    }
}
