// Comparisons of vectors and numbers.
ghost use Rattle.psl_sugar.specs.Budget.{GivesBoolean};
ghost use Rattle.psl_sugar.specs.Comparisons.{comparison_row};

use crate::{MeasuredBool, Operand, SugarFault};
use std::alloc::Global;

/// A comparison of unsigned numbers (IEEE 1850, clause 5).
#[derive(Clone, Copy, Debug, PartialEq, Eq)]
pub enum Comparison {
    /// `==`
    Equal,
    /// `!=`
    Unequal,
    /// `<`
    Less,
    /// `<=`
    LessEqual,
    /// `>`
    Greater,
    /// `>=`
    GreaterEqual,
}

impl MeasuredBool {
    /// A comparison of two sides, of which the shorter one is extended by zeros on the left.
    pub fn compared(
        alloc: Global,
        comparison: Comparison,
        left: &Operand,
        right: &Operand,
    ) -> Result<MeasuredBool, SugarFault>
        ensures { GivesBoolean result (comparison_row comparison left.now right.now) }
    {
        match comparison {
            Comparison::Equal => MeasuredBool::equality(alloc, left, right),
            Comparison::Unequal => MeasuredBool::equality(alloc, left, right)?.not(alloc),
            Comparison::Less => MeasuredBool::less(alloc, left, right),
            Comparison::LessEqual => MeasuredBool::less(alloc, right, left)?.not(alloc),
            Comparison::Greater => MeasuredBool::less(alloc, right, left),
            Comparison::GreaterEqual => MeasuredBool::less(alloc, left, right)?.not(alloc),
        }
    }
}
