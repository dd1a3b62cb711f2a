// Suffix implications.
ghost use Rattle.psl_sugar.specs.Budget.{GivesFormula};
ghost use Rattle.psl_sugar.specs.Properties.{suffix_next, suffix_row};
ghost use Rattle.psl_sugar.specs.Rows.{SuffixRow};

use crate::{MeasuredFl, MeasuredSere, SugarFault};
use std::alloc::Global;

/// An operator between a sequence and a property (IEEE 1850, clause 6.2).
#[derive(Clone, Copy, Debug, PartialEq, Eq)]
pub enum SuffixOperator {
    /// `|->`
    Overlapping,
    /// `|=>`
    Next,
}

impl MeasuredFl {
    /// A suffix implication of a sequence and a property, as far as these were built.
    pub fn suffixed(
        alloc: Global,
        operator: SuffixOperator,
        sequence: Result<MeasuredSere, SugarFault>,
        part: Result<MeasuredFl, SugarFault>,
    ) -> Result<MeasuredFl, SugarFault>
        ensures { SuffixRow (suffix_row operator) sequence part result }
    {
        match operator {
            SuffixOperator::Overlapping => MeasuredFl::suffix(alloc, sequence?, part?),
            SuffixOperator::Next => MeasuredFl::suffix_next(alloc, sequence?, part?),
        }
    }

    /// `r |=> f`: `{r ; true} |-> f`.
    pub fn suffix_next(
        alloc: Global,
        sequence: MeasuredSere,
        part: MeasuredFl,
    ) -> Result<MeasuredFl, SugarFault>
        ensures { GivesFormula result (suffix_next sequence part) }
    {
        let longer = sequence.concat(alloc, MeasuredSere::any_letter()?)?;
        MeasuredFl::suffix(alloc, longer, part)
    }
}
