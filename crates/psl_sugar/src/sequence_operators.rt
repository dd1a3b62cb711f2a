// Operators between sequences.
ghost use Rattle.psl_tree.specs.Trees.{Concat};
ghost use Rattle.psl_sugar.specs.Budget.{GivesSequence};
ghost use Rattle.psl_sugar.specs.Rows.{SequencesRow};
ghost use Rattle.psl_sugar.specs.Sequences.{any_letters, both_of_any_length, within, sequence_row};

use crate::{MeasuredSere, SugarFault};
use std::alloc::Global;

/// An operator between sequences (IEEE 1850, clause 6.1).
#[derive(Clone, Copy, Debug, PartialEq, Eq)]
pub enum SequenceOperator {
    /// `;`
    Concatenation,
    /// `:`
    Fusion,
    /// `|`
    Alternative,
    /// `&&`
    SameLength,
    /// `&`
    AnyLength,
    /// `within`
    Within,
}

impl MeasuredSere {
    /// An operator between two sequences, as far as these were built.
    pub fn joined(
        alloc: Global,
        operator: SequenceOperator,
        left: Result<MeasuredSere, SugarFault>,
        right: Result<MeasuredSere, SugarFault>,
    ) -> Result<MeasuredSere, SugarFault>
        ensures { SequencesRow (sequence_row operator) left right result }
    {
        let left = left?;
        let right = right?;
        match operator {
            SequenceOperator::Concatenation => left.concat(alloc, right),
            SequenceOperator::Fusion => left.fuse(alloc, right),
            SequenceOperator::Alternative => left.either(alloc, right),
            SequenceOperator::SameLength => left.both(alloc, right),
            SequenceOperator::AnyLength => left.both_of_any_length(alloc, right),
            SequenceOperator::Within => left.within(alloc, right),
        }
    }

    /// `r & s`: both from the same letter on, to the end of the longer one.
    pub fn both_of_any_length(
        self,
        alloc: Global,
        right: MeasuredSere,
    ) -> Result<MeasuredSere, SugarFault>
        ensures { GivesSequence result (both_of_any_length self right) }
    {
        let extended = self.copy(alloc)?.followed_by_any(alloc)?;
        let left_shorter = extended.both(alloc, right.copy(alloc)?)?;
        let right_shorter = self.both(alloc, right.followed_by_any(alloc)?)?;
        right_shorter.either(alloc, left_shorter)
    }

    // `r ; [*]`.
    fn followed_by_any(self, alloc: Global) -> Result<MeasuredSere, SugarFault>
        ensures { GivesSequence result (Concat self any_letters) }
    {
        self.concat(alloc, MeasuredSere::any_letters(alloc)?)
    }

    /// `r within s`: `{[*] ; r ; [*]} && s`.
    pub fn within(self, alloc: Global, right: MeasuredSere) -> Result<MeasuredSere, SugarFault>
        ensures { GivesSequence result (within self right) }
    {
        let begun = MeasuredSere::any_letters(alloc)?.concat(alloc, self)?;
        begun.followed_by_any(alloc)?.both(alloc, right)
    }
}
