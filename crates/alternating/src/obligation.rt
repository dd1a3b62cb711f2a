ghost use Rattle.std.specs.Prelude.{◌≡◌, ◌+◌, ◌-◌, ◌^◌, length, slice_index, IfOk};
ghost use Rattle.psl_tree.specs.Trees.{boolean_of};
ghost use Rattle.alternating_theory.specs.Construction.{cut_obligation, opposite_obligation, with_letter, until_obligation};
ghost use Rattle.alternating_theory.specs.Positive.{OwesWithin};
ghost use Rattle.alternating_theory.specs.Trimmed.{renumbered_obligation};
ghost use Rattle.alternating.specs.Views.{positive_of, obligation_of};

use crate::positive::{Positive, all_of, one_of};
use psl_base::NoMemory;
use psl_tree::Bool;
use std::alloc::Global;

/// What can be owed at a place.
#[derive(Debug, Drop)]
pub(crate) struct Obligation {
    /// What it asks of the letter there and of the next place.
    pub(crate) delta: Positive,
    /// Whether it may be owed for ever.
    pub(crate) accepting: bool,
    /// Its value where the word has ended.
    pub(crate) end: bool,
    /// Its value on Top for ever.
    pub(crate) top: bool,
    /// Its value on Bottom for ever.
    pub(crate) bottom: bool,
}

impl Obligation {
    /// An equal one.
    pub(crate) fn copy(&self, alloc: Global) -> Result<Obligation, NoMemory>
        ensures { IfOk result (λ new. obligation_of new ≡ obligation_of self.now) }
    {
        Ok(Obligation {
            delta: self.delta.copy(alloc)?,
            accepting: self.accepting,
            end: self.end,
            top: self.top,
            bottom: self.bottom,
        })
    }

    /// The dual.
    pub(crate) fn opposite(&self, alloc: Global) -> Result<Obligation, NoMemory>
        ensures { IfOk result (λ new. obligation_of new ≡ opposite_obligation (obligation_of self.now)) }
    {
        Ok(Obligation {
            delta: self.delta.opposite(alloc)?,
            accepting: !self.accepting,
            end: !self.end,
            top: !self.bottom,
            bottom: !self.top,
        })
    }

    /// The obligation that must have a letter.
    pub(crate) fn with_letter(self) -> Obligation
        ensures { obligation_of result ≡ with_letter (obligation_of self) }
    {
        let Obligation {
            delta,
            accepting: _,
            end: _,
            top,
            bottom,
        } = self;
        Obligation {
            delta,
            accepting: false,
            end: false,
            top,
            bottom,
        }
    }

    /// The second obligation, or the first and the one of the number at the next place.
    pub(crate) fn until(
        alloc: Global,
        number: u32,
        left: Obligation,
        right: Obligation,
    ) -> Result<Obligation, NoMemory>
        ensures { IfOk result (λ new. obligation_of new ≡ until_obligation number (obligation_of left) (obligation_of right)) }
    {
        let (top, bottom) = (right.top, right.bottom);
        let again = all_of(alloc, left.into_delta(), Positive::Owed(number))?;
        Ok(Obligation {
            delta: one_of(alloc, right.into_delta(), again)?,
            accepting: false,
            end: false,
            top,
            bottom,
        })
    }

    /// What it asks.
    pub(crate) fn into_delta(self) -> Positive
        ensures { result ≡ self.delta }
    {
        let Obligation {
            delta,
            accepting: _,
            end: _,
            top: _,
            bottom: _,
        } = self;
        delta
    }

    /// The copy that may be cut where the Boolean holds, and owes numbers that are larger by so many.
    pub(crate) fn cut(&self, alloc: Global, test: &Bool, by: u32) -> Result<Obligation, NoMemory>
        requires { OwesWithin 0 (2 ^ 32 - by) (positive_of self.now.delta) }
        ensures { IfOk result (λ new. obligation_of new ≡ cut_obligation (λ number. number + by) (boolean_of test.now) (obligation_of self.now)) }
    {
        let test = Positive::Holds(test.copy(alloc)?);
        let stopped = all_of(alloc, test, Positive::Const(self.top))?;
        Ok(Obligation {
            delta: one_of(alloc, stopped, self.delta.raised(alloc, by)?)?,
            accepting: self.accepting,
            end: false, // the word must not end before the cut
            top: self.top,
            bottom: self.bottom,
        })
    }

    /// The obligation that owes the numbers that stand in a table.
    pub(crate) fn renamed(&self, alloc: Global, names: &[u32]) -> Result<Obligation, NoMemory>
        requires { OwesWithin 0 (length names.now) (positive_of self.now.delta) }
        ensures { IfOk result (λ new. obligation_of new ≡ renumbered_obligation (λ number. slice_index names.now number) (obligation_of self.now)) }
    {
        Ok(Obligation {
            delta: self.delta.renamed(alloc, names)?,
            accepting: self.accepting,
            end: self.end,
            top: self.top,
            bottom: self.bottom,
        })
    }
}
