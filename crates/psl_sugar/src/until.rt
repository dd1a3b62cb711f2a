// `until` and `before`, in all their forms.
ghost use Rattle.psl_sugar.specs.Budget.{GivesFormula};
ghost use Rattle.psl_sugar.specs.Properties.{weak_until, until, until_overlapping, before, before_overlapping, until_row};
ghost use Rattle.psl_sugar.specs.Rows.{FormulasRow};

use crate::{MeasuredFl, Strength, SugarFault};
use std::alloc::Global;

/// An operator between properties that is strong or weak (IEEE 1850, clause 6.2).
#[derive(Clone, Copy, Debug, PartialEq, Eq)]
pub enum UntilOperator {
    /// `until`, `until!`
    Until,
    /// `until_`, `until!_`
    UntilOverlap,
    /// `before`, `before!`
    Before,
    /// `before_`, `before!_`
    BeforeOverlap,
}

impl MeasuredFl {
    /// One of these operators between two properties, as far as these were built.
    #[tactic(auto, using(crate::proofs::Sizes::until_size))]
    pub fn lasting(
        alloc: Global,
        operator: UntilOperator,
        strength: Strength,
        left: Result<MeasuredFl, SugarFault>,
        right: Result<MeasuredFl, SugarFault>,
    ) -> Result<MeasuredFl, SugarFault>
        ensures { FormulasRow (until_row operator strength) left right result }
    {
        let left = left?;
        let right = right?;
        match operator {
            UntilOperator::Until => left.until(alloc, strength, right),
            UntilOperator::UntilOverlap => left.until_overlapping(alloc, strength, right),
            UntilOperator::Before => left.before(alloc, strength, right),
            UntilOperator::BeforeOverlap => left.before_overlapping(alloc, strength, right),
        }
    }

    // `f W g`: `(f U g) || G f`.
    fn weak_until(self, alloc: Global, right: MeasuredFl) -> Result<MeasuredFl, SugarFault>
        ensures { GivesFormula result (weak_until self right) }
    {
        let always = self.copy(alloc)?.always(alloc)?;
        let until = self.strong_until(alloc, right)?;
        until.disjunction(alloc, always)
    }

    /// `f until! g`, `f until g`.
    pub fn until(
        self,
        alloc: Global,
        strength: Strength,
        right: MeasuredFl,
    ) -> Result<MeasuredFl, SugarFault>
        ensures { GivesFormula result (until strength self right) }
    {
        match strength {
            Strength::Strong => self.strong_until(alloc, right),
            Strength::Weak => self.weak_until(alloc, right),
        }
    }

    /// `f until!_ g`, `f until_ g`: `f` holds with `g` too.
    #[tactic(auto, using(crate::proofs::Sizes::until_size))]
    pub fn until_overlapping(
        self,
        alloc: Global,
        strength: Strength,
        right: MeasuredFl,
    ) -> Result<MeasuredFl, SugarFault>
        ensures { GivesFormula result (until_overlapping strength self right) }
    {
        let both = self.copy(alloc)?.and(alloc, right)?;
        self.until(alloc, strength, both)
    }

    /// `f before! g`, `f before g`.
    #[tactic(auto, using(crate::proofs::Sizes::until_size))]
    pub fn before(
        self,
        alloc: Global,
        strength: Strength,
        right: MeasuredFl,
    ) -> Result<MeasuredFl, SugarFault>
        ensures { GivesFormula result (before strength self right) }
    {
        let absent = right.not(alloc)?;
        let first = self.and(alloc, absent.copy(alloc)?)?;
        absent.until(alloc, strength, first)
    }

    /// `f before!_ g`, `f before_ g`: both may come at once.
    #[tactic(auto, using(crate::proofs::Sizes::until_size))]
    pub fn before_overlapping(
        self,
        alloc: Global,
        strength: Strength,
        right: MeasuredFl,
    ) -> Result<MeasuredFl, SugarFault>
        ensures { GivesFormula result (before_overlapping strength self right) }
    {
        right.not(alloc)?.until(alloc, strength, self)
    }
}
