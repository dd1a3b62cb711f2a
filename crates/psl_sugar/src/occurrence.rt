// Next forms with a count or a range, and next events.
ghost use Rattle.psl_sugar.specs.Budget.{GivesFormula};
ghost use Rattle.psl_sugar.specs.Properties.{next_steps, next_times, next_event, next_event_times, joined, next_range, next_event_range};

use crate::{MeasuredBool, MeasuredFl, Quantifier, Range, Strength, SugarFault};
use std::alloc::Global;

impl MeasuredFl {
    // `X!` so often.
    #[tactic(auto, using(crate::proofs::Sizes::next_steps_more, crate::proofs::Sizes::next_steps_size))]
    fn next_steps(self, alloc: Global, count: u64) -> Result<MeasuredFl, SugarFault>
        ensures { GivesFormula result (next_steps count self) }
    {
        let mut all = self;
        for done in 0..count {
            all = all.next_letter(alloc)?;
        }
        Ok(all)
    }

    /// `next![k](f)`, `next[k](f)`: `f` the count's number of letters later.
    #[tactic(auto, using(crate::proofs::Sizes::next_steps_size))]
    pub fn next_times(
        self,
        alloc: Global,
        strength: Strength,
        count: u64,
    ) -> Result<MeasuredFl, SugarFault>
        ensures { GivesFormula result (next_times strength count self) }
    {
        match strength {
            Strength::Strong => self.next_steps(alloc, count),
            Strength::Weak => self.not(alloc)?.next_steps(alloc, count)?.not(alloc),
        }
    }

    /// `next_event!(b)(f)`, `next_event(b)(f)`: `f` at the first letter at which `b` holds.
    #[tactic(auto, using(crate::proofs::Sizes::until_size))]
    pub fn next_event(
        self,
        alloc: Global,
        strength: Strength,
        test: MeasuredBool,
    ) -> Result<MeasuredFl, SugarFault>
        ensures { GivesFormula result (next_event strength test self) }
    {
        let event = MeasuredFl::now(test)?;
        let before = event.copy(alloc)?.not(alloc)?;
        let then = event.and(alloc, self)?;
        before.until(alloc, strength, then)
    }

    /// `next_event!(b)[k](f)`, `next_event(b)[k](f)`: `f` at the letter at which `b` holds for the
    /// `k`-th time. A count of 0 is read as 1.
    #[tactic(auto, using(crate::proofs::Sizes::next_event_more))]
    pub fn next_event_times(
        self,
        alloc: Global,
        strength: Strength,
        test: MeasuredBool,
        count: u64,
    ) -> Result<MeasuredFl, SugarFault>
        ensures { GivesFormula result (next_event_times strength test count self) }
    {
        let mut all = self.next_event(alloc, strength, test.copy(alloc)?)?;
        for done in 1..count {
            let later = all.next(alloc, strength)?;
            all = later.next_event(alloc, strength, test.copy(alloc)?)?;
        }
        Ok(all)
    }

    // The conjunction or the disjunction of two.
    fn joined(
        self,
        alloc: Global,
        quantifier: Quantifier,
        right: MeasuredFl,
    ) -> Result<MeasuredFl, SugarFault>
        ensures { GivesFormula result (joined quantifier self right) }
    {
        match quantifier {
            Quantifier::All => self.and(alloc, right),
            Quantifier::Exists => self.disjunction(alloc, right),
        }
    }

    /// `next_a![i:j](f)`, `next_e![i:j](f)` and the weak forms: all or some of `next![n](f)`, joined
    /// from the left, for the numbers from the first to the second.
    pub fn next_range(
        self,
        alloc: Global,
        strength: Strength,
        range: Range,
    ) -> Result<MeasuredFl, SugarFault>
        ensures { GivesFormula result (next_range range.quantifier strength range.low range.high self) }
    {
        let Range {
            quantifier,
            low,
            high,
        } = range;
        let mut all = self.copy(alloc)?.next_times(alloc, strength, low)?;
        for more in 0..high.saturating_sub(low) {
            let part = self.copy(alloc)?;
            let part = part.next_times(alloc, strength, low + (more + 1))?;
            all = all.joined(alloc, quantifier, part)?;
        }
        Ok(all)
    }

    /// `next_event_a!(b)[i:j](f)`, `next_event_e!(b)[i:j](f)` and the weak forms: all or some of
    /// `next_event!(b)[n](f)`, joined from the left, for the numbers from the first to the second.
    pub fn next_event_range(
        self,
        alloc: Global,
        strength: Strength,
        test: MeasuredBool,
        range: Range,
    ) -> Result<MeasuredFl, SugarFault>
        ensures { GivesFormula result (next_event_range range.quantifier strength test range.low range.high self) }
    {
        let Range {
            quantifier,
            low,
            high,
        } = range;
        let event = test.copy(alloc)?;
        let mut all = self
            .copy(alloc)?
            .next_event_times(alloc, strength, event, low)?;
        for more in 0..high.saturating_sub(low) {
            let event = test.copy(alloc)?;
            let part = self.copy(alloc)?;
            let part = part.next_event_times(alloc, strength, event, low + (more + 1))?;
            all = all.joined(alloc, quantifier, part)?;
        }
        Ok(all)
    }
}
