// Repetitions of sequences.
ghost use Rattle.psl_sugar.specs.Budget.{GivesSequence};
ghost use Rattle.psl_sugar.specs.Sequences.{any_letter, any_letters, plus, times, optional, between, at_least, repeated, absence, goto, goto_repeated, occurrences};

use crate::{Count, MeasuredBool, MeasuredSere, SugarFault};
use std::alloc::Global;

impl MeasuredSere {
    /// `true` as a sequence, which a repetition that stands alone repeats: one letter.
    pub fn any_letter() -> Result<MeasuredSere, SugarFault>
        ensures { GivesSequence result any_letter }
    {
        MeasuredSere::one(MeasuredBool::constant(true))
    }

    /// `[*]`: any number of letters.
    pub fn any_letters(alloc: Global) -> Result<MeasuredSere, SugarFault>
        ensures { GivesSequence result any_letters }
    {
        MeasuredSere::any_letter()?.star(alloc)
    }

    /// `r[+]`: `r ; r[*]`.
    pub fn plus(self, alloc: Global) -> Result<MeasuredSere, SugarFault>
        ensures { GivesSequence result (plus self) }
    {
        let more = self.copy(alloc)?.star(alloc)?;
        self.concat(alloc, more)
    }

    /// `r[*k]`: `[*0]` for 0, `r` for 1, else `r ; r[*k-1]`.
    #[tactic(auto, using(crate::proofs::Sizes::times_more, crate::proofs::Sizes::times_within))]
    pub fn times(self, alloc: Global, count: u64) -> Result<MeasuredSere, SugarFault>
        ensures { GivesSequence result (times count self) }
    {
        if count == 0 {
            return Ok(MeasuredSere::empty());
        }
        let mut all = self.copy(alloc)?;
        for done in 1..count {
            let part = self.copy(alloc)?;
            all = part.concat(alloc, all)?;
        }
        Ok(all)
    }

    // `{[*0] | r}`.
    fn optional(self, alloc: Global) -> Result<MeasuredSere, SugarFault>
        ensures { GivesSequence result (optional self) }
    {
        MeasuredSere::empty().either(alloc, self)
    }

    /// `r[*i:j]`: `r[*i]`, and then `r` or nothing for each count between.
    #[tactic(auto, using(crate::proofs::Sizes::times_holds))]
    pub fn between(self, alloc: Global, low: u64, high: u64) -> Result<MeasuredSere, SugarFault>
        ensures { GivesSequence result (between low high self) }
    {
        if high <= low {
            return self.times(alloc, low);
        }
        if low == 0 {
            return self.optional(alloc)?.times(alloc, high);
        }
        let first = self.copy(alloc)?.times(alloc, low)?;
        let rest = self.optional(alloc)?.times(alloc, high - low)?;
        first.concat(alloc, rest)
    }

    /// `r[*i:inf]`: `r[*i] ; r[*]`, and `r[*]` for 0.
    pub fn at_least(self, alloc: Global, low: u64) -> Result<MeasuredSere, SugarFault>
        ensures { GivesSequence result (at_least low self) }
    {
        if low == 0 {
            return self.star(alloc);
        }
        let first = self.copy(alloc)?.times(alloc, low)?;
        let rest = self.star(alloc)?;
        first.concat(alloc, rest)
    }

    /// `r[*count]`.
    pub fn repeated(self, alloc: Global, count: Count) -> Result<MeasuredSere, SugarFault>
        ensures { GivesSequence result (repeated count self) }
    {
        match count {
            Count::Times(count) => self.times(alloc, count),
            Count::Between(low, high) => self.between(alloc, low, high),
            Count::AtLeast(low) => self.at_least(alloc, low),
        }
    }

    // `(!b)[*]`.
    fn absence(alloc: Global, test: MeasuredBool) -> Result<MeasuredSere, SugarFault>
        ensures { GivesSequence result (absence test) }
    {
        MeasuredSere::one(test.not(alloc)?)?.star(alloc)
    }

    /// `b[->]`: `{(!b)[*] ; b}`.
    pub fn goto(alloc: Global, test: MeasuredBool) -> Result<MeasuredSere, SugarFault>
        ensures { GivesSequence result (goto test) }
    {
        let absence = MeasuredSere::absence(alloc, test.copy(alloc)?)?;
        absence.concat(alloc, MeasuredSere::one(test)?)
    }

    /// `b[->count]`: `b[->]` repeated.
    #[tactic(auto, using(crate::proofs::Sizes::repeated_holds, crate::proofs::Sizes::repeated_zero))]
    pub fn goto_repeated(
        alloc: Global,
        test: MeasuredBool,
        count: Count,
    ) -> Result<MeasuredSere, SugarFault>
        ensures { GivesSequence result (goto_repeated count test) }
    {
        if count.is_zero() {
            return Ok(MeasuredSere::empty());
        }
        MeasuredSere::goto(alloc, test)?.repeated(alloc, count)
    }

    /// `b[=count]`: `b[->count] ; (!b)[*]`.
    pub fn occurrences(
        alloc: Global,
        test: MeasuredBool,
        count: Count,
    ) -> Result<MeasuredSere, SugarFault>
        ensures { GivesSequence result (occurrences count test) }
    {
        let absence = MeasuredSere::absence(alloc, test.copy(alloc)?)?;
        MeasuredSere::goto_repeated(alloc, test, count)?.concat(alloc, absence)
    }
}
