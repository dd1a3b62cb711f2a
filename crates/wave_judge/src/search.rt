ghost use Rattle.std.specs.Prelude.{◌≡◌, ◌+◌, ◌-◌, ◌*◌, ◌≤◌, ◌^◌, ◌<◌, true, length, All, IsTrue, IfOk};
ghost use Rattle.alternating_theory.specs.Atoms.{AtomsOfObligations, is_among};
ghost use Rattle.vcd_reader.specs.Sampled.{AtomInRange, letters_of};
ghost use Rattle.wave_judge.specs.Sides.{values_in, settles, is_settled, IsSpan, IsStep};
ghost use Rattle.wave_judge.specs.Values.{IsStand, first_letters};

use crate::pass::{Pass, Stand};
use alternating::Truths;
use alternating_blocks::{Blocks, Values};
use psl_base::NoMemory;
use std::alloc::Global;

// How far before the end of the shorter word two words are compared, as a part of the recording: so far before it few
// obligations still depend on where the word ends.
const PARTS: u32 = 128;

/// How letters settle a verdict.
#[derive(Clone, Copy, Debug)]
pub(crate) enum Side {
    /// The directive fails: the weak view does not satisfy it.
    Against,
    /// It holds strongly: the strong view satisfies it.
    For,
}

impl Side {
    // The values in the view that tells of it.
    fn values(self, values: &Values) -> &Truths
        ensures { result.now ≡ values_in self values.now }
    {
        match self {
            Side::Against => &values.weak,
            Side::For => &values.strong,
        }
    }

    // Whether the formula's value in that view settles it.
    fn settles(self, value: bool) -> bool
        ensures { result ≡ settles self value }
    {
        match self {
            Side::Against => !value,
            Side::For => value,
        }
    }
}

/// Two words, of which the shorter does not settle the verdict and the longer does, at the same block.
#[derive(Debug, Drop)]
pub(crate) struct Span {
    pub(crate) below: Stand,
    pub(crate) above: Stand,
}

/// The search for the least count of first samples that settles a verdict.
#[derive(Clone, Copy)]
pub(crate) struct Search<'a> {
    pub(crate) pass: Pass<'a>,
    pub(crate) side: Side,
}

impl Search<'_> {
    /// The least count. All the samples settle the verdict.
    pub(crate) fn point(&self, alloc: Global) -> Result<u32, NoMemory>
        requires tested { AtomsOfObligations (λ atom. IsTrue (is_among self.now.pass.atoms.now atom)) self.now.pass.automaton.now.obligations }
        requires in_range { All (AtomInRange self.now.pass.recording.now.names) self.now.pass.atoms.now }
        requires few { length self.now.pass.atoms.now < 2 ^ 32 }
        requires settled { is_settled self.now.side self.now.pass.automaton.now (letters_of self.now.pass.recording.now) ≡ true }
        ensures { IfOk result (IsStep self.now.side self.now.pass.automaton.now self.now.pass.recording.now) }
    {
        let mut blocks = Blocks::new(alloc, self.pass.automaton)?;
        let below = self.pass.stand(alloc, &mut blocks, 0, 0)?;
        if self.told(&below) {
            return Ok(0);
        }
        let samples = self.pass.recording.samples();
        let above = self.pass.stand(alloc, &mut blocks, samples, 0)?;
        let mut span = Span { below, above };
        while span.above.count - span.below.count > 1 {
            span = self.narrowed(alloc, &mut blocks, span)?;
        }
        Ok(span.above.count)
    }

    // One with half the samples between. Where the middle settles the verdict, it is the longer word, at the same block.
    // Where it does not, it is the shorter one, and both are found at a later block.
    fn narrowed(&self, alloc: Global, blocks: &mut Blocks<'_>, span: Span) -> Result<Span, NoMemory>
        requires tested { AtomsOfObligations (λ atom. IsTrue (is_among self.now.pass.atoms.now atom)) self.now.pass.automaton.now.obligations }
        requires in_range { All (AtomInRange self.now.pass.recording.now.names) self.now.pass.atoms.now }
        requires few { length self.now.pass.atoms.now < 2 ^ 32 }
        requires blocks { blocks.old ≡ self.now.pass.automaton.now }
        requires span { IsSpan self.now.side self.now.pass.automaton.now self.now.pass.recording.now span }
        requires wide { span.below.count + 1 < span.above.count }
        ensures blocks { blocks.new ≡ blocks.old }
        ensures span { IfOk result (IsSpan self.now.side self.now.pass.automaton.now self.now.pass.recording.now) }
        ensures narrower { IfOk result (λ new. new.above.count - new.below.count < span.above.count - span.below.count) }
    {
        let low = span.below.count;
        let high = span.above.count;
        let count = low + (high - low) / 2;
        let middle = self.pass.stand(alloc, blocks, count, span.below.block)?;
        if self.is_settled(alloc, blocks, &span, &middle)? {
            let Span { below, above: _ } = span;
            return Ok(Span {
                below,
                above: middle,
            });
        }
        let block = self.block_before(count);
        Ok(Span {
            below: self.pass.stand(alloc, blocks, count, block)?,
            above: self.pass.stand(alloc, blocks, high, block)?,
        })
    }

    // Whether the word in the middle settles the verdict: where its values at the block are those of the longer word or of
    // the shorter one, so they are at the first sample, since all three have the same letters before the block.
    fn is_settled(
        &self,
        alloc: Global,
        blocks: &mut Blocks<'_>,
        span: &Span,
        middle: &Stand,
    ) -> Result<bool, NoMemory>
        requires tested { AtomsOfObligations (λ atom. IsTrue (is_among self.now.pass.atoms.now atom)) self.now.pass.automaton.now.obligations }
        requires in_range { All (AtomInRange self.now.pass.recording.now.names) self.now.pass.atoms.now }
        requires few { length self.now.pass.atoms.now < 2 ^ 32 }
        requires blocks { blocks.old ≡ self.now.pass.automaton.now }
        requires span { IsSpan self.now.side self.now.pass.automaton.now self.now.pass.recording.now span.now }
        requires middle { IsStand self.now.pass.automaton.now self.now.pass.recording.now middle.now.count span.now.below.block middle.now }
        ensures blocks { blocks.new ≡ blocks.old }
        ensures settled { IfOk result (λ settled. settled ≡ is_settled self.now.side self.now.pass.automaton.now (first_letters self.now.pass.recording.now middle.now.count)) }
    {
        let values = self.side.values(&middle.values);
        if values.same(self.side.values(&span.above.values)) {
            return Ok(true);
        }
        if values.same(self.side.values(&span.below.values)) {
            return Ok(false);
        }
        let copy = self.pass.copy_of(alloc, middle)?;
        let first = self.pass.back(alloc, blocks, copy, 0)?;
        Ok(self.told(&first))
    }

    // What the values at the first sample tell.
    fn told(&self, first: &Stand) -> bool
        requires { IsStand self.now.pass.automaton.now self.now.pass.recording.now first.now.count 0 first.now }
        ensures { result ≡ is_settled self.now.side self.now.pass.automaton.now (first_letters self.now.pass.recording.now first.now.count) }
    {
        let values = self.side.values(&first.values);
        self.side.settles(values.get(self.pass.automaton.start()))
    }

    // The block at which words are compared that have at least so many samples.
    fn block_before(&self, count: u32) -> u32
        ensures { 64 * result ≤ count }
    {
        (count / 64).saturating_sub(self.pass.recording.samples() / 64 / PARTS)
    }
}
