ghost use Rattle.std.specs.Prelude.{◌≡◌, ◌*◌, ◌≤◌, ◌^◌, ◌<◌, length, All, IsTrue, IfOk};
ghost use Rattle.alternating_theory.specs.Atoms.{AtomsOfObligations, is_among};
ghost use Rattle.alternating_blocks.specs.Values.{HasLengths};
ghost use Rattle.vcd_reader.specs.Sampled.{AtomInRange, letters_of};
ghost use Rattle.wave_judge.specs.Values.{AreAnswers, AreValuesAt, IsStand};

use crate::columns::pack_block;
use crate::packing::pack;
use alternating::{Alternating, Truths};
use alternating_blocks::{Blocks, Letters, Values};
use psl_base::NoMemory;
use psl_tree::Atoms;
use std::alloc::Global;
use std::mem;
use vcd_reader::Recording;

/// An automaton's values on a recording in the three views.
#[derive(Clone, Copy, Debug)]
pub(crate) struct Answers {
    pub weak: bool,
    pub neutral: bool,
    pub strong: bool,
}

/// Where a pass stands: the values of all obligations at the first sample of a block.
#[derive(Debug, Drop)]
pub(crate) struct Stand {
    /// How many samples the word has: the first ones of the recording.
    pub count: u32,
    /// Which block of 64 samples, counted from 0.
    pub block: u32,
    pub values: Values,
}

/// What a pass goes over: the automaton's values on the first samples of a recording, of which these atoms are looked at.
#[derive(Clone, Copy)]
pub(crate) struct Pass<'a> {
    pub automaton: &'a Alternating,
    pub atoms: &'a Atoms,
    pub recording: &'a Recording,
}

impl Pass<'_> {
    /// The answers on the whole recording.
    pub(crate) fn answers(&self, alloc: Global) -> Result<Answers, NoMemory>
        requires tested { AtomsOfObligations (λ atom. IsTrue (is_among self.now.atoms.now atom)) self.now.automaton.now.obligations }
        requires in_range { All (AtomInRange self.now.recording.now.names) self.now.atoms.now }
        requires few { length self.now.atoms.now < 2 ^ 32 }
        ensures { IfOk result (AreAnswers self.now.automaton.now (letters_of self.now.recording.now)) }
    {
        let mut blocks = Blocks::new(alloc, self.automaton)?;
        let first = self.stand(alloc, &mut blocks, self.recording.samples(), 0)?;
        let start = self.automaton.start();
        Ok(Answers {
            weak: first.values.weak.get(start),
            neutral: first.values.neutral.get(start),
            strong: first.values.strong.get(start),
        })
    }

    /// The values on so many first samples, from the last of them back to the first of a block: past the last whole
    /// block one sample at a time, then 64 at a time.
    pub(crate) fn stand(
        &self,
        alloc: Global,
        blocks: &mut Blocks<'_>,
        count: u32,
        block: u32,
    ) -> Result<Stand, NoMemory>
        requires tested { AtomsOfObligations (λ atom. IsTrue (is_among self.now.atoms.now atom)) self.now.automaton.now.obligations }
        requires in_range { All (AtomInRange self.now.recording.now.names) self.now.atoms.now }
        requires few { length self.now.atoms.now < 2 ^ 32 }
        requires blocks { blocks.old ≡ self.now.automaton.now }
        requires count { count ≤ length self.now.recording.now.samples }
        requires block { 64 * block ≤ count }
        ensures blocks { blocks.new ≡ blocks.old }
        ensures stand { IfOk result (IsStand self.now.automaton.now self.now.recording.now count block) }
    {
        let whole = count / 64;
        let values = self.last_samples(alloc, count, 64 * whole)?;
        let last = Stand {
            count,
            block: whole,
            values,
        };
        self.back(alloc, blocks, last, block)
    }

    /// The values at a sample, by a step for each sample from there on.
    fn last_samples(&self, alloc: Global, count: u32, from: u32) -> Result<Values, NoMemory>
        requires tested { AtomsOfObligations (λ atom. IsTrue (is_among self.now.atoms.now atom)) self.now.automaton.now.obligations }
        requires in_range { All (AtomInRange self.now.recording.now.names) self.now.atoms.now }
        requires few { length self.now.atoms.now < 2 ^ 32 }
        requires count { count ≤ length self.now.recording.now.samples }
        requires from { from ≤ count }
        ensures { IfOk result (AreValuesAt self.now.automaton.now self.now.recording.now count from) }
    {
        let mut letter = Truths::new(alloc, self.atoms.len() as u32)?;
        let mut hints = vec![in alloc; 0; self.atoms.len()]?;
        let mut next = Values::past(alloc, self.automaton)?;
        let mut now = Values::past(alloc, self.automaton)?;
        for sample in (from..count).rev() {
            pack(
                self.recording,
                sample,
                self.atoms,
                hints.as_mut_slice(),
                &mut letter,
            );
            mem::swap(&mut now, &mut next);
            now.step_back(self.automaton, letter.words(), self.atoms, &next);
        }
        Ok(now)
    }

    /// The values at the first sample of an earlier block, from those at the first of a later one, or of the same.
    pub(crate) fn back(
        &self,
        alloc: Global,
        blocks: &mut Blocks<'_>,
        from: Stand,
        block: u32,
    ) -> Result<Stand, NoMemory>
        requires tested { AtomsOfObligations (λ atom. IsTrue (is_among self.now.atoms.now atom)) self.now.automaton.now.obligations }
        requires in_range { All (AtomInRange self.now.recording.now.names) self.now.atoms.now }
        requires few { length self.now.atoms.now < 2 ^ 32 }
        requires blocks { blocks.old ≡ self.now.automaton.now }
        requires fits { 64 * from.block < 2 ^ 32 }
        requires block { block ≤ from.block }
        requires from { AreValuesAt self.now.automaton.now self.now.recording.now from.count (64 * from.block) from.values }
        ensures blocks { blocks.new ≡ blocks.old }
        ensures stand { IfOk result (IsStand self.now.automaton.now self.now.recording.now from.count block) }
    {
        let mut columns = vec![in alloc; 0; self.atoms.len()]?;
        let mut hints = vec![in alloc; 0; self.atoms.len()]?;
        let mut next = Values::past(alloc, self.automaton)?;
        let Stand {
            count,
            block: last,
            values: mut now,
        } = from;
        for number in (block..last).rev() {
            let packed = columns.as_mut_slice();
            pack_block(
                self.recording,
                64 * number,
                self.atoms,
                hints.as_mut_slice(),
                packed,
            );
            mem::swap(&mut now, &mut next);
            let letters = Letters {
                atoms: self.atoms,
                columns: &*packed,
            };
            blocks.step_back(alloc, &letters, &next, &mut now)?;
        }
        Ok(Stand {
            count,
            block,
            values: now,
        })
    }

    /// The same once more.
    pub(crate) fn copy_of(&self, alloc: Global, stand: &Stand) -> Result<Stand, NoMemory>
        requires { HasLengths self.now.automaton.now stand.now.values }
        ensures { IfOk result (λ copy. copy ≡ stand.now) }
    {
        let count = self.automaton.len();
        Ok(Stand {
            count: stand.count,
            block: stand.block,
            values: Values {
                weak: copied(alloc, count, &stand.values.weak)?,
                neutral: copied(alloc, count, &stand.values.neutral)?,
                strong: copied(alloc, count, &stand.values.strong)?,
            },
        })
    }
}

// So many values once more.
fn copied(alloc: Global, count: u32, truths: &Truths) -> Result<Truths, NoMemory>
    requires { length truths.now ≡ count }
    ensures { IfOk result (λ copy. copy ≡ truths.now) }
{
    let mut copy = Truths::new(alloc, count)?;
    for number in 0..count {
        copy.set(number, truths.get(number));
    }
    Ok(copy)
}
