ghost use Rattle.std.specs.Prelude.{◌≡◌, ◌≤◌, ◌<◌, ◌*◌, ℕ, [], length, IfOk};
ghost use Rattle.alternating_blocks.specs.Values.{StepsAll, HasLengths, HasCounts, AreValues, ShowAt};

use crate::words::{Words, filled};
use alternating::{Alternating, Truths};
use psl_base::NoMemory;
use psl_tree::Atoms;
use std::alloc::Global;

/// The values of all obligations at one place, in the three views.
#[derive(Debug)]
pub struct Values {
    pub weak: Truths,
    pub neutral: Truths,
    pub strong: Truths,
}

// Written out, so that a caller's proof sees one call where a value is dropped.
impl Drop for Values {
    fn drop(self) {
        let Values {
            weak: _,
            neutral: _,
            strong: _,
        } = self;
    }
}

impl Values {
    /// The values past the last letter of a word.
    pub fn past(alloc: Global, automaton: &Alternating) -> Result<Values, NoMemory>
        ensures { IfOk result (AreValues automaton.now []) }
    {
        let mut values = Values {
            weak: Truths::new(alloc, automaton.len())?,
            neutral: Truths::new(alloc, automaton.len())?,
            strong: Truths::new(alloc, automaton.len())?,
        };
        automaton.tops(&mut values.weak);
        automaton.ends(&mut values.neutral);
        automaton.bottoms(&mut values.strong);
        Ok(values)
    }

    /// Writes the values at a place, from its packed letter and the values at the next place.
    pub fn step_back(
        &mut self,
        automaton: &Alternating,
        letter: &[u32],
        atoms: &Atoms,
        next: &Values,
    )
        requires bits { length atoms.now ≤ 32 * length letter.now }
        requires lengths { HasLengths automaton.now self.old }
        requires next_lengths { HasLengths automaton.now next.now }
        ensures steps { StepsAll automaton.now atoms.now letter.now next.now self.new }
        ensures lengths { HasLengths automaton.now self.new }
    {
        automaton.step_back(letter, atoms, &next.weak, &mut self.weak);
        automaton.step_back(letter, atoms, &next.neutral, &mut self.neutral);
        automaton.step_back(letter, atoms, &next.strong, &mut self.strong);
    }

    /// Writes words that have these values at all places.
    pub(crate) fn spread(&self, count: u32, into: &mut [Words])
        requires into_len { length into.old ≡ count }
        requires counts { HasCounts count self.now }
        ensures { (place : ℕ) → place < 64 → ShowAt place count into.new self.now }
    {
        for number in 0..count {
            into[number as usize] = Words {
                weak: filled(self.weak.get(number)),
                neutral: filled(self.neutral.get(number)),
                strong: filled(self.strong.get(number)),
            };
        }
    }

    /// Takes the values at the first place of words.
    pub(crate) fn read_first(&mut self, count: u32, words: &[Words])
        requires words_len { length words.now ≡ count }
        requires counts { HasCounts count self.old }
        ensures counts { HasCounts count self.new }
        ensures first { ShowAt 0 count words.now self.new }
    {
        for number in 0..count {
            let found = words[number as usize];
            self.weak.set(number, found.weak % 2 == 1);
            self.neutral.set(number, found.neutral % 2 == 1);
            self.strong.set(number, found.strong % 2 == 1);
        }
    }
}
