ghost use Rattle.std.specs.Prelude.{◌≡◌, ◌↔◌, ◌≤◌, ◌<◌, ◌*◌, ℕ, false, length, replicate, slice_set, IsTrue, IfOk};
ghost use Rattle.alternating.specs.Packed.{is_set};
ghost use Rattle.alternating.specs.Stepped.{value_at};

use crate::letter::{is_set, with_bit};
use psl_base::NoMemory;
use std::alloc::Global;
use std::marker::Model;

/// Truth values, one for each obligation, packed. Contracts see them as the list of the values.
#[derive(Debug, Drop)]
pub struct Truths {
    count: u32,
    words: Vec<u32>,
}

impl Model for Truths {
    ghost use Rattle.std.specs.Prelude.{List, Bool};
    ghost use Rattle.std.specs.Coded.{coded_list, coded_bool};

    ghost Value = { List Bool };

    ghost coded = { coded_list coded_bool };

    ghost use Rattle.alternating.specs.TruthsView.{truths_of, HasBits};

    ghost view = { truths_of };

    ghost invariant = { HasBits };
}

impl Truths {
    /// So many values, all false.
    pub fn new(alloc: Global, count: u32) -> Result<Truths, NoMemory>
        ensures { IfOk result (λ truths. truths ≡ replicate count false) }
    {
        let words = vec![in alloc; 0; count.div_ceil(32) as usize]?;
        Ok(Truths { count, words })
    }

    /// The value of an obligation, by its number.
    pub fn get(&self, q: u32) -> bool
        requires { q < length self.now }
        ensures { result ≡ value_at self.now q }
    {
        is_set(self.words.as_slice(), q as usize)
    }

    /// Writes the value of an obligation, by its number.
    pub fn set(&mut self, q: u32, value: bool)
        requires { q < length self.old }
        ensures { self.new ≡ slice_set self.old q value }
    {
        let place = (q / 32) as usize;
        self.words[place] = with_bit(self.words[place], q % 32, value);
    }

    /// Whether two lists of values are equal.
    pub fn same(&self, other: &Truths) -> bool
        ensures { IsTrue result ↔ (self.now ≡ other.now) }
    {
        self.count == other.count && self.words.as_slice() == other.words.as_slice()
    }

    /// The values as words: the bit of a number, the lowest of the first word first, is the value of
    /// that number.
    pub fn words(&self) -> &[u32]
        ensures room { length self.now ≤ 32 * length result.now }
        ensures bits { (number : ℕ) → number < length self.now → is_set result.now number ≡ value_at self.now number }
    {
        self.words.as_slice()
    }
}
