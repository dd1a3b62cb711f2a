ghost use Rattle.std.specs.Prelude.{◌≡◌, ◌&&◌, ◌||◌, ℕ, ◌<◌};
ghost use Rattle.alternating.specs.Packed.{bit};
ghost use Rattle.alternating_blocks.specs.Block.{follows};
ghost use Rattle.alternating_blocks.specs.Words.{InEachView};

// The bit of the last place.
const LAST: u64 = 1 << 63;

/// The values of an obligation at 64 places in the three views: the lowest bit is the value at the first place.
#[derive(Clone, Copy, Debug, PartialEq, Eq)]
pub(crate) struct Words {
    pub(crate) weak: u64,
    pub(crate) neutral: u64,
    pub(crate) strong: u64,
}

impl Words {
    /// The same word in each view.
    pub(crate) fn same(word: u64) -> Words
        ensures { InEachView (λ view. view result ≡ word) }
    {
        Words {
            weak: word,
            neutral: word,
            strong: word,
        }
    }

    /// Place by place whether both values are true.
    pub(crate) fn and(self, other: Words) -> Words
        ensures { InEachView (λ view. (place : ℕ) → bit (view result) place ≡ (bit (view self) place && bit (view other) place)) }
    {
        Words {
            weak: self.weak & other.weak,
            neutral: self.neutral & other.neutral,
            strong: self.strong & other.strong,
        }
    }

    /// Place by place whether one of two values is true.
    pub(crate) fn or(self, other: Words) -> Words
        ensures { InEachView (λ view. (place : ℕ) → bit (view result) place ≡ (bit (view self) place || bit (view other) place)) }
    {
        Words {
            weak: self.weak | other.weak,
            neutral: self.neutral | other.neutral,
            strong: self.strong | other.strong,
        }
    }

    /// The values one place on, of which the last comes from other words.
    pub(crate) fn next(self, after: Words) -> Words
        ensures { InEachView (λ view. (place : ℕ) → place < 64 → bit (view result) place ≡ follows (view self) (view after) place) }
    {
        Words {
            weak: next(self.weak, after.weak),
            neutral: next(self.neutral, after.neutral),
            strong: next(self.strong, after.strong),
        }
    }
}

/// A word that has the same value at all places.
pub(crate) fn filled(value: bool) -> u64
    ensures { (place : ℕ) → place < 64 → bit result place ≡ value }
{
    if value { u64::MAX } else { 0 }
}

fn next(word: u64, after: u64) -> u64
    ensures { (place : ℕ) → place < 64 → bit result place ≡ follows word after place }
{
    word >> 1 | after & LAST
}

/// The words that an obligation has which owes itself, from what it asks with no value of itself and with all.
pub(crate) fn closed(least: Words, most: Words) -> Words {
    Words {
        weak: closure(least.weak, most.weak),
        neutral: closure(least.neutral, most.neutral),
        strong: closure(least.strong, most.strong),
    }
}

// A place has the value that it has with none after it, or the next place's, if it has it with that: the next 1, 2,
// 4 .. places are followed at once.
fn closure(least: u64, most: u64) -> u64 {
    let mut word = least;
    let mut passes = most;
    for shift in [1, 2, 4, 8, 16, 32] {
        word |= passes & word >> shift;
        passes &= passes >> shift;
    }
    word
}
