use psl_base::{Items, NoMemory};
use psl_tree::{Bool, is_in_range};
use std::alloc::Global;
use vcd_reader::Recording;

/// A letter: a sample of a recording by its number, or one of the two letters that no recording has.
#[derive(Clone, Copy)]
pub enum Letter {
    Top,
    Bottom,
    Sample(u32),
}

/// A word: letters, and the letter that follows them for ever, if one does.
#[derive(Drop)]
pub struct Word {
    pub letters: Items<Letter>,
    pub past: Option<Letter>,
}

/// How many places of the letter that follows for ever are looked at. All later suffixes are alike,
/// and no sequence of the tables needs more letters than these past a recording.
const PAST: usize = 5;

/// The samples of a recording, and what follows them.
pub fn sampled(alloc: Global, samples: u32, past: Option<Letter>) -> Result<Word, NoMemory> {
    let mut letters = Items::new(alloc);
    for sample in 0..samples {
        letters.push(Letter::Sample(sample))?;
    }
    Ok(Word { letters, past })
}

/// The places of a word that are looked at are those below this one.
pub fn places(word: &Word) -> usize {
    match word.past {
        None => word.letters.len(),
        Some(_) => word.letters.len().saturating_add(PAST),
    }
}

/// The letter at a place, if the word has that place.
pub fn letter_at(word: &Word, place: usize) -> Option<Letter> {
    match word.letters.as_slice().get(place) {
        Some(letter) => Some(*letter),
        None => word.past,
    }
}

/// The letters from a place to before another.
pub fn between(
    alloc: Global,
    word: &Word,
    from: usize,
    to: usize,
) -> Result<Items<Letter>, NoMemory> {
    let mut letters = Items::new(alloc);
    for place in from..to {
        if let Some(letter) = letter_at(word, place) {
            letters.push(letter)?;
        }
    }
    Ok(letters)
}

/// So many first letters, and then Top for ever.
pub fn cut(alloc: Global, word: &Word, count: usize) -> Result<Word, NoMemory> {
    Ok(Word {
        letters: between(alloc, word, 0, count)?,
        past: Some(Letter::Top),
    })
}

/// The word from a place on.
pub fn suffix(alloc: Global, word: &Word, from: usize) -> Result<Word, NoMemory> {
    Ok(Word {
        letters: between(alloc, word, from, word.letters.len())?,
        past: word.past,
    })
}

/// The letter with Top and Bottom swapped.
pub fn dual_letter(letter: Letter) -> Letter {
    match letter {
        Letter::Top => Letter::Bottom,
        Letter::Bottom => Letter::Top,
        Letter::Sample(sample) => Letter::Sample(sample),
    }
}

/// The word with Top and Bottom swapped.
pub fn dual(alloc: Global, word: &Word) -> Result<Word, NoMemory> {
    let mut letters = Items::new(alloc);
    for letter in word.letters.as_slice() {
        letters.push(dual_letter(*letter))?;
    }
    let past = match word.past {
        None => None,
        Some(letter) => Some(dual_letter(letter)),
    };
    Ok(Word { letters, past })
}

/// Whether a letter satisfies a Boolean: all do on Top, and none on Bottom.
pub fn holds(recording: &Recording, letter: Letter, test: &Bool) -> bool {
    match letter {
        Letter::Top => true,
        Letter::Bottom => false,
        Letter::Sample(sample) => holds_at(recording, sample, test),
    }
}

/// Whether a letter satisfies the negation of a Boolean.
pub fn holds_not(recording: &Recording, letter: Letter, test: &Bool) -> bool {
    match letter {
        Letter::Top => true,
        Letter::Bottom => false,
        Letter::Sample(sample) => !holds_at(recording, sample, test),
    }
}

fn holds_at(recording: &Recording, sample: u32, test: &Bool) -> bool {
    match test {
        Bool::Const(value) => *value,
        Bool::Test(atom) => {
            sample < recording.samples()
                && is_in_range(recording.names(), atom)
                && recording.bit(sample, atom)
        }
        Bool::Not(part) => !holds_at(recording, sample, part),
        Bool::And(left, right) => {
            holds_at(recording, sample, left) && holds_at(recording, sample, right)
        }
        Bool::Or(left, right) => {
            holds_at(recording, sample, left) || holds_at(recording, sample, right)
        }
    }
}
