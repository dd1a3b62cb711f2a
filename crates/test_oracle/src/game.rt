ghost use Rattle.std.specs.Prelude.{◌<◌, length};

use alternating::{Alternating, Positive};
use psl_base::NoMemory;
use psl_tree::{Bool, Letter, Word, holds};
use std::alloc::Global;

/// For each place of a word a value of each obligation.
type Values = Vec<Vec<bool>>;

/// The values of what is owed at a place.
#[derive(Clone, Copy)]
struct Owed<'a> {
    values: &'a Values,
    place: usize,
}

/// An automaton and the word that it reads, or the dual of that word, in which Top and Bottom are exchanged.
#[derive(Clone, Copy)]
pub struct Game<'a> {
    pub automaton: &'a Alternating,
    pub word: &'a Word,
    pub flipped: bool,
}

impl Game<'_> {
    /// Whether the automaton accepts a word with a loop, by the game of its obligations: what is owed at a place is met by
    /// its letter and by what is owed at the next place, and on every path of what is owed an accepting obligation comes
    /// again and again, unless the path ends. All values are true at first; then, until nothing changes, what accepting
    /// obligations may owe is only what was met before.
    pub fn accepts(self, alloc: Global) -> Result<bool, NoMemory> {
        let mut kept = self.constant(alloc, true)?;
        for _round in 0..=self.cells() {
            let reached = self.reached(alloc, &kept)?;
            let settled = are_equal(&kept, &reached);
            kept = reached;
            if settled {
                break;
            }
        }
        Ok(value(&kept, 0, self.automaton.start()))
    }

    fn places(self) -> usize {
        let Word { stem, looped } = self.word;
        stem.len().saturating_add(looped.len())
    }

    /// How many values there are. No more often than that can one of them change in one direction.
    fn cells(self) -> usize {
        self.places().saturating_mul(self.automaton.len() as usize)
    }

    fn letter_at(&self, place: usize) -> Option<&Letter> {
        let Word { stem, looped } = self.word;
        match place.checked_sub(stem.len()) {
            None => stem.as_slice().get(place),
            Some(place) => looped.as_slice().get(place),
        }
    }

    /// The place behind a place, which behind the last one is the first of the loop.
    fn next_place(self, place: usize) -> usize {
        let next = place.saturating_add(1);
        if next < self.places() {
            next
        } else {
            self.word.stem.len()
        }
    }

    fn constant(self, alloc: Global, value: bool) -> Result<Values, NoMemory> {
        let mut values = Vec::new(alloc);
        for _place in 0..self.places() {
            values.push(vec![in alloc; value; self.automaton.len() as usize]?)?;
        }
        Ok(values)
    }

    /// What is met where accepting obligations may owe what is kept, and all others lead to accepting ones in finitely
    /// many steps.
    fn reached(self, alloc: Global, kept: &Values) -> Result<Values, NoMemory> {
        let mut reached = self.constant(alloc, false)?;
        for _round in 0..=self.cells() {
            let next = self.round(alloc, kept, &reached)?;
            let settled = are_equal(&reached, &next);
            reached = next;
            if settled {
                break;
            }
        }
        Ok(reached)
    }

    /// One step more of this.
    fn round(self, alloc: Global, kept: &Values, reached: &Values) -> Result<Values, NoMemory> {
        let mut values = Vec::new(alloc);
        for place in 0..self.places() {
            values.push(self.at_place(alloc, place, kept, reached)?)?;
        }
        Ok(values)
    }

    fn at_place(
        self,
        alloc: Global,
        place: usize,
        kept: &Values,
        reached: &Values,
    ) -> Result<Vec<bool>, NoMemory> {
        let mut values = Vec::new(alloc);
        for number in 0..self.automaton.len() {
            let later = if self.automaton.accepting(number) {
                kept
            } else {
                reached
            };
            values.push(self.is_met(number, place, later))?;
        }
        Ok(values)
    }

    /// Whether what an obligation asks at a place is met with these values.
    fn is_met(self, number: u32, place: usize, later: &Values) -> bool
        requires { number < length self.automaton.now.obligations }
    {
        match self.letter_at(place) {
            None => false,
            Some(letter) => {
                let owed = Owed {
                    values: later,
                    place: self.next_place(place),
                };
                self.meets(self.automaton.delta(number), letter, owed)
            }
        }
    }

    fn meets(self, delta: &Positive, letter: &Letter, owed: Owed) -> bool {
        match delta {
            Positive::Const(value) => *value,
            Positive::Holds(test) => self.holds(letter, test),
            Positive::Owed(number) => value(owed.values, owed.place, *number),
            Positive::And(left, right) => {
                self.meets(left, letter, owed) && self.meets(right, letter, owed)
            }
            Positive::Or(left, right) => {
                self.meets(left, letter, owed) || self.meets(right, letter, owed)
            }
        }
    }

    fn holds(self, letter: &Letter, test: &Bool) -> bool {
        match letter {
            Letter::Top => !self.flipped,
            Letter::Bottom => self.flipped,
            Letter::Holds(_) => holds(letter, test),
        }
    }
}

fn value(values: &Values, place: usize, number: u32) -> bool {
    match values.get(place) {
        None => false,
        Some(values) => matches!(values.get(number as usize), Some(true)),
    }
}

fn are_equal(left: &Values, right: &Values) -> bool {
    left.as_slice() == right.as_slice()
}
