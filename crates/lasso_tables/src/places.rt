ghost use Rattle.std.specs.Prelude.{◌≡◌, ◌==◌, ◌+◌, ◌^◌, ◌<◌, ◌≤◌, suc, nat_lt, if◌then◌else◌, IfOk};
ghost use Rattle.psl_tree.specs.Holds.{holds};
ghost use Rattle.psl_tree.specs.Trees.{boolean_of};
ghost use Rattle.alternating_theory.specs.Courses.{next_place, places};
ghost use Rattle.lasso_tables.specs.Seen.{seen, seen_at};
ghost use Rattle.lasso_tables.specs.Tables.{Leads};

use psl_base::NoMemory;
use psl_tree::{Bool, Letter, Word, holds};
use std::alloc::Global;

/// Whether a Boolean holds on the letter at a place of the word, counted from 0, or of its dual where that is asked.
pub fn holds_at(word: &Word, flipped: bool, place: usize, test: &Bool) -> bool
    ensures { result ≡ holds (seen_at word.now flipped place) (boolean_of test.now) }
{
    let stem = word.stem.as_slice();
    if place < stem.len() {
        return holds_seen(&stem[place], flipped, test);
    }
    let looped = word.looped.as_slice();
    let later = place - stem.len();
    if later < looped.len() {
        return holds_seen(&looped[later], flipped, test);
    }
    (later == looped.len()) != flipped
}

// Whether a Boolean holds on a letter, or on its dual.
fn holds_seen(letter: &Letter, flipped: bool, test: &Bool) -> bool
    ensures { result ≡ holds (seen flipped letter.now) (boolean_of test.now) }
{
    match letter {
        Letter::Top => !flipped,
        Letter::Bottom => flipped,
        Letter::Holds(_) => holds(letter, test),
    }
}

/// The next place of each place of the word, and of the two behind it: after the last one of the loop comes its first.
///
/// # Errors
///
/// `NoMemory` if memory is refused.
#[tactic(auto, using(crate::proofs::Pushed::leads_push, crate::proofs::Pushed::leads_none))]
pub fn next_places(alloc: Global, word: &Word) -> Result<Vec<usize>, NoMemory>
    ensures { IfOk result (λ next. Leads (places word.now + 2) (λ place. next_place word.now place) next.items) }
{
    let stem = word.stem.as_slice().len();
    let places = stem + word.looped.as_slice().len();
    let count = places + 2;
    let mut next = Vec::new(alloc);
    for place in 0..count {
        next.push(following(stem, places, place))?;
    }
    Ok(next)
}

// The place after a place.
fn following(stem: usize, places: usize, place: usize) -> usize
    requires { place + 1 < 2 ^ 64 }
    ensures { result ≡ (if nat_lt (suc place) places then suc place else if suc place == places then stem else place) }
{
    if place + 1 < places {
        place + 1
    } else if place + 1 == places {
        stem
    } else {
        place
    }
}
