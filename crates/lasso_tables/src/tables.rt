ghost use Rattle.std.specs.Prelude.{◌≡◌, ◌<◌, ◌&&◌, ℕ, not, length, slice_index, IfOk};
ghost use Rattle.psl_tree.specs.Holds.{holds};
ghost use Rattle.psl_tree.specs.Trees.{boolean_of};
ghost use Rattle.lasso_tables.specs.Seen.{seen_at};
ghost use Rattle.lasso_tables.specs.Tables.{Has, value_at};

use crate::places::holds_at;
use psl_base::NoMemory;
use psl_tree::{Bool, Word};
use std::alloc::Global;

/// At which of so many first places a Boolean holds, on the word or on its dual where that is asked.
///
/// # Errors
///
/// `NoMemory` if memory is refused.
#[inline(never)]
#[tactic(auto, using(crate::proofs::Pushed::has_push, crate::proofs::Pushed::has_none))]
pub fn held(
    alloc: Global,
    test: &Bool,
    word: &Word,
    count: usize,
    flipped: bool,
) -> Result<Vec<bool>, NoMemory>
    ensures { IfOk result (λ values.
        Has count (λ place. holds (seen_at word.now flipped place) (boolean_of test.now)) values.items) }
{
    let mut values = Vec::new(alloc);
    for place in 0..count {
        values.push(holds_at(word, flipped, place, test))?;
    }
    Ok(values)
}

/// The other value at each place.
///
/// # Errors
///
/// `NoMemory` if memory is refused.
#[inline(never)]
#[tactic(auto, using(crate::proofs::Pushed::has_push, crate::proofs::Pushed::has_none))]
pub fn opposites(alloc: Global, part: &[bool]) -> Result<Vec<bool>, NoMemory>
    ensures { IfOk result (λ values. Has (length part.now) (λ place. not (value_at part.now place)) values.items) }
{
    let mut values = Vec::new(alloc);
    for place in 0..part.len() {
        values.push(!part[place])?;
    }
    Ok(values)
}

/// At which places both are true, of two tables of one length.
///
/// # Errors
///
/// `NoMemory` if memory is refused.
#[inline(never)]
#[tactic(auto, using(crate::proofs::Pushed::has_push, crate::proofs::Pushed::has_none))]
pub fn both(alloc: Global, left: &[bool], right: &[bool]) -> Result<Vec<bool>, NoMemory>
    requires { length left.now ≡ length right.now }
    ensures { IfOk result (λ values.
        Has (length left.now) (λ place. value_at left.now place && value_at right.now place) values.items) }
{
    let mut values = Vec::new(alloc);
    for place in 0..left.len() {
        values.push(left[place] && right[place])?;
    }
    Ok(values)
}

/// The values at the next places, each of which is a place of the table.
///
/// # Errors
///
/// `NoMemory` if memory is refused.
#[inline(never)]
#[tactic(auto, using(crate::proofs::Pushed::has_push, crate::proofs::Pushed::has_none))]
pub fn after_step(alloc: Global, part: &[bool], next: &[usize]) -> Result<Vec<bool>, NoMemory>
    requires { (place : ℕ) → place < length next.now → slice_index next.now place < length part.now }
    ensures { IfOk result (λ values.
        Has (length next.now) (λ place. value_at part.now (slice_index next.now place)) values.items) }
{
    let mut values = Vec::new(alloc);
    for place in next {
        values.push(part[*place])?;
    }
    Ok(values)
}
