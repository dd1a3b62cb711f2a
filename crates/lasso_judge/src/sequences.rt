ghost use Rattle.std.specs.Prelude.{◌≡◌, ◌+◌, ◌-◌, ◌*◌, ◌<◌, ◌≤◌, true, length, IfOk};
ghost use Rattle.psl_tree.specs.Clockless.{HasNoClock};
ghost use Rattle.psl_tree.specs.Counts.{states_of};
ghost use Rattle.psl_tree.specs.Trees.{Formula, Strong, Weak, Suffix, sequence_of};
ghost use Rattle.lasso_judge.specs.Cells.{cell_of};
ghost use Rattle.lasso_tables.specs.Seen.{course_by, IsWhole};
ghost use Rattle.lasso_tables.specs.Tables.{value_at, Has, Tells};

use crate::chart::{Chart, Charted};
use crate::hits::hit_cells;
use crate::lasts::fallen_cells;
use lasso_tables::opposites;
use psl_base::NoMemory;
use psl_tree::{MOST_STATES, Sere, Word};
use std::alloc::Global;

/// At which places a prefix satisfies the sequence tightly.
#[inline(never)]
pub(crate) fn strong(
    alloc: Global,
    r: &Sere,
    word: &Word,
    next: &[usize],
    flipped: bool,
) -> Result<Vec<bool>, NoMemory>
    requires plain { HasNoClock (sequence_of r.now) }
    requires small { states_of (sequence_of r.now) ≤ MOST_STATES }
    requires whole { IsWhole word.now next.now }
    ensures { IfOk result (λ values.
        Tells (course_by word.now flipped next.now) (length next.now) (Strong (sequence_of r.now)) values.items) }
{
    let chart = Chart::new(alloc, r, word, next, flipped)?;
    let hits = everywhere(alloc, next.len())?;
    let charted = Charted {
        chart: &chart,
        word,
        next,
        flipped,
    };
    let cells = hit_cells(alloc, charted, &hits)?;
    let values = at_starts(alloc, &cells, next.len(), chart.nfa.len())?;
    Ok(values)
}

/// At which places a prefix satisfies the sequence tightly, wherever Top for ever follows the letters up to
/// a place.
#[inline(never)]
pub(crate) fn weak(
    alloc: Global,
    r: &Sere,
    word: &Word,
    next: &[usize],
    flipped: bool,
) -> Result<Vec<bool>, NoMemory>
    requires plain { HasNoClock (sequence_of r.now) }
    requires small { states_of (sequence_of r.now) ≤ MOST_STATES }
    requires whole { IsWhole word.now next.now }
    ensures { IfOk result (λ values.
        Tells (course_by word.now flipped next.now) (length next.now) (Weak (sequence_of r.now)) values.items) }
{
    let chart = Chart::new(alloc, r, word, next, flipped)?;
    let charted = Charted {
        chart: &chart,
        word,
        next,
        flipped,
    };
    let cells = fallen_cells(alloc, charted)?;
    let fallen = at_starts(alloc, &cells, next.len(), chart.nfa.len())?;
    let values = opposites(alloc, &fallen)?;
    Ok(values)
}

/// At which places each prefix of the dual that satisfies the sequence tightly ends where a formula is
/// satisfied: there is no path to an end whose last letter is read where it is not.
#[inline(never)]
pub(crate) fn suffix(
    alloc: Global,
    r: &Sere,
    part: &[bool],
    word: &Word,
    next: &[usize],
    flipped: bool,
) -> Result<Vec<bool>, NoMemory>
    requires plain { HasNoClock (sequence_of r.now) }
    requires small { states_of (sequence_of r.now) ≤ MOST_STATES }
    requires whole { IsWhole word.now next.now }
    requires same { length part.now ≡ length next.now }
    ensures { IfOk result (λ values.
        (formula : Formula) → Tells (course_by word.now flipped next.now) (length next.now) formula part.now
        → Tells (course_by word.now flipped next.now) (length next.now) (Suffix (sequence_of r.now) formula)
        values.items) }
{
    let chart = Chart::new(alloc, r, word, next, !flipped)?;
    let misses = opposites(alloc, part)?;
    let charted = Charted {
        chart: &chart,
        word,
        next,
        flipped: !flipped,
    };
    let cells = hit_cells(alloc, charted, &misses)?;
    let missed = at_starts(alloc, &cells, next.len(), chart.nfa.len())?;
    let values = opposites(alloc, &missed)?;
    Ok(values)
}

#[tactic(auto, using(lasso_tables::proofs::Pushed::has_push, lasso_tables::proofs::Pushed::has_none))]
fn everywhere(alloc: Global, count: usize) -> Result<Vec<bool>, NoMemory>
    ensures { IfOk result (λ values. Has count (λ _. true) values.items) }
{
    let mut values = Vec::new(alloc);
    for _place in 0..count {
        values.push(true)?;
    }
    Ok(values)
}

// The values of the cells of the initial state, which is the last one, at each place.
#[tactic(auto, using(lasso_tables::proofs::Pushed::has_push, lasso_tables::proofs::Pushed::has_none))]
fn at_starts(
    alloc: Global,
    cells: &[bool],
    count: usize,
    states: usize,
) -> Result<Vec<bool>, NoMemory>
    requires all { length cells.now ≡ count * states }
    requires some { 0 < states }
    ensures { IfOk result (λ values.
        Has count (λ place. value_at cells.now (cell_of states place (states - 1))) values.items) }
{
    let mut values = Vec::new(alloc);
    for place in 0..count {
        values.push(cells[place * states + (states - 1)])?;
    }
    Ok(values)
}
