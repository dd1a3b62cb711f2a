ghost use Rattle.std.specs.Prelude.{◌≡◌, ◌+◌, ◌*◌, ◌<◌, ◌≤◌, ◌&&◌, ◌||◌, ℕ, All, [], length, not, nat_lt, replicate};
ghost use Rattle.std.specs.Prelude.{slice_index, IfOk, OnOk};
ghost use Rattle.psl_tree.specs.SequenceAutomata.{state_at};
ghost use Rattle.lasso_judge.specs.MarkingView.{marking_of};
ghost use Rattle.sere_nfa.specs.Views.{edge_of, edges_of};
ghost use Rattle.lasso_judge.specs.Arrows.{edge_at, IsChart, IsDrawn};
ghost use Rattle.lasso_judge.specs.Cells.{fall, fall_all, goes_along, goes_on, lasts_at, NoneGoes};
ghost use Rattle.lasso_judge.specs.Cells.{AreDead, AreFallen, ArePassed, IsFirstFallen};
ghost use Rattle.lasso_judge.specs.Labels.{IsLabelled, IsTold};
ghost use Rattle.lasso_tables.specs.Seen.{course_by, seen_at, IsWhole};
ghost use Rattle.lasso_tables.specs.Tables.{value_at};

use crate::before::cells_before;
use crate::chart::{Chart, Charted};
use crate::labels::known;
use crate::marking::Marking;
use lasso_tables::holds_at;
use psl_base::NoMemory;
use sere_nfa::NfaEdge;
use std::alloc::Global;

/// The cells from which the sequence does not last: some cut of the course leaves no prefix of it. A cell
/// falls once each arrow that can be taken from it leads to no end and to a cell that fell. A cell keeps how
/// many of its first edges can not be taken or lead to a cell that fell, and does not try these again.
#[inline(never)]
pub(crate) fn fallen_cells(alloc: Global, charted: Charted<'_>) -> Result<Vec<bool>, NoMemory>
    requires chart { IsChart charted.next.now charted.chart.now }
    requires labels { IsLabelled (λ place. seen_at charted.word.now charted.flipped place) charted.chart.now }
    requires whole { IsWhole charted.word.now charted.next.now }
    ensures { IfOk result (λ cells.
        AreFallen charted.entry.chart.now.nfa.states
        (course_by charted.entry.word.now charted.entry.flipped charted.entry.next.now)
        (length charted.entry.next.now) cells.items) }
{
    let mut passed = none_passed(alloc, charted.chart.cells)?;
    let mut marking = first_fallen(alloc, charted, &mut passed)?;
    let mut found = Vec::new(alloc);
    while let Some(cell) = marking.waiting.pop() {
        cells_before(charted, &marking.marks, cell, &mut found)?;
        fall_each(charted, &found, &mut marking, &mut passed)?;
    }
    let Marking { marks, waiting: _ } = marking;
    Ok(marks)
}

// No edge of any cell was passed.
fn none_passed(alloc: Global, cells: usize) -> Result<Vec<usize>, NoMemory>
    ensures { IfOk result (λ passed. passed.items ≡ replicate cells 0) }
{
    let passed = vec![in alloc; 0; cells]?;
    Ok(passed)
}

// The cells of dead states are marked, and then those from which the sequence goes on to no other cell;
// these wait.
#[tactic(auto, using(crate::proofs::Passed::passed_none))]
fn first_fallen(
    alloc: Global,
    charted: Charted<'_>,
    passed: &mut Vec<usize>,
) -> Result<Marking, NoMemory>
    requires chart { IsChart charted.next.now charted.chart.now }
    requires labels { IsLabelled (λ place. seen_at charted.word.now charted.flipped place) charted.chart.now }
    requires within { (place : ℕ) → place < length charted.next.now
        → slice_index charted.next.now place < length charted.next.now }
    requires passed { passed.old.items ≡ replicate charted.chart.now.cells 0 }
    ensures fallen { IfOk result (λ marking.
        IsFirstFallen charted.entry.chart.now.nfa.states
        (λ place. seen_at charted.entry.word.now charted.entry.flipped place)
        charted.entry.next.now charted.entry.chart.now.cells (marking_of marking)) }
    ensures passed { IfOk result (λ marking.
        ArePassed charted.entry.chart.now.nfa.states
        (λ place. seen_at charted.entry.word.now charted.entry.flipped place)
        charted.entry.next.now charted.entry.chart.now.cells marking.marks.items passed.new.items) }
{
    let marks = dead_cells(alloc, charted.chart)?;
    let mut marking = Marking {
        marks,
        waiting: Vec::new(alloc),
    };
    for cell in 0..charted.chart.cells {
        fall_one(charted, cell, &mut marking, passed)?;
    }
    Ok(marking)
}

// The cells of states from which no final state is reached.
fn dead_cells(alloc: Global, chart: &Chart) -> Result<Vec<bool>, NoMemory>
    requires { IsDrawn chart.now }
    ensures { IfOk result (λ marks. AreDead chart.now.nfa.states chart.now.cells marks.items) }
{
    let states = chart.nfa.len();
    let mut marks = Vec::new(alloc);
    for cell in 0..chart.cells {
        marks.push(!chart.nfa.alive((cell % states) as u32))?;
    }
    Ok(marks)
}

// Visits those of some cells from which the sequence does not go on.
fn fall_each(
    charted: Charted<'_>,
    cells: &[usize],
    marking: &mut Marking,
    passed: &mut Vec<usize>,
) -> Result<(), NoMemory>
    requires chart { IsChart charted.next.now charted.chart.now }
    requires labels { IsLabelled (λ place. seen_at charted.word.now charted.flipped place) charted.chart.now }
    requires within { (place : ℕ) → place < length charted.next.now
        → slice_index charted.next.now place < length charted.next.now }
    requires cells { All (λ cell. cell < charted.chart.now.cells) cells.now }
    requires marks { length marking.old.marks.items ≡ charted.chart.now.cells }
    requires passed { ArePassed charted.chart.now.nfa.states (λ place. seen_at charted.word.now charted.flipped place)
        charted.next.now charted.chart.now.cells marking.old.marks.items passed.old.items }
    ensures marking { OnOk result (marking_of marking.new ≡
        fall_all charted.entry.chart.now.nfa.states
        (λ place. seen_at charted.entry.word.now charted.entry.flipped place) charted.entry.next.now
        (marking_of marking.old) cells.now) }
    ensures passed { OnOk result (ArePassed charted.entry.chart.now.nfa.states
        (λ place. seen_at charted.entry.word.now charted.entry.flipped place) charted.entry.next.now
        charted.entry.chart.now.cells marking.new.marks.items passed.new.items) }
{
    for cell in cells {
        fall_one(charted, *cell, marking, passed)?;
    }
    Ok(())
}

// Visits a cell from which the sequence does not go on.
#[tactic(auto, using(crate::proofs::Visiting::fall_marked, crate::proofs::Passed::passed_visit))]
fn fall_one(
    charted: Charted<'_>,
    cell: usize,
    marking: &mut Marking,
    passed: &mut Vec<usize>,
) -> Result<(), NoMemory>
    requires chart { IsChart charted.next.now charted.chart.now }
    requires labels { IsLabelled (λ place. seen_at charted.word.now charted.flipped place) charted.chart.now }
    requires within { (place : ℕ) → place < length charted.next.now
        → slice_index charted.next.now place < length charted.next.now }
    requires cell { cell < charted.chart.now.cells }
    requires marks { length marking.old.marks.items ≡ charted.chart.now.cells }
    requires passed { ArePassed charted.chart.now.nfa.states (λ place. seen_at charted.word.now charted.flipped place)
        charted.next.now charted.chart.now.cells marking.old.marks.items passed.old.items }
    ensures marking { OnOk result (marking_of marking.new ≡
        fall charted.entry.chart.now.nfa.states (λ place. seen_at charted.entry.word.now charted.entry.flipped place)
        charted.entry.next.now (marking_of marking.old) cell) }
    ensures len { OnOk result (length marking.new.marks.items ≡ length marking.old.marks.items) }
    ensures passed { OnOk result (ArePassed charted.entry.chart.now.nfa.states
        (λ place. seen_at charted.entry.word.now charted.entry.flipped place) charted.entry.next.now
        charted.entry.chart.now.cells marking.new.marks.items passed.new.items) }
{
    if marking.marks[cell] {
        return Ok(());
    }
    if !lasts(charted, cell, &marking.marks, passed) {
        marking.visit(cell)?;
    }
    Ok(())
}

// Whether the sequence goes on from a cell, to an end or to a cell that is not marked. The edges up to one by
// which it does are passed.
#[tactic(auto, using(crate::proofs::Passed::passed_set))]
fn lasts(charted: Charted<'_>, cell: usize, marks: &[bool], passed: &mut Vec<usize>) -> bool
    requires chart { IsChart charted.next.now charted.chart.now }
    requires labels { IsLabelled (λ place. seen_at charted.word.now charted.flipped place) charted.chart.now }
    requires within { (place : ℕ) → place < length charted.next.now
        → slice_index charted.next.now place < length charted.next.now }
    requires cell { cell < charted.chart.now.cells }
    requires marks { length marks.now ≡ charted.chart.now.cells }
    requires passed { ArePassed charted.chart.now.nfa.states (λ place. seen_at charted.word.now charted.flipped place)
        charted.next.now charted.chart.now.cells marks.now passed.old.items }
    ensures lasts { result
        ≡ lasts_at charted.entry.chart.now.nfa.states
        (λ place. seen_at charted.entry.word.now charted.entry.flipped place) charted.entry.next.now marks.now cell }
    ensures passed { ArePassed charted.entry.chart.now.nfa.states
        (λ place. seen_at charted.entry.word.now charted.entry.flipped place)
        charted.entry.next.now charted.entry.chart.now.cells marks.now passed.new.items }
{
    let states = charted.chart.nfa.len();
    let place = cell / states;
    let edges = charted.chart.nfa.edges((cell % states) as u32);
    let first = charted.next[place] * states;
    let number = first_along(charted, place, edges.as_slice(), first, marks, passed[cell]);
    passed[cell] = number;
    number < edges.as_slice().len()
}

// The number of the first edge, from one on, that can be taken at a place and leads to an end or to a cell
// that is not marked. Those before it do not, and where none does, the number is past the last.
#[tactic(auto, using(crate::proofs::Passed::more_passed))]
fn first_along(
    charted: Charted<'_>,
    place: usize,
    edges: &[NfaEdge],
    first: usize,
    marks: &[bool],
    from: usize,
) -> usize
    requires chart { IsDrawn charted.chart.now }
    requires values { length charted.chart.now.values.items ≡ charted.chart.now.cells }
    requires place { place < length charted.chart.now.before.items }
    requires edges { All (λ edge. edge.target < length charted.chart.now.nfa.states) edges.now }
    requires told { All (λ edge. IsTold (λ place. seen_at charted.word.now charted.flipped place)
        charted.chart.now (edge_of edge)) edges.now }
    requires marks { first + length charted.chart.now.nfa.states ≤ length marks.now }
    requires passed { NoneGoes charted.chart.now.nfa.states (seen_at charted.word.now charted.flipped place)
        marks.now first (edges_of edges.now) from }
    ensures passed { NoneGoes charted.entry.chart.now.nfa.states
        (seen_at charted.entry.word.now charted.entry.flipped place) marks.now first
        (edges_of edges.now) result }
    ensures goes { nat_lt result (length edges.now)
        ≡ goes_on charted.entry.chart.now.nfa.states (seen_at charted.entry.word.now charted.entry.flipped place)
        marks.now first (edges_of edges.now) }
{
    let mut number = from;
    while is_idle(charted, place, edges, first, marks, number) {
        number += 1;
    }
    number
}

// Whether there is an edge of this number, and the sequence does not go on along it.
fn is_idle(
    charted: Charted<'_>,
    place: usize,
    edges: &[NfaEdge],
    first: usize,
    marks: &[bool],
    number: usize,
) -> bool
    requires chart { IsDrawn charted.chart.now }
    requires values { length charted.chart.now.values.items ≡ charted.chart.now.cells }
    requires place { place < length charted.chart.now.before.items }
    requires edges { All (λ edge. edge.target < length charted.chart.now.nfa.states) edges.now }
    requires told { All (λ edge. IsTold (λ place. seen_at charted.word.now charted.flipped place)
        charted.chart.now (edge_of edge)) edges.now }
    requires marks { first + length charted.chart.now.nfa.states ≤ length marks.now }
    ensures { result ≡ (nat_lt number (length edges.now)
        && not (goes_along charted.entry.chart.now.nfa.states
        (seen_at charted.entry.word.now charted.entry.flipped place) marks.now first
        (edge_at (edges_of edges.now) number))) }
{
    number < edges.len() && !is_along(charted, place, &edges[number], first, marks)
}

// Whether an edge can be taken at a place and leads to an end, or to a cell that is not marked.
fn is_along(
    charted: Charted<'_>,
    place: usize,
    edge: &NfaEdge,
    first: usize,
    marks: &[bool],
) -> bool
    requires chart { IsDrawn charted.chart.now }
    requires values { length charted.chart.now.values.items ≡ charted.chart.now.cells }
    requires place { place < length charted.chart.now.before.items }
    requires edge { edge.now.target < length charted.chart.now.nfa.states }
    requires told { IsTold (λ place. seen_at charted.word.now charted.flipped place)
        charted.chart.now (edge_of edge.now) }
    requires marks { first + length charted.chart.now.nfa.states ≤ length marks.now }
    ensures { result ≡ goes_along charted.entry.chart.now.nfa.states
        (seen_at charted.entry.word.now charted.entry.flipped place) marks.now first
        (edge_of edge.now) }
{
    let target = edge.target;
    match known(charted.chart, place, target as usize) {
        Some(value) => value && leads_on(charted.chart, target, first, marks),
        None => {
            leads_on(charted.chart, target, first, marks)
                && holds_at(charted.word, charted.flipped, place, &edge.label)
        }
    }
}

// Whether a state is an end, or its cell at the place whose first cell is given is not marked.
fn leads_on(chart: &Chart, target: u32, first: usize, marks: &[bool]) -> bool
    requires target { target < length chart.now.nfa.states }
    requires marks { first + length chart.now.nfa.states ≤ length marks.now }
    ensures { result ≡ ((state_at chart.now.nfa.states target).is_final || not (value_at marks.now (first + target))) }
{
    chart.nfa.is_final(target) || !marks[first + target as usize]
}
