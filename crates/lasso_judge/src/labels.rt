ghost use Rattle.std.specs.Prelude.{◌≡◌, ◌/◌, ◌%◌, ◌<◌, ℕ, All, length, IfOk, IsTrue};
ghost use Rattle.psl_tree.specs.Trees.{boolean_of};
ghost use Rattle.lasso_judge.specs.Arrows.{arrow_at, label_of, IsDrawn};
ghost use Rattle.lasso_judge.specs.Cells.{cell_of};
ghost use Rattle.lasso_judge.specs.Labels.{into_at, known_at, left_by, AreAlike, AreKnown, AreSources, AreUniform, IsKnown, IsUniform};
ghost use Rattle.lasso_tables.specs.Seen.{seen_at};

use crate::chart::Chart;
use crate::merged::same_boolean;
use lasso_tables::holds_at;
use psl_base::{Items, NoMemory};
use psl_tree::{Bool, Word};
use std::alloc::Global;

// A label is evaluated as often as arrows with it lead to the state: so few times cost no more than to keep
// the answer for each cell.
const FEW_ARROWS: usize = 4;

/// For each state, the states that the arrows to it leave, in the order of these.
#[tactic(auto, using(crate::proofs::Labelled::sources_push, crate::proofs::Labelled::sources_none))]
pub(crate) fn sources_of(alloc: Global, chart: &Chart) -> Result<Vec<Items<usize>>, NoMemory>
    requires { IsDrawn chart.now }
    ensures { IfOk result (λ lists. AreSources chart.now (length chart.now.nfa.states) lists.items) }
{
    let mut lists = Vec::new(alloc);
    for state in 0..chart.nfa.len() {
        let sources = left_by(alloc, chart, arrows_to(chart, state))?;
        lists.push(sources)?;
    }
    Ok(lists)
}

// The states that some arrows leave.
fn left_by(alloc: Global, chart: &Chart, numbers: &[usize]) -> Result<Items<usize>, NoMemory>
    requires { All (λ number. number < length chart.now.arrows.items) numbers.now }
    ensures { IfOk result (λ states. states ≡ left_by chart.now.arrows.items numbers.now) }
{
    let mut states = Items::new(alloc);
    for number in numbers {
        states.push(chart.arrows[*number].state)?;
    }
    Ok(states)
}

/// For each cell, whether the label of all arrows to its state holds at its place; none where few arrows lead
/// to it, or they have not all the same.
#[tactic(auto, using(crate::proofs::Labelled::known_push, crate::proofs::Labelled::known_none))]
pub(crate) fn values_of(
    alloc: Global,
    chart: &Chart,
    word: &Word,
    flipped: bool,
) -> Result<Vec<Option<bool>>, NoMemory>
    requires { IsDrawn chart.now }
    ensures { IfOk result (λ values.
        AreKnown (λ place. seen_at word.now flipped place) chart.now chart.now.cells values.items) }
{
    let marks = uniform(alloc, chart)?;
    let mut values = Vec::new(alloc);
    for cell in 0..chart.cells {
        let value = value_of(chart, word, flipped, &marks, cell);
        values.push(value)?;
    }
    Ok(values)
}

// The same of one cell.
fn value_of(chart: &Chart, word: &Word, flipped: bool, marks: &[bool], cell: usize) -> Option<bool>
    requires drawn { IsDrawn chart.now }
    requires marks { AreUniform chart.now (length chart.now.nfa.states) marks.now }
    requires cell { cell < chart.now.cells }
    ensures { IsKnown (λ place. seen_at word.now flipped place) chart.now
        (cell / length chart.now.nfa.states) (cell % length chart.now.nfa.states) result }
{
    let states = chart.nfa.len();
    value_in(chart, word, flipped, marks, cell / states, cell % states)
}

// Whether the label of all arrows to a state that is marked holds at a place.
fn value_in(
    chart: &Chart,
    word: &Word,
    flipped: bool,
    marks: &[bool],
    place: usize,
    state: usize,
) -> Option<bool>
    requires drawn { IsDrawn chart.now }
    requires marks { AreUniform chart.now (length chart.now.nfa.states) marks.now }
    requires state { state < length chart.now.nfa.states }
    ensures { IsKnown (λ place. seen_at word.now flipped place) chart.now place state result }
{
    if marks[state] {
        let first = arrows_to(chart, state)[0];
        Some(holds_at(word, flipped, place, label(chart, first)))
    } else {
        None
    }
}

// For each state, whether more than a few arrows lead to it and all have the same label.
#[tactic(auto, using(crate::proofs::Labelled::uniform_push, crate::proofs::Labelled::uniform_none))]
fn uniform(alloc: Global, chart: &Chart) -> Result<Vec<bool>, NoMemory>
    requires { IsDrawn chart.now }
    ensures { IfOk result (λ marks. AreUniform chart.now (length chart.now.nfa.states) marks.items) }
{
    let mut marks = Vec::new(alloc);
    for state in 0..chart.nfa.len() {
        let mark = is_uniform(chart, state);
        marks.push(mark)?;
    }
    Ok(marks)
}

// The same of one state.
fn is_uniform(chart: &Chart, state: usize) -> bool
    requires drawn { IsDrawn chart.now }
    requires state { state < length chart.now.nfa.states }
    ensures { IsTrue result → IsUniform chart.now state }
{
    let into = arrows_to(chart, state);
    into.len() > FEW_ARROWS && are_alike(chart, into)
}

// Whether some arrows have all the same label.
#[tactic(auto, using(crate::proofs::Labelled::alike_more, crate::proofs::Labelled::alike_none))]
fn are_alike(chart: &Chart, numbers: &[usize]) -> bool
    requires drawn { IsDrawn chart.now }
    requires numbers { All (λ number. number < length chart.now.arrows.items) numbers.now }
    ensures { IsTrue result → AreAlike chart.now numbers.now (length numbers.now) }
{
    for index in 0..numbers.len() {
        let number = numbers[index];
        let first = numbers[0];
        if !same_boolean(label(chart, number), label(chart, first)) {
            return false;
        }
    }
    true
}

/// The numbers of the arrows that lead to a state.
pub(crate) fn arrows_to(chart: &Chart, state: usize) -> &[usize]
    requires drawn { IsDrawn chart.now }
    requires state { state < length chart.now.nfa.states }
    ensures shown { result.now ≡ into_at chart.now state }
    ensures below { All (λ number. number < length chart.now.arrows.items) result.now }
{
    let found = &chart.into[state];
    found.as_slice()
}

/// The label of an arrow.
pub(crate) fn label(chart: &Chart, number: usize) -> &Bool
    requires drawn { IsDrawn chart.now }
    requires arrow { number < length chart.now.arrows.items }
    ensures { boolean_of result.now ≡ label_of chart.now.nfa.states (arrow_at chart.now.arrows.items number) }
{
    let arrow = &chart.arrows[number];
    let edges = chart.nfa.edges(arrow.state as u32).as_slice();
    let edge = &edges[arrow.edge];
    &edge.label
}

/// What is known of a state at a place: whether the label of all arrows to it holds there.
pub(crate) fn known(chart: &Chart, place: usize, state: usize) -> Option<bool>
    requires drawn { IsDrawn chart.now }
    requires values { length chart.now.values.items ≡ chart.now.cells }
    requires place { place < length chart.now.before.items }
    requires state { state < length chart.now.nfa.states }
    ensures { result ≡ known_at chart.now.values.items (cell_of (length chart.now.nfa.states) place state) }
{
    chart.values[place * chart.nfa.len() + state]
}
