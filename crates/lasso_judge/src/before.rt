ghost use Rattle.std.specs.Prelude.{◌≡◌, ◌/◌, ◌%◌, ◌<◌, ◌++◌, ◌&&◌, All, [], ◌∷◌, not, length};
ghost use Rattle.std.specs.Prelude.{if◌then◌else◌, slice_index_or, OnOk};
ghost use Rattle.psl_tree.specs.Holds.{holds};
ghost use Rattle.lasso_judge.specs.Arrows.{arrow_at, label_of, IsChart, IsDrawn};
ghost use Rattle.lasso_judge.specs.Cells.{cell_of, fresh_at, fresh_back};
ghost use Rattle.lasso_judge.specs.Labels.{into_at, left_by, unmarked_at, AreSources, IsLabelled};
ghost use Rattle.lasso_tables.specs.Seen.{seen_at};
ghost use Rattle.lasso_tables.specs.Tables.{value_at};

use crate::chart::{Chart, Charted};
use crate::labels::{arrows_to, known, label};
use lasso_tables::holds_at;
use psl_base::NoMemory;

/// Lists the cells that are not marked and from which one letter leads to a cell, in place of what is listed
/// there.
#[inline(never)]
pub(crate) fn cells_before(
    charted: Charted<'_>,
    marks: &[bool],
    cell: usize,
    found: &mut Vec<usize>,
) -> Result<(), NoMemory>
    requires chart { IsChart charted.next.now charted.chart.now }
    requires labels { IsLabelled (λ place. seen_at charted.word.now charted.flipped place) charted.chart.now }
    requires marks { length marks.now ≡ charted.chart.now.cells }
    requires within { cell < charted.chart.now.cells }
    ensures { OnOk result (found.new.items ≡
        fresh_back charted.entry.chart.now.nfa.states
        (λ place. seen_at charted.entry.word.now charted.entry.flipped place)
        charted.entry.chart.now.arrows.items marks.now
        (slice_index_or charted.entry.chart.now.before.items (cell / length charted.entry.chart.now.nfa.states) [])
        (into_at charted.entry.chart.now (cell % length charted.entry.chart.now.nfa.states))) }
{
    let states = charted.chart.nfa.len();
    let before = charted.chart.before[cell / states].as_slice();
    found.clear();
    add_back(charted, marks, before, cell % states, found)
}

// Adds the cells of some places that are not marked and from which one letter leads to a state.
fn add_back(
    charted: Charted<'_>,
    marks: &[bool],
    places: &[usize],
    target: usize,
    found: &mut Vec<usize>,
) -> Result<(), NoMemory>
    requires chart { IsDrawn charted.chart.now }
    requires labels { IsLabelled (λ place. seen_at charted.word.now charted.flipped place) charted.chart.now }
    requires marks { length marks.now ≡ charted.chart.now.cells }
    requires places { All (λ place. place < length charted.chart.now.before.items) places.now }
    requires target { target < length charted.chart.now.nfa.states }
    ensures { OnOk result (found.new.items ≡
        found.old.items
        ++ fresh_back charted.entry.chart.now.nfa.states
        (λ place. seen_at charted.entry.word.now charted.entry.flipped place)
        charted.entry.chart.now.arrows.items marks.now places.now (into_at charted.entry.chart.now target)) }
{
    for place in places {
        add_before(charted, marks, *place, target, found)?;
    }
    Ok(())
}

// Adds the cells of a place that are not marked and from which one letter leads to a state. Where all arrows
// to it have the same label, this is known at once of all of them.
fn add_before(
    charted: Charted<'_>,
    marks: &[bool],
    place: usize,
    target: usize,
    found: &mut Vec<usize>,
) -> Result<(), NoMemory>
    requires chart { IsDrawn charted.chart.now }
    requires labels { IsLabelled (λ place. seen_at charted.word.now charted.flipped place) charted.chart.now }
    requires marks { length marks.now ≡ charted.chart.now.cells }
    requires place { place < length charted.chart.now.before.items }
    requires target { target < length charted.chart.now.nfa.states }
    ensures { OnOk result (found.new.items ≡
        found.old.items
        ++ fresh_at charted.entry.chart.now.nfa.states
        (λ place. seen_at charted.entry.word.now charted.entry.flipped place)
        charted.entry.chart.now.arrows.items marks.now place (into_at charted.entry.chart.now target)) }
{
    match known(charted.chart, place, target) {
        Some(true) => add_sources(charted.chart, marks, place, target, found),
        Some(false) => Ok(()),
        None => {
            let into = arrows_to(charted.chart, target);
            add_at(charted, marks, place, into, found)
        }
    }
}

// Adds the cells of a place that are not marked and from whose states arrows lead to a state.
fn add_sources(
    chart: &Chart,
    marks: &[bool],
    place: usize,
    target: usize,
    found: &mut Vec<usize>,
) -> Result<(), NoMemory>
    requires chart { IsDrawn chart.now }
    requires sources { AreSources chart.now (length chart.now.nfa.states) chart.now.sources.items }
    requires marks { length marks.now ≡ chart.now.cells }
    requires place { place < length chart.now.before.items }
    requires target { target < length chart.now.nfa.states }
    ensures { OnOk result (found.new.items ≡
        found.old.items ++ unmarked_at (length chart.now.nfa.states) marks.now place
        (left_by chart.now.arrows.items (into_at chart.now target))) }
{
    let sources = chart.sources[target].as_slice();
    add_unmarked(chart, marks, place, sources, found)
}

// Adds the cells of a place and of some states that are not marked.
fn add_unmarked(
    chart: &Chart,
    marks: &[bool],
    place: usize,
    states: &[usize],
    found: &mut Vec<usize>,
) -> Result<(), NoMemory>
    requires chart { IsDrawn chart.now }
    requires marks { length marks.now ≡ chart.now.cells }
    requires place { place < length chart.now.before.items }
    requires states { All (λ state. state < length chart.now.nfa.states) states.now }
    ensures { OnOk result (found.new.items ≡
        found.old.items ++ unmarked_at (length chart.now.nfa.states) marks.now place states.now) }
{
    for state in states {
        add_if_unmarked(chart, marks, place, *state, found)?;
    }
    Ok(())
}

// Adds the cell of a place and a state if it is not marked.
fn add_if_unmarked(
    chart: &Chart,
    marks: &[bool],
    place: usize,
    state: usize,
    found: &mut Vec<usize>,
) -> Result<(), NoMemory>
    requires chart { IsDrawn chart.now }
    requires marks { length marks.now ≡ chart.now.cells }
    requires place { place < length chart.now.before.items }
    requires state { state < length chart.now.nfa.states }
    ensures { OnOk result (found.new.items ≡
        found.old.items ++ (if value_at marks.now (cell_of (length chart.now.nfa.states) place state)
        then [] else cell_of (length chart.now.nfa.states) place state ∷ [])) }
{
    let cell = cell_of(chart, place, state);
    if !marks[cell] {
        found.push(cell)?;
    }
    Ok(())
}

// Adds the cells of a place that are not marked and from which these arrows can be taken.
fn add_at(
    charted: Charted<'_>,
    marks: &[bool],
    place: usize,
    arrows: &[usize],
    found: &mut Vec<usize>,
) -> Result<(), NoMemory>
    requires chart { IsDrawn charted.chart.now }
    requires marks { length marks.now ≡ charted.chart.now.cells }
    requires place { place < length charted.chart.now.before.items }
    requires arrows { All (λ number. number < length charted.chart.now.arrows.items) arrows.now }
    ensures { OnOk result (found.new.items ≡
        found.old.items
        ++ fresh_at charted.entry.chart.now.nfa.states
        (λ place. seen_at charted.entry.word.now charted.entry.flipped place)
        charted.entry.chart.now.arrows.items marks.now place arrows.now) }
{
    for number in arrows {
        add_one(charted, marks, place, *number, found)?;
    }
    Ok(())
}

// Adds the cell of a place from which an arrow leads, where it is not marked and the arrow can be taken.
fn add_one(
    charted: Charted<'_>,
    marks: &[bool],
    place: usize,
    number: usize,
    found: &mut Vec<usize>,
) -> Result<(), NoMemory>
    requires chart { IsDrawn charted.chart.now }
    requires marks { length marks.now ≡ charted.chart.now.cells }
    requires place { place < length charted.chart.now.before.items }
    requires arrow { number < length charted.chart.now.arrows.items }
    ensures { OnOk result (found.new.items ≡
        found.old.items
        ++ (if not (value_at marks.now (cell_of (length charted.entry.chart.now.nfa.states) place
        (arrow_at charted.entry.chart.now.arrows.items number).state))
        && holds (seen_at charted.entry.word.now charted.entry.flipped place)
        (label_of charted.entry.chart.now.nfa.states (arrow_at charted.entry.chart.now.arrows.items number))
        then cell_of (length charted.entry.chart.now.nfa.states) place
        (arrow_at charted.entry.chart.now.arrows.items number).state ∷ [] else [])) }
{
    let cell = source(charted.chart, place, number);
    if is_fresh(charted, marks, cell, place, number) {
        found.push(cell)?;
    }
    Ok(())
}

// Whether a cell is not marked, and an arrow can be taken at its place. A marked cell is passed over before
// a label is evaluated.
fn is_fresh(charted: Charted<'_>, marks: &[bool], cell: usize, place: usize, number: usize) -> bool
    requires chart { IsDrawn charted.chart.now }
    requires cell { cell < length marks.now }
    requires arrow { number < length charted.chart.now.arrows.items }
    ensures { result ≡ (not (value_at marks.now cell)
        && holds (seen_at charted.entry.word.now charted.entry.flipped place)
        (label_of charted.entry.chart.now.nfa.states (arrow_at charted.entry.chart.now.arrows.items number))) }
{
    !marks[cell] && is_taken(charted, place, number)
}

// Whether an arrow can be taken at a place.
fn is_taken(charted: Charted<'_>, place: usize, number: usize) -> bool
    requires chart { IsDrawn charted.chart.now }
    requires arrow { number < length charted.chart.now.arrows.items }
    ensures { result ≡ holds (seen_at charted.entry.word.now charted.entry.flipped place)
        (label_of charted.entry.chart.now.nfa.states (arrow_at charted.entry.chart.now.arrows.items number)) }
{
    let test = label(charted.chart, number);
    holds_at(charted.word, charted.flipped, place, test)
}

// The cell of a place from which an arrow leads.
fn source(chart: &Chart, place: usize, number: usize) -> usize
    requires chart { IsDrawn chart.now }
    requires place { place < length chart.now.before.items }
    requires arrow { number < length chart.now.arrows.items }
    ensures source { result ≡ cell_of (length chart.now.nfa.states) place (arrow_at chart.now.arrows.items number).state }
    ensures within { result < chart.now.cells }
{
    let arrow = &chart.arrows[number];
    cell_of(chart, place, arrow.state)
}

// The cell of a place and a state.
fn cell_of(chart: &Chart, place: usize, state: usize) -> usize
    requires chart { IsDrawn chart.now }
    requires place { place < length chart.now.before.items }
    requires state { state < length chart.now.nfa.states }
    ensures cell { result ≡ cell_of (length chart.now.nfa.states) place state }
    ensures within { result < chart.now.cells }
{
    place * chart.nfa.len() + state
}
