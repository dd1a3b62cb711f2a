ghost use Rattle.std.specs.Prelude.{◌≡◌, ◌<◌, ◌&&◌, All, [], ◌∷◌, false, length, replicate, if◌then◌else◌, IfOk, OnOk};
ghost use Rattle.psl_tree.specs.Holds.{holds};
ghost use Rattle.psl_tree.specs.Trees.{boolean_of};
ghost use Rattle.psl_tree.specs.SequenceAutomata.{state_at};
ghost use Rattle.sere_nfa.specs.Marking.{visit_all};
ghost use Rattle.lasso_judge.specs.MarkingView.{marking_of};
ghost use Rattle.sere_nfa.specs.Views.{edge_of, edges_of};
ghost use Rattle.lasso_judge.specs.Arrows.{IsChart, IsDrawn};
ghost use Rattle.lasso_judge.specs.Cells.{ends_at, ends_on, numbers_below, AreHits};
ghost use Rattle.lasso_judge.specs.Labels.{IsLabelled, IsTold};
ghost use Rattle.lasso_tables.specs.Seen.{course_by, seen_at, IsWhole};

use crate::before::cells_before;
use crate::chart::Charted;
use crate::labels::known;
use crate::marking::Marking;
use lasso_tables::holds_at;
use psl_base::NoMemory;
use sere_nfa::NfaEdge;
use std::alloc::Global;

/// The cells from which a path of the automaton leads to an end, its last letter read at a place that is
/// hit. Each cell is looked at once, and each arrow once at each place.
#[inline(never)]
pub(crate) fn hit_cells(
    alloc: Global,
    charted: Charted<'_>,
    hits: &[bool],
) -> Result<Vec<bool>, NoMemory>
    requires chart { IsChart charted.next.now charted.chart.now }
    requires labels { IsLabelled (λ place. seen_at charted.word.now charted.flipped place) charted.chart.now }
    requires whole { IsWhole charted.word.now charted.next.now }
    requires same { length hits.now ≡ length charted.next.now }
    ensures { IfOk result (λ cells.
        AreHits charted.entry.chart.now.nfa.states
        (course_by charted.entry.word.now charted.entry.flipped charted.entry.next.now)
        (length charted.entry.next.now) hits.now cells.items) }
{
    let mut marking = ended(alloc, charted, hits)?;
    let mut found = Vec::new(alloc);
    while let Some(cell) = marking.waiting.pop() {
        cells_before(charted, &marking.marks, cell, &mut found)?;
        marking.visit_each(&found)?;
    }
    let Marking { marks, waiting: _ } = marking;
    Ok(marks)
}

// The cells from which one letter leads to an end are marked, and wait.
#[tactic(auto, using(crate::proofs::Visiting::visit_all_append, crate::proofs::Visiting::numbers_more))]
fn ended(alloc: Global, charted: Charted<'_>, hits: &[bool]) -> Result<Marking, NoMemory>
    requires chart { IsDrawn charted.chart.now }
    requires labels { IsLabelled (λ place. seen_at charted.word.now charted.flipped place) charted.chart.now }
    requires same { length hits.now ≡ length charted.chart.now.before.items }
    ensures { IfOk result (λ marking.
        marking_of marking ≡ visit_all (record { marks = replicate charted.entry.chart.now.cells false; waiting = [] })
        (numbers_below (λ cell. ends_at charted.entry.chart.now.nfa.states
        (λ place. seen_at charted.entry.word.now charted.entry.flipped place) hits.now cell)
        charted.entry.chart.now.cells)) }
{
    let mut marking = Marking::new(alloc, charted.chart.cells)?;
    for cell in 0..charted.chart.cells {
        let ends = ends_here(charted, hits, cell);
        visit_where(ends, cell, &mut marking)?;
    }
    Ok(marking)
}

// Visits a cell where that is asked.
fn visit_where(asked: bool, cell: usize, marking: &mut Marking) -> Result<(), NoMemory>
    requires { cell < length marking.old.marks.items }
    ensures marking { OnOk result (marking_of marking.new ≡
        visit_all (marking_of marking.old) (if asked then cell ∷ [] else [])) }
    ensures len { OnOk result (length marking.new.marks.items ≡ length marking.old.marks.items) }
{
    if asked {
        marking.visit(cell)?;
    }
    Ok(())
}

// Whether one letter leads from a cell to an end, at a place that is hit.
fn ends_here(charted: Charted<'_>, hits: &[bool], cell: usize) -> bool
    requires chart { IsDrawn charted.chart.now }
    requires labels { IsLabelled (λ place. seen_at charted.word.now charted.flipped place) charted.chart.now }
    requires same { length hits.now ≡ length charted.chart.now.before.items }
    requires within { cell < charted.chart.now.cells }
    ensures { result ≡ ends_at charted.entry.chart.now.nfa.states
        (λ place. seen_at charted.entry.word.now charted.entry.flipped place) hits.now cell }
{
    let states = charted.chart.nfa.len();
    let place = cell / states;
    let edges = charted.chart.nfa.edges((cell % states) as u32);
    hits[place] && ends_by(charted, place, edges.as_slice())
}

// Whether some edge that can be taken at a place leads to an end.
fn ends_by(charted: Charted<'_>, place: usize, edges: &[NfaEdge]) -> bool
    requires chart { IsDrawn charted.chart.now }
    requires values { length charted.chart.now.values.items ≡ charted.chart.now.cells }
    requires place { place < length charted.chart.now.before.items }
    requires edges { All (λ edge. edge.target < length charted.chart.now.nfa.states) edges.now }
    requires told { All (λ edge. IsTold (λ place. seen_at charted.word.now charted.flipped place)
        charted.chart.now (edge_of edge)) edges.now }
    ensures { result ≡ ends_on charted.entry.chart.now.nfa.states
        (seen_at charted.entry.word.now charted.entry.flipped place) (edges_of edges.now) }
{
    for edge in edges {
        if ends_along(charted, place, edge) {
            return true;
        }
    }
    false
}

// Whether an edge can be taken at a place and leads to an end.
fn ends_along(charted: Charted<'_>, place: usize, edge: &NfaEdge) -> bool
    requires chart { IsDrawn charted.chart.now }
    requires values { length charted.chart.now.values.items ≡ charted.chart.now.cells }
    requires place { place < length charted.chart.now.before.items }
    requires edge { edge.now.target < length charted.chart.now.nfa.states }
    requires told { IsTold (λ place. seen_at charted.word.now charted.flipped place)
        charted.chart.now (edge_of edge.now) }
    ensures { result ≡ (holds (seen_at charted.entry.word.now charted.entry.flipped place) (boolean_of edge.now.label)
        && (state_at charted.entry.chart.now.nfa.states edge.now.target).is_final) }
{
    match known(charted.chart, place, edge.target as usize) {
        Some(value) => value && charted.chart.nfa.is_final(edge.target),
        None => {
            charted.chart.nfa.is_final(edge.target)
                && holds_at(charted.word, charted.flipped, place, &edge.label)
        }
    }
}
