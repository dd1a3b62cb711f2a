ghost use Rattle.std.specs.Prelude.{◌≡◌, ◌*◌, ◌^◌, ◌<◌, ◌≤◌, ◌++◌, ℕ, [], length, map, replicate};
ghost use Rattle.std.specs.Prelude.{slice_index, slice_index_or, IfOk, OnOk};
ghost use Rattle.psl_tree.specs.Clockless.{HasNoClock};
ghost use Rattle.psl_tree.specs.Counts.{states_of};
ghost use Rattle.psl_tree.specs.Trees.{sequence_of};
ghost use Rattle.psl_tree.specs.SequenceAutomata.{IsSound};
ghost use Rattle.psl_tree.specs.SequenceConstruction.{nfa_of};
ghost use Rattle.sere_nfa.specs.Views.{edges_of};
ghost use Rattle.lasso_judge.specs.Arrows.{arrows_in, arrows_below, places_from, IsChart};
ghost use Rattle.lasso_judge.specs.Labels.{IsLabelled};
ghost use Rattle.lasso_judge.specs.Merging.{IsMerged};
ghost use Rattle.lasso_tables.specs.Seen.{seen_at};

use crate::labels::{sources_of, values_of};
use crate::merged::Merged;
use psl_base::{Items, NoMemory};
use psl_tree::{MOST_STATES, Sere, Word};
use sere_nfa::{Nfa, NfaEdge, NfaFault};
use std::alloc::Global;

/// An edge of an automaton: the state that it leaves, its number among the edges of that state, and the
/// state that it leads to.
#[derive(Clone, Copy, Drop)]
pub(crate) struct Arrow {
    pub(crate) state: usize,
    pub(crate) edge: usize,
    pub(crate) target: usize,
}

/// What a search over cells needs: a cell is a state of a sequence's automaton at a place of a course, and
/// has the number place times the number of states plus state.
#[derive(Drop)]
pub(crate) struct Chart {
    pub(crate) nfa: Merged,
    pub(crate) arrows: Vec<Arrow>,
    /// For each state, the arrows that lead to it.
    pub(crate) into: Vec<Items<usize>>,
    /// For each place, the places before it.
    pub(crate) before: Vec<Items<usize>>,
    /// How many cells there are.
    pub(crate) cells: usize,
    /// For each state, the states that the arrows to it leave, in the order of these.
    pub(crate) sources: Vec<Items<usize>>,
    /// For each cell, whether the label of all arrows to its state holds at its place; none where these have
    /// not all the same.
    pub(crate) values: Vec<Option<bool>>,
}

/// A course, and the chart of a sequence over it: what the searches over its cells look at.
#[derive(Clone, Copy)]
pub(crate) struct Charted<'a> {
    /// The cells: the states of the sequence's automaton at the places of the course.
    pub(crate) chart: &'a Chart,
    /// The word whose letters are seen.
    pub(crate) word: &'a Word,
    /// The next place of each place.
    pub(crate) next: &'a [usize],
    /// Whether the letters of the word's dual are seen instead: Top for Bottom, and Bottom for Top.
    pub(crate) flipped: bool,
}

impl Chart {
    /// The chart of a sequence and of the next place of each place, and for the letters that are seen.
    #[inline(never)]
    pub(crate) fn new(
        alloc: Global,
        r: &Sere,
        word: &Word,
        next: &[usize],
        flipped: bool,
    ) -> Result<Chart, NoMemory>
        requires plain { HasNoClock (sequence_of r.now) }
        requires small { states_of (sequence_of r.now) ≤ MOST_STATES }
        requires within { (place : ℕ) → place < length next.now → slice_index next.now place < length next.now }
        ensures chart { IfOk result (λ chart. IsChart next.now chart) }
        ensures labels { IfOk result (λ chart. IsLabelled (λ place. seen_at word.now flipped place) chart) }
        ensures automaton { IfOk result (λ chart. IsMerged (nfa_of (sequence_of r.now)).states chart.nfa.states) }
    {
        let chart = Chart::drawn(alloc, r, next)?;
        let sources = sources_of(alloc, &chart)?;
        let values = values_of(alloc, &chart, word, flipped)?;
        Ok(Chart {
            sources,
            values,
            ..chart
        })
    }

    // The chart without what labels say.
    fn drawn(alloc: Global, r: &Sere, next: &[usize]) -> Result<Chart, NoMemory>
        requires plain { HasNoClock (sequence_of r.now) }
        requires small { states_of (sequence_of r.now) ≤ MOST_STATES }
        requires within { (place : ℕ) → place < length next.now → slice_index next.now place < length next.now }
        ensures chart { IfOk result (λ chart. IsChart next.now chart) }
        ensures automaton { IfOk result (λ chart. IsMerged (nfa_of (sequence_of r.now)).states chart.nfa.states) }
    {
        let nfa = merged_automaton(alloc, r)?;
        let arrows = arrows_of(alloc, &nfa)?;
        let targets = targets_of(alloc, &arrows)?;
        let into = places_of_each(alloc, &targets, nfa.len())?;
        let before = places_of_each(alloc, next, next.len())?;
        let cells = cell_count(next.len(), nfa.len())?;
        Ok(Chart {
            nfa,
            arrows,
            into,
            before,
            cells,
            sources: Vec::new(alloc),
            values: Vec::new(alloc),
        })
    }
}

// The automaton of a sequence, its states merged.
fn merged_automaton(alloc: Global, r: &Sere) -> Result<Merged, NoMemory>
    requires plain { HasNoClock (sequence_of r.now) }
    requires small { states_of (sequence_of r.now) ≤ MOST_STATES }
    ensures merged { IfOk result (λ nfa. IsMerged (nfa_of (sequence_of r.now)).states nfa.states) }
    ensures sound { IfOk result (λ nfa. IsSound nfa) }
    ensures size { IfOk result (λ nfa. length nfa.states ≤ states_of (sequence_of r.now)) }
    ensures some { IfOk result (λ nfa. 0 < length nfa.states) }
{
    let nfa = automaton(alloc, r)?;
    let merged = Merged::new(alloc, &nfa)?;
    Ok(merged)
}

fn automaton(alloc: Global, r: &Sere) -> Result<Nfa, NoMemory>
    requires plain { HasNoClock (sequence_of r.now) }
    requires small { states_of (sequence_of r.now) ≤ MOST_STATES }
    ensures built { IfOk result (λ nfa. nfa ≡ nfa_of (sequence_of r.now)) }
    ensures sound { IfOk result (λ nfa. IsSound nfa) }
    ensures size { IfOk result (λ nfa. length nfa.states ≤ states_of (sequence_of r.now)) }
{
    match sere_nfa::of(alloc, r) {
        Ok(nfa) => Ok(nfa),
        Err(NfaFault::NoMemory) => Err(NoMemory),
        Err(NfaFault::SereTooLarge) => unreachable!(),
    }
}

// How many cells there are. Each takes a byte at the least, so memory is wanted where the count is past what an address can
// be, as it is for a `Vec` of so many members.
fn cell_count(places: usize, states: usize) -> Result<usize, NoMemory>
    ensures count { IfOk result (λ cells. cells ≡ places * states) }
    ensures few { IfOk result (λ cells. cells < 2 ^ 64) }
{
    Ok(places.checked_mul(states).ok_or(NoMemory)?)
}

fn arrows_of(alloc: Global, nfa: &Merged) -> Result<Vec<Arrow>, NoMemory>
    requires { length nfa.now.states < 2 ^ 32 }
    ensures { IfOk result (λ arrows. arrows.items ≡ arrows_below nfa.now.states (length nfa.now.states)) }
{
    let mut arrows = Vec::new(alloc);
    for state in 0..nfa.len() {
        add_arrows(state, nfa.edges(state as u32).as_slice(), &mut arrows)?;
    }
    Ok(arrows)
}

fn add_arrows(state: usize, edges: &[NfaEdge], arrows: &mut Vec<Arrow>) -> Result<(), NoMemory>
    ensures { OnOk result (arrows.new.items ≡ arrows.old.items ++ arrows_in state 0 (edges_of edges.now)) }
{
    for (number, edge) in edges.iter().enumerate() {
        arrows.push(Arrow {
            state,
            edge: number,
            target: edge.target as usize,
        })?;
    }
    Ok(())
}

fn targets_of(alloc: Global, arrows: &[Arrow]) -> Result<Vec<usize>, NoMemory>
    ensures { IfOk result (λ targets. targets.items ≡ map (λ arrow. arrow.target) arrows.now) }
{
    Ok(arrows.iter().map(|arrow| arrow.target).collect(alloc)?)
}

// For each number below a count, the places of a list at which it stands.
fn places_of_each(
    alloc: Global,
    numbers: &[usize],
    count: usize,
) -> Result<Vec<Items<usize>>, NoMemory>
    requires { (place : ℕ) → place < length numbers.now → slice_index numbers.now place < count }
    ensures len { IfOk result (λ found. length found.items ≡ count) }
    ensures each { IfOk result (λ found.
        (number : ℕ) → number < count → slice_index_or found.items number [] ≡ places_from 0 number numbers.now) }
{
    let mut found = no_places(alloc, count)?;
    for (place, number) in numbers.iter().enumerate() {
        found[*number].push(place)?;
    }
    Ok(found)
}

// So many empty lists.
fn no_places(alloc: Global, count: usize) -> Result<Vec<Items<usize>>, NoMemory>
    ensures { IfOk result (λ lists. lists.items ≡ replicate count []) }
{
    let mut lists = Vec::new(alloc);
    for _added in 0..count {
        lists.push(Items::new(alloc))?;
    }
    Ok(lists)
}
