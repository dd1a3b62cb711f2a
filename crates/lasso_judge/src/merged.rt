ghost use Rattle.std.specs.Prelude.{◌≡◌, ◌↔◌, ◌^◌, ◌<◌, ◌++◌, All, map, length, slice_index, IfOk, OnOk, IsTrue};
ghost use Rattle.psl_tree.specs.Trees.{boolean_of};
ghost use Rattle.psl_tree.specs.SequenceAutomata.{IsSound, ReachesEnd, state_at};
ghost use Rattle.sere_nfa.specs.Views.{edge_of, edges_of};
ghost use Rattle.lasso_judge.specs.Merging.{led, kept_at, merged_at, merged_below, AreClasses, IsAlive, IsClass, IsMerged, MergedAlive};
ghost use Rattle.lasso_judge.specs.MergedView.{shown_of, states_shown};

use psl_base::NoMemory;
use psl_tree::Bool;
use sere_nfa::{Edges, Few, Nfa, NfaEdge};
use std::alloc::Global;
use std::marker::Model;

/// A state of a merged automaton.
#[derive(Drop)]
pub(crate) struct MergedState {
    pub(crate) is_final: bool,
    pub(crate) edges: Edges,
}

/// An automaton whose equal states are one (the follow automaton of Ilie and Yu, 2003). States are equal
/// where both or neither are final and their edges are the same. The first of them stands for all: edges to
/// any of them lead to it, and the others have none. So a repeated choice of n letters, n states with n edges
/// each, takes n edges and not n * n. Contracts see the automaton with its states in order.
#[derive(Drop)]
pub(crate) struct Merged {
    states: Vec<MergedState>,
    alive: Vec<bool>,
}

impl Model for Merged {
    ghost use Rattle.psl_tree.specs.SequenceAutomata.{Automaton};
    ghost use Rattle.sere_nfa.specs.Codes.{automaton_code};

    ghost Value = { Automaton };

    ghost coded = { automaton_code };

    ghost use Rattle.lasso_judge.specs.MergedView.{automaton_of, IsWhole};

    ghost view = { automaton_of };

    ghost invariant = { IsWhole };
}

impl Merged {
    /// The automaton with its states merged. The last state, at which lists begin, is never merged with
    /// another.
    pub(crate) fn new(alloc: Global, nfa: &Nfa) -> Result<Merged, NoMemory>
        requires sound { IsSound nfa.now }
        requires few { length nfa.now.states < 2 ^ 32 }
        requires some { 0 < length nfa.now.states }
        ensures merged { IfOk result (λ merged. IsMerged nfa.now.states merged.states) }
        ensures sound { IfOk result (λ merged. IsSound merged) }
    {
        let classes = classes_of(alloc, nfa)?;
        let states = states_of(alloc, nfa, &classes)?;
        let alive = alive_of(alloc, nfa, &classes)?;
        Ok(Merged { states, alive })
    }

    /// How many states there are. They are numbered from 0 on.
    pub(crate) fn len(&self) -> usize
        ensures { result ≡ length self.now.states }
    {
        self.states.len()
    }

    /// The edges that leave a state. States are counted from 0.
    pub(crate) fn edges(&self, state: u32) -> &Edges
        requires { state < length self.now.states }
        ensures shown { edges_of result.now ≡ (state_at self.now.states state).edges }
        ensures below { All (λ edge. edge.target < length self.now.states) result.now }
    {
        let found = &self.states[state as usize];
        &found.edges
    }

    /// Whether a list may end in a state. States are counted from 0.
    pub(crate) fn is_final(&self, state: u32) -> bool
        requires { state < length self.now.states }
        ensures { result ≡ (state_at self.now.states state).is_final }
    {
        let found = &self.states[state as usize];
        found.is_final
    }

    /// Whether a final state is reached from a state over some letters Top. States are counted from 0.
    pub(crate) fn alive(&self, state: u32) -> bool
        requires { state < length self.now.states }
        ensures { IsTrue result ↔ ReachesEnd self.now.states state }
    {
        self.alive[state as usize]
    }
}

// For each state the one that stands for it.
#[tactic(auto, using(crate::proofs::Merging::class_push, crate::proofs::Merging::class_none))]
fn classes_of(alloc: Global, nfa: &Nfa) -> Result<Vec<usize>, NoMemory>
    requires { length nfa.now.states < 2 ^ 32 }
    ensures { IfOk result (λ classes. AreClasses nfa.now.states (length nfa.now.states) classes.items) }
{
    let mut classes = Vec::new(alloc);
    for state in 0..nfa.len() {
        let class = class_of(nfa, &classes, state);
        classes.push(class)?;
    }
    Ok(classes)
}

// The first state before this one that stands for itself and is like this one, or this one.
#[tactic(auto, using(crate::proofs::Merging::class_self, crate::proofs::Merging::class_found))]
fn class_of(nfa: &Nfa, classes: &[usize], state: usize) -> usize
    requires few { length nfa.now.states < 2 ^ 32 }
    requires state { state < length nfa.now.states }
    requires same { length classes.now ≡ state }
    ensures { IsClass nfa.now.states classes.now state result }
{
    if state + 1 == nfa.len() {
        return state;
    }
    for earlier in 0..state {
        if stands_for(nfa, classes, earlier, state) {
            return earlier;
        }
    }
    state
}

// Whether a state stands for itself and is like another.
fn stands_for(nfa: &Nfa, classes: &[usize], earlier: usize, state: usize) -> bool
    requires few { length nfa.now.states < 2 ^ 32 }
    requires earlier { earlier < length classes.now }
    requires within { earlier < length nfa.now.states }
    requires state { state < length nfa.now.states }
    ensures first { IsTrue result → slice_index classes.now earlier ≡ earlier }
    ensures alike { IsTrue result → state_at nfa.now.states earlier ≡ state_at nfa.now.states state }
{
    classes[earlier] == earlier && are_alike(nfa, earlier, state)
}

// Whether two states are final alike and have the same edges.
fn are_alike(nfa: &Nfa, first: usize, second: usize) -> bool
    requires few { length nfa.now.states < 2 ^ 32 }
    requires first { first < length nfa.now.states }
    requires second { second < length nfa.now.states }
    ensures { IsTrue result → state_at nfa.now.states first ≡ state_at nfa.now.states second }
{
    nfa.is_final(first as u32) == nfa.is_final(second as u32)
        && same_edges(
            nfa.edges(first as u32).as_slice(),
            nfa.edges(second as u32).as_slice(),
        )
}

// Whether two lists of edges are equal.
#[tactic(auto, using(crate::proofs::Merging::edges_start, crate::proofs::Merging::edges_more, crate::proofs::Merging::edges_same))]
fn same_edges(left: &[NfaEdge], right: &[NfaEdge]) -> bool
    ensures { IsTrue result → edges_of left.now ≡ edges_of right.now }
{
    if left.len() != right.len() {
        return false;
    }
    for number in 0..left.len() {
        let one = &left[number];
        let other = &right[number];
        if !same_edge(one, other) {
            return false;
        }
    }
    true
}

fn same_edge(left: &NfaEdge, right: &NfaEdge) -> bool
    ensures { IsTrue result → edge_of left.now ≡ edge_of right.now }
{
    left.target == right.target && same_boolean(&left.label, &right.label)
}

/// Whether two Booleans are equal.
pub(crate) fn same_boolean(left: &Bool, right: &Bool) -> bool
    ensures { IsTrue result → boolean_of left.now ≡ boolean_of right.now }
{
    match (left, right) {
        (Bool::Const(value), Bool::Const(other)) => *value == *other,
        (Bool::Test(atom), Bool::Test(other)) => *atom == *other,
        (Bool::Not(part), Bool::Not(other)) => same_boolean(part, other),
        (Bool::And(first, second), Bool::And(other, last)) => {
            same_boolean(first, other) && same_boolean(second, last)
        }
        (Bool::Or(first, second), Bool::Or(other, last)) => {
            same_boolean(first, other) && same_boolean(second, last)
        }
        _ => false,
    }
}

// The states, with all edges led to the states that stand for others.
fn states_of(alloc: Global, nfa: &Nfa, classes: &[usize]) -> Result<Vec<MergedState>, NoMemory>
    requires few { length nfa.now.states < 2 ^ 32 }
    requires classes { AreClasses nfa.now.states (length nfa.now.states) classes.now }
    ensures { IfOk result (λ states.
        states_shown states.items ≡ merged_below classes.now nfa.now.states (length nfa.now.states)) }
{
    let mut states = Vec::new(alloc);
    for state in 0..nfa.len() {
        let new = state_of(alloc, nfa, classes, state)?;
        states.push(new)?;
    }
    Ok(states)
}

// A state that stands for itself, with its edges led; another is final no more and has no edges.
fn state_of(
    alloc: Global,
    nfa: &Nfa,
    classes: &[usize],
    state: usize,
) -> Result<MergedState, NoMemory>
    requires few { length nfa.now.states < 2 ^ 32 }
    requires classes { AreClasses nfa.now.states (length nfa.now.states) classes.now }
    requires state { state < length nfa.now.states }
    ensures { IfOk result (λ new. shown_of new ≡ merged_at classes.now nfa.now.states state) }
{
    if classes[state] == state {
        kept(alloc, nfa, classes, state)
    } else {
        Ok(MergedState {
            is_final: false,
            edges: Few::new(alloc),
        })
    }
}

// A state with its edges led.
fn kept(alloc: Global, nfa: &Nfa, classes: &[usize], state: usize) -> Result<MergedState, NoMemory>
    requires few { length nfa.now.states < 2 ^ 32 }
    requires classes { AreClasses nfa.now.states (length nfa.now.states) classes.now }
    requires state { state < length nfa.now.states }
    ensures { IfOk result (λ new. shown_of new ≡ kept_at classes.now nfa.now.states state) }
{
    let mut edges = Few::new(alloc);
    add_led(
        alloc,
        nfa.edges(state as u32).as_slice(),
        classes,
        &mut edges,
    )?;
    Ok(MergedState {
        is_final: nfa.is_final(state as u32),
        edges,
    })
}

// Adds edges, each led to the state that stands for its target.
fn add_led(
    alloc: Global,
    from: &[NfaEdge],
    classes: &[usize],
    into: &mut Edges,
) -> Result<(), NoMemory>
    requires edges { All (λ edge. edge.target < length classes.now) from.now }
    requires classes { All (λ class. class < 2 ^ 32) classes.now }
    ensures { OnOk result (edges_of into.new ≡ edges_of into.old ++ map (λ edge. led classes.now edge) (edges_of from.now)) }
{
    for edge in from {
        into.push(led_copy(alloc, edge, classes)?)?;
    }
    Ok(())
}

fn led_copy(alloc: Global, edge: &NfaEdge, classes: &[usize]) -> Result<NfaEdge, NoMemory>
    requires edge { edge.now.target < length classes.now }
    requires classes { All (λ class. class < 2 ^ 32) classes.now }
    ensures { IfOk result (λ new. edge_of new ≡ led classes.now (edge_of edge.now)) }
{
    Ok(NfaEdge {
        label: edge.label.copy(alloc)?,
        target: classes[edge.target as usize] as u32,
    })
}

// From which states a final one is reached over letters Top. A state that another stands for has no edges.
#[tactic(auto, using(crate::proofs::Merging::alive_push, crate::proofs::Merging::alive_none))]
fn alive_of(alloc: Global, nfa: &Nfa, classes: &[usize]) -> Result<Vec<bool>, NoMemory>
    requires few { length nfa.now.states < 2 ^ 32 }
    requires classes { AreClasses nfa.now.states (length nfa.now.states) classes.now }
    ensures { IfOk result (λ marks. MergedAlive nfa.now.states classes.now (length nfa.now.states) marks.items) }
{
    let mut marks = Vec::new(alloc);
    for state in 0..nfa.len() {
        let alive = is_alive(nfa, classes, state);
        marks.push(alive)?;
    }
    Ok(marks)
}

// The same of one state.
fn is_alive(nfa: &Nfa, classes: &[usize], state: usize) -> bool
    requires few { length nfa.now.states < 2 ^ 32 }
    requires state { state < length nfa.now.states }
    requires same { length classes.now ≡ length nfa.now.states }
    ensures { IsAlive nfa.now.states classes.now state result }
{
    if classes[state] == state {
        nfa.alive(state as u32)
    } else {
        false
    }
}
