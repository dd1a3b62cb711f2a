ghost use Rattle.std.specs.Prelude.{◌≡◌, ◌<◌, ◌^◌, All, length, map, slice_index, IfOk};
ghost use Rattle.psl_tree.specs.SequenceAutomata.{IsSound, state_at};
ghost use Rattle.sere_nfa.specs.Views.{edges_of};
ghost use Rattle.alternating_theory.specs.Going.{goes_on, entry};
ghost use Rattle.alternating.specs.Stages.{GoingOn};

use psl_base::{Bits, Items, NoMemory};
use sere_nfa::{Edges, Nfa, NfaEdge};
use std::alloc::Global;

/// For each state of a sequence's automaton, whether an edge leads on from it to an end.
pub(crate) fn going_on(alloc: Global, nfa: &Nfa) -> Result<Bits, NoMemory>
    requires sound { IsSound nfa.now }
    requires room { length nfa.now.states < 2 ^ 32 }
    ensures { IfOk result (λ ongoing. GoingOn nfa.now ongoing) }
{
    let mut ongoing = Items::new(alloc);
    for state in 0..nfa.len() as u32 {
        ongoing.push(goes_on(nfa, nfa.edges(state).as_slice()))?;
    }
    Ok(ongoing)
}

/// Whether one of these edges leads to a state from which an end is reached.
pub(crate) fn goes_on(nfa: &Nfa, edges: &[NfaEdge]) -> bool
    requires sound { IsSound nfa.now }
    requires below { All (λ edge. edge.target < length nfa.now.states) edges.now }
    ensures { result ≡ goes_on nfa.now.states (edges_of edges.now) }
{
    for edge in edges {
        if nfa.alive(edge.target) {
            return true;
        }
    }
    false
}

/// A sequence's automaton, the marks of the states from which an edge leads on to an end, and the number
/// of the first state's obligation.
#[derive(Clone, Copy)]
pub(crate) struct Stage<'a> {
    pub(crate) nfa: &'a Nfa,
    pub(crate) ongoing: &'a [bool],
    pub(crate) offset: u32,
}

impl Stage<'_> {
    /// Whether an edge leads on from a state to an end, by the marks.
    pub(crate) fn leads_on(&self, state: u32) -> bool
        requires marked { GoingOn self.now.nfa.now self.now.ongoing.now }
        requires below { state < length self.now.nfa.now.states }
        ensures { result ≡ goes_on self.now.nfa.now.states (state_at self.now.nfa.now.states state).edges }
    {
        self.ongoing[state as usize]
    }
}

/// The edges on which an automaton with one initial state reads its first letter.
pub(crate) fn entry(nfa: &Nfa) -> &Edges
    requires { length nfa.now.initial ≡ 1 }
    ensures shown { edges_of result.now ≡ entry nfa.now }
    ensures below { All (λ edge. edge.target < length nfa.now.states) result.now }
{
    nfa.edges(*nfa.initial().at(0))
}
