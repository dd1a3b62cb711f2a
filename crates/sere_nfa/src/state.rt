ghost use Rattle.std.specs.Prelude.{◌≡◌, ◌++◌, map, OnOk, IfOk};
ghost use Rattle.std.specs.Option.{option_map};
ghost use Rattle.psl_tree.specs.Trees.{boolean_of};
ghost use Rattle.psl_tree.specs.SequenceConstruction.{either_of, both_of, joined, fused};
ghost use Rattle.sere_nfa.specs.Views.{draft_of, drafts_of};

use crate::edge::{Edges, add_copies, add_narrowed, both_hold};
use psl_base::{NoMemory, boxed};
use psl_tree::Bool;
use std::alloc::Global;

/// A state of an automaton.
#[derive(Debug)]
pub(crate) struct State {
    /// Whether a list may end here.
    pub(crate) is_final: bool,
    pub(crate) edges: Edges,
    /// On which letters one letter alone leads from here to an end, which fusions ask while the
    /// automaton is made. None where no letter does.
    pub(crate) ending: Option<Bool>,
}

// Written out, so that a caller's proof sees one call where a value is dropped.
impl Drop for State {
    fn drop(self) {
        let State {
            is_final: _,
            edges: _,
            ending: _,
        } = self;
    }
}

impl State {
    /// Lets the state go on as the next one does where it is final.
    pub(crate) fn join(&mut self, alloc: Global, next: &State) -> Result<(), NoMemory>
        ensures { OnOk result (draft_of self.new ≡ joined (draft_of next.now) (draft_of self.old)) }
    {
        let mut ending = self.ending.take();
        if !next.is_final {
            ending = None;
        }
        if self.is_final {
            add_copies(alloc, next.edges.as_slice(), &mut self.edges)?;
            ending = either_of(alloc, ending, &next.ending)?;
        }
        self.ending = ending;
        self.is_final = self.is_final && next.is_final;
        Ok(())
    }

    /// Lets the state go on as the next one does, on a letter that also leads from it to an end.
    pub(crate) fn fuse(&mut self, alloc: Global, next: &State) -> Result<(), NoMemory>
        ensures { OnOk result (draft_of self.new ≡ fused (draft_of next.now) (draft_of self.old)) }
    {
        if let Some(label) = &self.ending {
            add_narrowed(alloc, label, next.edges.as_slice(), &mut self.edges)?;
        }
        self.ending = both_of(alloc, &self.ending, &next.ending)?;
        self.is_final = false;
        Ok(())
    }
}

/// Lets each state go on as the next one does where it is final.
pub(crate) fn join_all(alloc: Global, states: &mut [State], next: &State) -> Result<(), NoMemory>
    ensures { OnOk result (drafts_of states.new ≡ map (λ state. joined (draft_of next.now) state) (drafts_of states.old)) }
{
    for state in states.iter_mut() {
        state.join(alloc, next)?;
    }
    Ok(())
}

/// The Boolean that holds where either does, of those that there are.
pub(crate) fn either_of(
    alloc: Global,
    first: Option<Bool>,
    second: &Option<Bool>,
) -> Result<Option<Bool>, NoMemory>
    ensures { IfOk result (λ new. option_map boolean_of new ≡ either_of (option_map boolean_of first) (option_map boolean_of second.now)) }
{
    let Some(second) = second else {
        return Ok(first);
    };
    let second = second.copy(alloc)?;
    match first {
        None => Ok(Some(second)),
        Some(first) => {
            let first = boxed(alloc, first)?;
            Ok(Some(Bool::Or(first, boxed(alloc, second)?)))
        }
    }
}

/// The Boolean that holds where both do, where both are there.
pub(crate) fn both_of(
    alloc: Global,
    first: &Option<Bool>,
    second: &Option<Bool>,
) -> Result<Option<Bool>, NoMemory>
    ensures { IfOk result (λ new. option_map boolean_of new ≡ both_of (option_map boolean_of first.now) (option_map boolean_of second.now)) }
{
    match (first, second) {
        (Some(first), Some(second)) => Ok(Some(both_hold(alloc, first, second)?)),
        _ => Ok(None),
    }
}

/// Lets each state go on as the next one does, on a letter that also leads from it to an end.
pub(crate) fn fuse_all(alloc: Global, states: &mut [State], next: &State) -> Result<(), NoMemory>
    ensures { OnOk result (drafts_of states.new ≡ map (λ state. fused (draft_of next.now) state) (drafts_of states.old)) }
{
    for state in states.iter_mut() {
        state.fuse(alloc, next)?;
    }
    Ok(())
}

/// Adds states at the end.
pub(crate) fn add_states(states: &mut Vec<State>, mut rest: Vec<State>) -> Result<(), NoMemory>
    ensures { OnOk result (states.new.items ≡ states.old.items ++ rest.items) }
{
    states.append(&mut rest)?;
    Ok(())
}
