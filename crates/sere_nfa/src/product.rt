ghost use Rattle.std.specs.Prelude.{◌≡◌, ◌+◌, ◌*◌, ◌^◌, ◌<◌, ◌++◌, map, OnOk, IfOk};
ghost use Rattle.psl_tree.specs.SequenceConstruction.{edge_pair, state_pair, state_pairs};
ghost use Rattle.sere_nfa.specs.Views.{edge_of, edges_of, draft_of, drafts_of, TargetsWithin, StatesWithin};

use crate::Few;
use crate::edge::{Edges, NfaEdge, both_hold};
use crate::state::{State, both_of};
use psl_base::NoMemory;
use std::alloc::Global;

/// How the pairs of a product are numbered: i below height and j below width have the number
/// offset + i * width + j.
#[derive(Clone, Copy, Debug)]
pub(crate) struct Product {
    pub(crate) alloc: Global,
    pub(crate) offset: u32,
    pub(crate) height: u32,
    pub(crate) width: u32,
    pub(crate) ghost room: { offset + height * width < 2 ^ 32 },
}

impl Product {
    /// The states for each state of a list taken together with each of another.
    pub(crate) fn pair_all(
        self,
        firsts: &[State],
        seconds: &[State],
    ) -> Result<Vec<State>, NoMemory>
        requires first_within { StatesWithin 0 self.height firsts.now }
        requires second_within { StatesWithin 0 self.width seconds.now }
        ensures { IfOk result (λ states. drafts_of states.items ≡ state_pairs self.offset self.width (drafts_of firsts.now) (drafts_of seconds.now)) }
    {
        let mut states = Vec::new(self.alloc);
        for first in firsts {
            self.add_row(first, seconds, &mut states)?;
        }
        Ok(states)
    }

    // Adds the states for a state taken together with each of others.
    fn add_row(
        self,
        first: &State,
        seconds: &[State],
        into: &mut Vec<State>,
    ) -> Result<(), NoMemory>
        requires first_within { TargetsWithin 0 self.height first.now.edges }
        requires second_within { StatesWithin 0 self.width seconds.now }
        ensures { OnOk result (drafts_of into.new.items ≡ drafts_of into.old.items ++ map (λ second. state_pair self.offset self.width (draft_of first.now) second) (drafts_of seconds.now)) }
    {
        for second in seconds {
            let new = self.pair(first, second)?;
            into.push(new)?;
        }
        Ok(())
    }

    /// The state for two states taken together.
    pub(crate) fn pair(self, first: &State, second: &State) -> Result<State, NoMemory>
        requires first_within { TargetsWithin 0 self.height first.now.edges }
        requires second_within { TargetsWithin 0 self.width second.now.edges }
        ensures { IfOk result (λ new. draft_of new ≡ state_pair self.offset self.width (draft_of first.now) (draft_of second.now)) }
    {
        let mut edges = Few::new(self.alloc);
        for edge in first.edges.as_slice() {
            self.add_pairs(edge, second.edges.as_slice(), &mut edges)?;
        }
        Ok(State {
            is_final: first.is_final && second.is_final,
            edges,
            ending: both_of(self.alloc, &first.ending, &second.ending)?,
        })
    }

    // Adds the edges for an edge taken together with each of others.
    fn add_pairs(
        self,
        first: &NfaEdge,
        seconds: &[NfaEdge],
        into: &mut Edges,
    ) -> Result<(), NoMemory>
        requires first_within { first.now.target < self.height }
        requires second_within { TargetsWithin 0 self.width seconds.now }
        ensures { OnOk result (edges_of into.new ≡ edges_of into.old ++ map (λ second. edge_pair self.offset self.width (edge_of first.now) second) (edges_of seconds.now)) }
    {
        for second in seconds {
            into.push(self.pair_edge(first, second)?)?;
        }
        Ok(())
    }

    // The edge for two edges taken together.
    fn pair_edge(self, first: &NfaEdge, second: &NfaEdge) -> Result<NfaEdge, NoMemory>
        requires first_within { first.now.target < self.height }
        requires second_within { second.now.target < self.width }
        ensures { IfOk result (λ edge. edge_of edge ≡ edge_pair self.offset self.width (edge_of first.now) (edge_of second.now)) }
    {
        let label = both_hold(self.alloc, &first.label, &second.label)?;
        let target = self.offset + first.target * self.width + second.target;
        Ok(NfaEdge { label, target })
    }
}
