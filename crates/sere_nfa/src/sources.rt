ghost use Rattle.std.specs.Prelude.{◌≡◌, ◌+◌, ◌^◌, ◌<◌, ◌++◌, ℕ, [], length, replicate, slice_index_or, IfOk, OnOk};
ghost use Rattle.sere_nfa.specs.Marking.{sources_in, sources_from, AddsSources};
ghost use Rattle.sere_nfa.specs.Views.{edges_of, states_of_code, TargetsWithin, StatesWithin};

use crate::edge::NfaEdge;
use crate::state::State;
use psl_base::{Items, NoMemory, Numbers};
use std::alloc::Global;

/// For each state, the states from which an edge leads to it, each once for each such edge.
pub(crate) fn sources_of(alloc: Global, states: &[State]) -> Result<Vec<Numbers>, NoMemory>
    requires within { StatesWithin 0 (length states.now) states.now }
    requires room { length states.now < 2 ^ 32 }
    ensures len { IfOk result (λ sources. length sources.items ≡ length states.now) }
    ensures each { IfOk result (λ sources. (target : ℕ) → target < length states.now → slice_index_or sources.items target [] ≡ sources_from 0 target (states_of_code states.now)) }
{
    let mut sources = no_sources(alloc, states.len())?;
    for (number, state) in states.iter().enumerate() {
        add_sources(&mut sources, number as u32, state.edges.as_slice())?;
    }
    Ok(sources)
}

// So many empty lists.
fn no_sources(alloc: Global, count: usize) -> Result<Vec<Numbers>, NoMemory>
    ensures { IfOk result (λ sources. sources.items ≡ replicate count []) }
{
    let mut sources = Vec::new(alloc);
    for _added in 0..count {
        sources.push(Items::new(alloc))?;
    }
    Ok(sources)
}

// Adds a state to the sources of each target of its edges.
fn add_sources(sources: &mut Vec<Numbers>, number: u32, edges: &[NfaEdge]) -> Result<(), NoMemory>
    requires { TargetsWithin 0 (length sources.old.items) edges.now }
    ensures len { OnOk result (length sources.new.items ≡ length sources.old.items) }
    ensures each { OnOk result (AddsSources sources.old.items sources.new.items number (edges_of edges.now)) }
{
    for edge in edges {
        sources[edge.target as usize].push(number)?;
    }
    Ok(())
}
