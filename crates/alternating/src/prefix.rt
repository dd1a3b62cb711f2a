ghost use Rattle.std.specs.Prelude.{◌≡◌, ◌<◌, All, length, map, IfOk};
ghost use Rattle.sere_nfa.specs.Views.{edge_of, edges_of};
ghost use Rattle.alternating_theory.specs.Construction.{taken, taken_edge, prefix_obligation, prefix_part};
ghost use Rattle.alternating.specs.Held.{HasStage};
ghost use Rattle.alternating.specs.Parts.{part_of_code};
ghost use Rattle.alternating.specs.Pending.{pendings_of};
ghost use Rattle.alternating.specs.Views.{positive_of, obligation_of};

use crate::obligation::Obligation;
use crate::part::{Part, add};
use crate::pending::Pending;
use crate::positive::{Positive, all_of, one_of};
use crate::stage::{Stage, entry, goes_on};
use psl_base::NoMemory;
use sere_nfa::NfaEdge;
use std::alloc::Global;

/// The part of a sequence of which a prefix must be read, with its value where the word has ended.
pub(crate) fn prefix(alloc: Global, stage: &Stage, end: bool) -> Result<Part, NoMemory>
    requires { HasStage stage.now }
    ensures { IfOk result (λ part. part_of_code part ≡ prefix_part stage.now.offset end stage.now.nfa.now) }
{
    let edges = entry(stage.nfa).as_slice();
    let start = prefix_obligation(alloc, stage, end, edges)?;
    let mut rest = Vec::new(alloc);
    for state in 0..stage.nfa.len() as u32 {
        let edges = stage.nfa.edges(state).as_slice();
        let new = prefix_obligation(alloc, stage, end, edges)?;
        add(&mut rest, Pending::new(new))?;
    }
    Ok(Part {
        start: Pending::new(start),
        rest,
    })
}

// A prefix of what follows is read over these edges.
fn prefix_obligation(
    alloc: Global,
    stage: &Stage,
    end: bool,
    edges: &[NfaEdge],
) -> Result<Obligation, NoMemory>
    requires stage { HasStage stage.now }
    requires below { All (λ edge. edge.target < length stage.now.nfa.now.states) edges.now }
    ensures { IfOk result (λ new. obligation_of new ≡ prefix_obligation stage.now.nfa.now.states stage.now.offset end (edges_of edges.now)) }
{
    Ok(Obligation {
        delta: taken(alloc, stage, edges)?,
        accepting: end,
        end,
        top: goes_on(stage.nfa, edges),
        bottom: false,
    })
}

// Some edge is taken.
fn taken(alloc: Global, stage: &Stage, edges: &[NfaEdge]) -> Result<Positive, NoMemory>
    requires stage { HasStage stage.now }
    requires below { All (λ edge. edge.target < length stage.now.nfa.now.states) edges.now }
    ensures { IfOk result (λ new. positive_of new ≡ taken stage.now.nfa.now.states stage.now.offset (edges_of edges.now)) }
{
    let mut found = Positive::Const(false);
    for done in 0..edges.len() {
        let edge = &edges[edges.len() - 1 - done];
        found = taken_edge(alloc, stage, edge, found)?;
    }
    Ok(found)
}

// The edge is taken, or what stands for the others is met.
fn taken_edge(
    alloc: Global,
    stage: &Stage,
    edge: &NfaEdge,
    others: Positive,
) -> Result<Positive, NoMemory>
    requires stage { HasStage stage.now }
    requires below { edge.now.target < length stage.now.nfa.now.states }
    ensures { IfOk result (λ new. positive_of new ≡ taken_edge stage.now.nfa.now.states stage.now.offset (edge_of edge.now) (positive_of others)) }
{
    if stage.nfa.is_final(edge.target) {
        return one_of(alloc, Positive::Holds(edge.label.copy(alloc)?), others);
    }
    if !stage.leads_on(edge.target) {
        return Ok(others);
    }
    let label = Positive::Holds(edge.label.copy(alloc)?);
    let step = all_of(alloc, label, Positive::Owed(stage.offset + edge.target))?;
    one_of(alloc, step, others)
}
