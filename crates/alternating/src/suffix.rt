ghost use Rattle.std.specs.Prelude.{◌≡◌, ◌+◌, ◌<◌, ◌++◌, All, length, map, IfOk};
ghost use Rattle.psl_tree.specs.Trees.{boolean_of, Not};
ghost use Rattle.alternating_theory.specs.Positive.{Holds};
ghost use Rattle.sere_nfa.specs.Views.{edge_of, edges_of};
ghost use Rattle.alternating_theory.specs.Construction.{going, going_edge, quiet, quiet_edge, suffix_obligation, suffix_part};
ghost use Rattle.alternating.specs.Held.{HasStage};
ghost use Rattle.alternating.specs.Stages.{IsStage};
ghost use Rattle.alternating.specs.Parts.{part_of_code};
ghost use Rattle.alternating.specs.Views.{positive_of, obligation_of};

use crate::obligation::Obligation;
use crate::part::{Part, add};
use crate::pending::Pending;
use crate::positive::{Positive, all_of, one_of};
use crate::stage::{Stage, entry, goes_on};
use psl_base::{NoMemory, boxed};
use psl_tree::Bool;
use sere_nfa::{Nfa, NfaEdge};
use std::alloc::Global;

/// The part that each prefix of the sequence is followed by. The obligations of the sequence's states
/// follow those of the part, from the offset on.
pub(crate) fn suffix(
    alloc: Global,
    nfa: &Nfa,
    ongoing: &[bool],
    offset: u32,
    part: Part,
) -> Result<Part, NoMemory>
    requires { IsStage nfa.now ongoing.now (offset + length part.rest.items) }
    ensures { IfOk result (λ new. part_of_code new ≡ suffix_part offset nfa.now (part_of_code part)) }
{
    let Part { start, mut rest } = part;
    let follows = start.settled(alloc)?;
    let stage = Stage {
        nfa,
        ongoing,
        offset: offset + rest.len() as u32,
    };
    let edges = entry(nfa).as_slice();
    let start = suffix_obligation(alloc, &stage, false, &follows, edges)?;
    for state in 0..nfa.len() as u32 {
        let edges = nfa.edges(state).as_slice();
        let new = suffix_obligation(alloc, &stage, true, &follows, edges)?;
        add(&mut rest, Pending::new(new))?;
    }
    Ok(Part {
        start: Pending::new(start),
        rest,
    })
}

// Each prefix that is read over these edges is followed by what the part asks, from its last letter
// on.
fn suffix_obligation(
    alloc: Global,
    stage: &Stage,
    accepting: bool,
    part: &Obligation,
    edges: &[NfaEdge],
) -> Result<Obligation, NoMemory>
    requires stage { HasStage stage.now }
    requires below { All (λ edge. edge.target < length stage.now.nfa.now.states) edges.now }
    ensures { IfOk result (λ new. obligation_of new ≡ suffix_obligation stage.now.nfa.now.states stage.now.offset accepting (obligation_of part.now) (edges_of edges.now)) }
{
    let steps = going(alloc, stage, edges)?;
    let ends = quiet(alloc, stage.nfa, edges)?;
    let follows = one_of(alloc, ends, part.delta.copy(alloc)?)?;
    Ok(Obligation {
        delta: all_of(alloc, steps, follows)?,
        accepting,
        end: true,
        top: true,
        bottom: !goes_on(stage.nfa, edges) || part.bottom,
    })
}

// Where the dual letter takes an edge, the state that it leads to is owed next, if it goes on.
fn going(alloc: Global, stage: &Stage, edges: &[NfaEdge]) -> Result<Positive, NoMemory>
    requires stage { HasStage stage.now }
    requires below { All (λ edge. edge.target < length stage.now.nfa.now.states) edges.now }
    ensures { IfOk result (λ new. positive_of new ≡ going stage.now.nfa.now.states stage.now.offset (edges_of edges.now)) }
{
    let mut found = Positive::Const(true);
    for done in 0..edges.len() {
        let edge = &edges[edges.len() - 1 - done];
        found = going_edge(alloc, stage, edge, found)?;
    }
    Ok(found)
}

fn going_edge(
    alloc: Global,
    stage: &Stage,
    edge: &NfaEdge,
    others: Positive,
) -> Result<Positive, NoMemory>
    requires stage { HasStage stage.now }
    requires below { edge.now.target < length stage.now.nfa.now.states }
    ensures { IfOk result (λ new. positive_of new ≡ going_edge stage.now.nfa.now.states stage.now.offset (edge_of edge.now) (positive_of others)) }
{
    if !stage.leads_on(edge.target) {
        return Ok(others);
    }
    let next = Positive::Owed(stage.offset + edge.target);
    let step = one_of(alloc, not_label(alloc, edge)?, next)?;
    all_of(alloc, step, others)
}

// The dual letter takes no edge to a final state.
fn quiet(alloc: Global, nfa: &Nfa, edges: &[NfaEdge]) -> Result<Positive, NoMemory>
    requires { All (λ edge. edge.target < length nfa.now.states) edges.now }
    ensures { IfOk result (λ new. positive_of new ≡ quiet nfa.now.states (edges_of edges.now)) }
{
    let mut found = Positive::Const(true);
    for done in 0..edges.len() {
        let edge = &edges[edges.len() - 1 - done];
        found = quiet_edge(alloc, nfa, edge, found)?;
    }
    Ok(found)
}

fn quiet_edge(
    alloc: Global,
    nfa: &Nfa,
    edge: &NfaEdge,
    others: Positive,
) -> Result<Positive, NoMemory>
    requires { edge.now.target < length nfa.now.states }
    ensures { IfOk result (λ new. positive_of new ≡ quiet_edge nfa.now.states (edge_of edge.now) (positive_of others)) }
{
    if !nfa.is_final(edge.target) {
        return Ok(others);
    }
    all_of(alloc, not_label(alloc, edge)?, others)
}

// The edge's label does not hold.
fn not_label(alloc: Global, edge: &NfaEdge) -> Result<Positive, NoMemory>
    ensures { IfOk result (λ new. positive_of new ≡ Holds (Not (boolean_of edge.now.label))) }
{
    let label = boxed(alloc, edge.label.copy(alloc)?)?;
    Ok(Positive::Holds(Bool::Not(label)))
}
