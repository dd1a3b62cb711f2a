ghost use Rattle.std.specs.Prelude.{◌≡◌, ◌++◌, map, IfOk, OnOk};
ghost use Rattle.psl_tree.specs.Trees.{boolean_of, And};
ghost use Rattle.psl_tree.specs.SequenceConstruction.{narrowed, edge_pair};
ghost use Rattle.sere_nfa.specs.Views.{edge_of, edges_of};

use crate::Few;
use psl_base::{Items, NoMemory, boxed};
use psl_tree::Bool;
use std::alloc::Global;

/// An edge of an automaton: it reads one letter on which its label holds, and leads to a state.
#[derive(Debug, Drop)]
pub struct NfaEdge {
    pub label: Bool,
    /// The number of the state that it leads to, counted from 0.
    pub target: u32,
}

/// Edges in order.
pub type Edges = Few<NfaEdge>;

/// Numbers of states.
pub type States = Items<u32>;

// An edge that no letter takes, which lies where a short list of edges has none.
impl Default for NfaEdge {
    fn default() -> NfaEdge {
        NfaEdge {
            label: Bool::Const(false),
            target: 0,
        }
    }
}

impl NfaEdge {
    fn copy(&self, alloc: Global) -> Result<NfaEdge, NoMemory>
        ensures { IfOk result (λ edge. edge_of edge ≡ edge_of self.now) }
    {
        Ok(NfaEdge {
            label: self.label.copy(alloc)?,
            target: self.target,
        })
    }

    // The edge where another Boolean holds too.
    fn narrowed(&self, alloc: Global, label: &Bool) -> Result<NfaEdge, NoMemory>
        ensures { IfOk result (λ edge. edge_of edge ≡ narrowed (boolean_of label.now) (edge_of self.now)) }
    {
        Ok(NfaEdge {
            label: both_hold(alloc, label, &self.label)?,
            target: self.target,
        })
    }
}

/// The Boolean that holds where both do.
pub(crate) fn both_hold(alloc: Global, first: &Bool, second: &Bool) -> Result<Bool, NoMemory>
    ensures { IfOk result (λ new. boolean_of new ≡ And (boolean_of first.now) (boolean_of second.now)) }
{
    let first = boxed(alloc, first.copy(alloc)?)?;
    Ok(Bool::And(first, boxed(alloc, second.copy(alloc)?)?))
}

/// Adds copies of edges.
pub(crate) fn add_copies(alloc: Global, from: &[NfaEdge], into: &mut Edges) -> Result<(), NoMemory>
    ensures { OnOk result (edges_of into.new ≡ edges_of into.old ++ edges_of from.now) }
{
    for edge in from {
        into.push(edge.copy(alloc)?)?;
    }
    Ok(())
}

/// Adds edges where another Boolean holds too.
pub(crate) fn add_narrowed(
    alloc: Global,
    label: &Bool,
    from: &[NfaEdge],
    into: &mut Edges,
) -> Result<(), NoMemory>
    ensures { OnOk result (edges_of into.new ≡ edges_of into.old ++ map (λ edge. narrowed (boolean_of label.now) edge) (edges_of from.now)) }
{
    for edge in from {
        into.push(edge.narrowed(alloc, label)?)?;
    }
    Ok(())
}
