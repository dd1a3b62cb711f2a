// One solver for the nodes of a path and the clauses beside them.
ghost use Rattle.std.specs.Prelude.{◌≤◌};
ghost use Rattle.clauses.specs.declared.flat.TheConstants.{MOST_VARIABLES};

use crate::growing::{add, add_all, are_within, empty, open_all};
use crate::nodes::add_node;
use cdcl_incremental::{Asked, Growing};
use clauses::{Clauses, CnfFault};
use gates_builder::Builder;
use std::alloc::Global;

/// A solver, and how many nodes have their clauses in it.
pub(crate) struct NodeSolver {
    growing: Growing,
    nodes: usize,
}

// Written out, so that a caller's proof sees one call where a value is dropped.
impl Drop for NodeSolver {
    fn drop(self) {
        let NodeSolver {
            growing: _,
            nodes: _,
        } = self;
    }
}

impl NodeSolver {
    /// A solver over no node, whose first variable is true.
    pub fn new(alloc: Global) -> Result<NodeSolver, CnfFault> {
        let mut growing = empty(alloc, 1)?;
        add(alloc, &mut growing, &[1])?;
        Ok(NodeSolver { growing, nodes: 0 })
    }

    /// Takes over the nodes that were added to a builder, and clauses over them.
    pub fn take(
        &mut self,
        alloc: Global,
        builder: &Builder,
        clauses: &Clauses,
    ) -> Result<(), CnfFault> {
        self.open_to(alloc, builder.variables())?;
        let nodes = clauses_of(alloc, builder, self.nodes)?;
        self.nodes = builder.nodes().len();
        add_all(alloc, &mut self.growing, &nodes)?;
        add_all(alloc, &mut self.growing, clauses)
    }

    // Sees to it that there are so many variables. Where there is no room for them, a new solver begins.
    fn open_to(&mut self, alloc: Global, variables: u32) -> Result<(), CnfFault>
        requires { variables ≤ MOST_VARIABLES }
    {
        if open_all(&mut self.growing, variables) {
            return Ok(());
        }
        let mut larger = empty(alloc, variables)?;
        add_all(alloc, &mut larger, self.growing.clauses())?;
        self.growing = larger;
        Ok(())
    }

    /// Asks for a model in which a literal is true, with at most so many conflicts. From then on the literal is false.
    pub fn ask(&mut self, alloc: Global, literal: i32, steps: u64) -> Result<Asked, CnfFault> {
        let assumed = [literal];
        if !are_within(self.growing.variables(), &assumed) {
            return Ok(Asked::Spent);
        }
        let asked = self.growing.ask(alloc, &assumed, steps)?;
        add(alloc, &mut self.growing, &[literal.wrapping_neg()])?;
        Ok(asked)
    }

    /// Adds a clause.
    pub fn add(&mut self, alloc: Global, clause: &[i32]) -> Result<(), CnfFault> {
        add(alloc, &mut self.growing, clause)
    }
}

// The clauses of the nodes from a place on.
fn clauses_of(alloc: Global, builder: &Builder, from: usize) -> Result<Clauses, CnfFault> {
    let mut clauses = Clauses::new(alloc);
    for place in from..builder.nodes().len() {
        add_node(alloc, builder, place, &mut clauses)?;
    }
    Ok(clauses)
}
