// Nodes in the making.
ghost use Rattle.std.specs.Prelude.{◌≡◌, ◌+◌, ◌<◌, ◌≤◌, suc, [], ◌∷◌, ◌++◌, length, ℤ, false, pos, None, Some, IfOk, IfErr, IfSome, OnOk, IsTrue};
ghost use Rattle.clauses.specs.declared.flat.CnfFault.{CnfFault};
ghost use Rattle.clauses.specs.declared.flat.TheConstants.{MOST_VARIABLES};
ghost use Rattle.clauses.specs.Literals.{is_literal};
ghost use Rattle.gates_nodes.specs.declared.node.Node.{Node};
ghost use Rattle.gates_nodes.specs.declared.node.Node.TheVariants.{And, Free};
ghost use Rattle.gates_nodes.specs.Folding as spec;
ghost use Rattle.gates_nodes.specs.Folding.{conjoined, either, folded, higher, lower, place_of, shared, with_node};
ghost use Rattle.gates_nodes.specs.Makes.{AreSound};
ghost use Rattle.gates_nodes.specs.Nodes as nodes;
ghost use Rattle.gates_nodes.specs.Nodes.{node_within, variables_of};
ghost use Rattle.gates_builder.specs.Adding.{Adds, IsOf};

use crate::literals::{negated, no, yes};
use clauses::{CnfFault, MOST_VARIABLES};
use gates_nodes::{Covers, Node};
use std::alloc::Global;
use std::collections::BTreeMap;
use std::marker::Model;

/// Nodes in the making, never more than there may be variables. After an error they are of no use.
#[derive(Debug)]
pub struct Builder {
    given: u32,
    covers: Covers,
    nodes: Vec<Node>,
    places: BTreeMap<(i32, i32), u32>,
}

impl Model for Builder {
    ghost use Rattle.gates_builder.specs.Adding.{Making};
    ghost use Rattle.gates_builder.specs.Kept.{making_of, IsKept};

    ghost Value = { Making };

    ghost view = { making_of };

    ghost invariant = { IsKept };
}

// Written out, so that a caller's proof sees one call where a value is dropped.
impl Drop for Builder {
    fn drop(self) {
        let Builder {
            given: _,
            covers: _,
            nodes: _,
            places: _,
        } = self;
    }
}

impl Builder {
    /// No nodes, behind so many given variables. It takes no memory.
    pub fn new(alloc: Global, given: u32, covers: Covers) -> Builder
        requires { given < MOST_VARIABLES }
        ensures { result ≡ record { given = given; covers = covers; nodes = [] } }
    {
        Builder {
            given,
            covers,
            nodes: Vec::new(alloc),
            places: BTreeMap::new(alloc),
        }
    }

    /// How many variables are given.
    pub fn given(&self) -> u32
        ensures is { result ≡ self.now.given }
        ensures few { result < MOST_VARIABLES }
    {
        self.given
    }

    /// The covers that nodes name.
    pub fn covers(&self) -> &Covers
        ensures { result.now ≡ self.now.covers }
    {
        &self.covers
    }

    /// The nodes. They name earlier literals.
    pub fn nodes(&self) -> &[Node]
        ensures is { result.now ≡ self.now.nodes }
        ensures sound { AreSound self.now.given self.now.nodes }
        ensures few { variables_of self.now.given self.now.nodes ≤ MOST_VARIABLES }
    {
        self.nodes.as_slice()
    }

    /// How many variables there are.
    pub fn variables(&self) -> u32
        ensures is { result ≡ variables_of self.now.given self.now.nodes }
        ensures few { result ≤ MOST_VARIABLES }
    {
        self.given + 1 + self.nodes.len() as u32
    }

    /// The literal that is true.
    pub fn yes(&self) -> i32
        ensures is { result ≡ nodes.yes self.now.given }
        ensures of { IsOf self.now result }
    {
        yes(self.given)
    }

    /// The literal that is false.
    pub fn no(&self) -> i32
        ensures is { result ≡ nodes.no self.now.given }
        ensures of { IsOf self.now result }
    {
        no(self.given)
    }

    // One node more, which is not a conjunction.
    pub(crate) fn push(&mut self, node: Node) -> Result<i32, CnfFault>
        requires other { (first second : ℤ) → spec.is_conjunction first second node ≡ false }
        requires within { IsTrue (node_within (variables_of self.old.given self.old.nodes) node) }
        ensures { Adds self.old self.new (with_node self.old.given self.old.nodes node) result }
    {
        let before = self.variables();
        if before >= MOST_VARIABLES {
            return Err(CnfFault::TooLarge);
        }
        let Ok(()) = self.nodes.push(node) else {
            return Err(CnfFault::NoMemory);
        };
        Ok((before + 1) as i32)
    }

    /// A free node, which stands for a bit of a frame.
    pub fn free(&mut self, frame: u32, bit: u32) -> Result<i32, CnfFault>
        ensures { Adds self.old self.new (with_node self.old.given self.old.nodes (Free frame bit)) result }
    {
        self.push(Node::Free(frame, bit))
    }

    // The place of a conjunction.
    fn find(&self, first: i32, second: i32) -> Option<u32>
        ensures is { result ≡ place_of first second self.now.nodes }
        ensures within { IfSome result (λ place. place < length self.now.nodes) }
    {
        self.places.get(&(first, second)).copied()
    }

    // A conjunction that is not there.
    fn add(&mut self, first: i32, second: i32) -> Result<i32, CnfFault>
        requires new { place_of first second self.old.nodes ≡ None }
        requires first { IsOf self.old first }
        requires second { IsOf self.old second }
        ensures { Adds self.old self.new (with_node self.old.given self.old.nodes (And first second)) result }
    {
        let before = self.variables();
        if before >= MOST_VARIABLES {
            return Err(CnfFault::TooLarge);
        }
        let place = self.nodes.len() as u32;
        let Ok(()) = self.nodes.push(Node::And(first, second)) else {
            return Err(CnfFault::NoMemory);
        };
        match self.places.insert((first, second), place) {
            Ok(_) => Ok((before + 1) as i32),
            Err(_) => {
                let _ = self.nodes.pop();
                Err(CnfFault::NoMemory)
            }
        }
    }

    // The conjunction of two literals, in this order.
    fn share(&mut self, first: i32, second: i32) -> Result<i32, CnfFault>
        requires first { IsOf self.old first }
        requires second { IsOf self.old second }
        ensures { Adds self.old self.new (shared self.old.given self.old.nodes first second) result }
    {
        match self.find(first, second) {
            Some(place) => Ok((self.given + 1 + place + 1) as i32),
            None => self.add(first, second),
        }
    }

    // The literal that a conjunction is folded to.
    fn fold(&self, first: i32, second: i32) -> Option<i32>
        requires first { IsOf self.now first }
        requires second { IsOf self.now second }
        ensures is { result ≡ folded self.now.given first second }
        ensures of { IfSome result (λ literal. IsOf self.now literal) }
    {
        if first == second {
            Some(first)
        } else if first == negated(second) {
            Some(self.no())
        } else if first == self.yes() {
            Some(second)
        } else if second == self.yes() {
            Some(first)
        } else if first == self.no() || second == self.no() {
            Some(self.no())
        } else {
            None
        }
    }

    /// The conjunction of two literals.
    pub fn and(&mut self, first: i32, second: i32) -> Result<i32, CnfFault>
        requires first { IsOf self.old first }
        requires second { IsOf self.old second }
        ensures { Adds self.old self.new (conjoined self.old.given self.old.nodes first second) result }
    {
        match self.fold(first, second) {
            Some(literal) => Ok(literal),
            None => {
                if first < second {
                    self.share(first, second)
                } else {
                    self.share(second, first)
                }
            }
        }
    }

    /// One of two literals.
    pub fn or(&mut self, first: i32, second: i32) -> Result<i32, CnfFault>
        requires first { IsOf self.old first }
        requires second { IsOf self.old second }
        ensures { Adds self.old self.new (either self.old.given self.old.nodes first second) result }
    {
        let neither = self.and(negated(first), negated(second))?;
        Ok(negated(neither))
    }
}
