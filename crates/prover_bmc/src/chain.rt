// Joint states that follow one another, from any first one on, as an induction asks for them.
ghost use Rattle.std.specs.Prelude.{◌≡◌, ◌≤◌, length, IfOk, OnOk};
ghost use Rattle.prover_bmc.specs.Chains.{IsChain};
ghost use Rattle.prover_bmc.specs.Plans.{IsPlan};

use crate::apart::add_apart;
use crate::link::Link;
use crate::listed::Listed;
use crate::pending::add_none;
use crate::plan::Plan;
use crate::solver::NodeSolver;
use cdcl_incremental::Asked;
use clauses::{Clauses, CnfFault};
use gates_builder::Builder;
use gates_covers::covers_of;
use std::alloc::Global;

/// The places so far, and a solver for them.
pub(crate) struct Chain {
    pub builder: Builder,
    pub solver: NodeSolver,
    /// The place before the last one, if there is one, and the last one.
    pub before: Option<Link>,
    pub last: Link,
    pub listed: Listed,
}

// Written out, so that a caller's proof sees one call where a value is dropped.
impl Drop for Chain {
    fn drop(self) {
        let Chain {
            builder: _,
            solver: _,
            before: _,
            last: _,
            listed: _,
        } = self;
    }
}

impl Chain {
    /// One place.
    pub fn new(alloc: Global, plan: &Plan<'_>) -> Result<Chain, CnfFault>
        requires { IsPlan plan.now }
        ensures { IfOk result (IsChain plan.now) }
    {
        let covers = covers_of(alloc, plan.netlist.tables().as_slice())?;
        let mut builder = Builder::new(alloc, 0, covers);
        let mut clauses = Clauses::new(alloc);
        let last = Link::first(alloc, &mut builder, plan, &mut clauses)?;
        let mut solver = NodeSolver::new(alloc)?;
        solver.take(alloc, &builder, &clauses)?;
        let mut listed = Listed::new(alloc, plan.netlist);
        listed.push(alloc, plan.netlist, &last)?;
        Ok(Chain {
            builder,
            solver,
            before: None,
            last,
            listed,
        })
    }

    /// How many places there are behind the first one: the window that is asked for.
    pub fn window(&self) -> usize {
        self.listed.inputs.len().saturating_sub(1)
    }

    /// One place more. The last one is not bad then: something is pending at the place before it.
    pub fn widen(self, alloc: Global, plan: &Plan<'_>) -> Result<Chain, CnfFault>
        requires plan { IsPlan plan.now }
        requires chain { IsChain plan.now self }
        ensures { IfOk result (IsChain plan.now) }
    {
        let Chain {
            mut builder,
            mut solver,
            before,
            last,
            mut listed,
        } = self;
        if let Some(before) = &before {
            solver.add(alloc, before.pending.as_slice())?;
        }
        let Ok(number) = u32::try_from(listed.inputs.len()) else {
            return Err(CnfFault::TooLarge);
        };
        let mut clauses = Clauses::new(alloc);
        let next = last.next(
            alloc,
            &mut builder,
            plan,
            number,
            before.as_ref(),
            &mut clauses,
        )?;
        solver.take(alloc, &builder, &clauses)?;
        listed.push(alloc, plan.netlist, &next)?;
        Ok(Chain {
            builder,
            solver,
            before: Some(last),
            last: next,
            listed,
        })
    }

    /// Asks for values such that the last place is bad and none before it, with at most so many conflicts: nothing is
    /// pending at the place before it, so it counts one visit.
    pub fn ask(&mut self, alloc: Global, plan: &Plan<'_>, steps: u64) -> Result<Asked, CnfFault>
        requires chain { IsChain plan.now self.old }
        ensures { OnOk result (IsChain plan.now self.new) }
    {
        let _signals = plan.netlist.signals();
        let Some(before) = &self.before else {
            return Ok(Asked::Spent);
        };
        let mut clauses = Clauses::new(alloc);
        let none = add_none(&mut self.builder, before.pending.as_slice(), &mut clauses)?;
        self.solver.take(alloc, &self.builder, &clauses)?;
        self.solver.ask(alloc, none, steps)
    }

    /// Asks from now on that two places are different. They are counted from 0.
    pub fn part(
        &mut self,
        alloc: Global,
        plan: &Plan<'_>,
        first: usize,
        second: usize,
    ) -> Result<(), CnfFault>
        requires chain { IsChain plan.now self.old }
        ensures { OnOk result (IsChain plan.now self.new) }
    {
        let _signals = plan.netlist.signals();
        let left = self.listed.literals_at(alloc, first)?;
        let right = self.listed.literals_at(alloc, second)?;
        add_apart(
            alloc,
            &mut self.builder,
            &mut self.solver,
            left.as_slice(),
            right.as_slice(),
        )
    }
}
