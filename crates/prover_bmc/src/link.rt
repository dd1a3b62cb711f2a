// A place of a chain of joint states, and the one behind it.
ghost use Rattle.std.specs.Prelude.{◌≡◌, ◌≤◌, length, IfOk, IfSome, OnOk};
ghost use Rattle.gates_builder.specs.Adding.{AreOf, Making};
ghost use Rattle.prover_bmc.specs.Chains.{IsLink};
ghost use Rattle.prover_bmc.specs.Later.{IsLater};
ghost use Rattle.prover_bmc.specs.Plans.{AreDebts, IsPlace, IsPlan};

use crate::debts::next_debts;
use crate::dues::{Place, add_dues};
use crate::frames::add_frame;
use crate::pending::{free_debts, may_meet, pending_of};
use crate::plan::Plan;
use crate::support::add_supports;
use alternating::Alternating;
use clauses::{Clauses, CnfFault};
use gates_builder::Builder;
use gates_theory::Literals;
use gates_unroll::first_frame;
use std::alloc::Global;

/// The literals of a place: of its signals, of what may be owed there, and of what of that may be pending.
pub(crate) struct Link {
    pub frame: Literals,
    pub debts: Literals,
    pub pending: Literals,
}

// Written out, so that a caller's proof sees one call where a value is dropped.
impl Drop for Link {
    fn drop(self) {
        let Link {
            frame: _,
            debts: _,
            pending: _,
        } = self;
    }
}

impl Link {
    /// Any valuation, and anything that may be owed there.
    pub fn first(
        alloc: Global,
        builder: &mut Builder,
        plan: &Plan<'_>,
        clauses: &mut Clauses,
    ) -> Result<Link, CnfFault>
        requires plan { IsPlan plan.now }
        requires covers { length plan.now.netlist.now.tables ≤ length builder.old.covers }
        ensures later { OnOk result (IsLater builder.old builder.new) }
        ensures link { IfOk result (IsLink builder.new plan.now) }
    {
        let order = plan.order.as_slice();
        let frame = first_frame(alloc, builder, plan.netlist, order, &plan.cone, false)?;
        let automaton = plan.automaton;
        let debts = free_debts(alloc, builder, automaton)?;
        let pending = pending_of(alloc, builder, automaton, debts.as_slice(), 0, clauses)?;
        Ok(Link {
            frame,
            debts,
            pending,
        })
    }

    /// The place of a number, behind this one. Clauses say that its joint state may follow that of this one, which
    /// follows that of another one, if there is one.
    pub fn next(
        &self,
        alloc: Global,
        builder: &mut Builder,
        plan: &Plan<'_>,
        number: u32,
        before: Option<&Link>,
        clauses: &mut Clauses,
    ) -> Result<Link, CnfFault>
        requires plan { IsPlan plan.now }
        requires covers { length plan.now.netlist.now.tables ≤ length builder.old.covers }
        requires link { IsLink builder.old plan.now self.now }
        requires before { IfSome before (λ link. IsLink builder.old plan.now link.now) }
        ensures later { OnOk result (IsLater builder.old builder.new) }
        ensures link { IfOk result (IsLink builder.new plan.now) }
    {
        let frame = add_frame(alloc, builder, plan, number, Some(&self.frame))?;
        let automaton = plan.automaton;
        let debts = next_debts(alloc, builder, automaton, self.debts.as_slice(), number)?;
        let pending = pending_of(alloc, builder, automaton, debts.as_slice(), number, clauses)?;
        let next = Link {
            frame,
            debts,
            pending,
        };
        self.meet(alloc, builder, plan, before, &next, clauses)?;
        Ok(next)
    }

    // Clauses that what is owed here is met by the letter and what is owed at the next place, which it asks for; and that
    // what is pending here is met by what is accepting or pending there.
    fn meet(
        &self,
        alloc: Global,
        builder: &mut Builder,
        plan: &Plan<'_>,
        before: Option<&Link>,
        next: &Link,
        clauses: &mut Clauses,
    ) -> Result<(), CnfFault>
        requires link { IsLink builder.old plan.now self.now }
        requires before { IfSome before (λ link. IsLink builder.old plan.now link.now) }
        requires next { IsLink builder.old plan.now next.now }
        ensures { OnOk result (IsLater builder.old builder.new) }
    {
        let automaton = plan.automaton;
        let earlier = frame_of(before);
        let (debts, pending) = (next.debts.as_slice(), next.pending.as_slice());
        let may = may_meet(alloc, builder, automaton, debts, pending)?;
        let owed = Place::new(earlier, self.frame.as_slice(), debts);
        add_followed(
            builder,
            automaton,
            owed,
            self.debts.as_slice(),
            debts,
            clauses,
        )?;
        let put_off = Place::new(earlier, self.frame.as_slice(), may.as_slice());
        add_followed(
            builder,
            automaton,
            put_off,
            self.pending.as_slice(),
            pending,
            clauses,
        )
    }
}

// The literals of the signals of a place, if there is one.
fn frame_of(link: Option<&Link>) -> Option<&[i32]>
    ensures { (making : Making) → IfSome link.entry (λ link. AreOf making link.now.frame)
        → IfSome result (λ literals. AreOf making literals.now) }
{
    match link {
        Some(link) => Some(link.frame.as_slice()),
        None => None,
    }
}

// Clauses that some obligations are met at a place, and ask for all of some at the next one.
fn add_followed(
    builder: &mut Builder,
    automaton: &Alternating,
    place: Place,
    debts: &[i32],
    next: &[i32],
    clauses: &mut Clauses,
) -> Result<(), CnfFault>
    requires place { IsPlace builder.old place }
    requires debts { AreDebts builder.old automaton.now debts.now }
    requires next { AreDebts builder.old automaton.now next.now }
    ensures { OnOk result (IsLater builder.old builder.new) }
{
    add_dues(builder, automaton, place, debts, clauses)?;
    add_supports(builder, automaton, place, debts, next, clauses)
}
