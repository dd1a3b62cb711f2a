// One valuation more of a path.
ghost use Rattle.std.specs.Prelude.{◌≡◌, ◌≤◌, length, IfOk, IfSome, OnOk};
ghost use Rattle.gates_builder.specs.Adding.{AreOf, Making};
ghost use Rattle.prover_bmc.specs.Later.{IsLater};
ghost use Rattle.prover_bmc.specs.Plans.{AreDebts, IsFrame, IsPlan, IsStep};

use crate::debts::{lasting_debts, next_debts};
use crate::dues::{Place, add_all_lasting, add_dues};
use crate::frames::add_frame;
use crate::plan::Plan;
use clauses::{Clauses, CnfFault};
use gates_builder::Builder;
use gates_theory::Literals;
use std::alloc::Global;

/// The literals of the signals in a frame, and what may be owed behind it.
#[derive(Drop)]
pub(crate) struct Step {
    pub frame: Literals,
    pub debts: Literals,
}

// The literals of a frame, if there is one.
fn literals_of(frame: Option<&Literals>) -> Option<&[i32]>
    ensures { (making : Making) → IfSome frame.entry (λ literals. AreOf making literals.now)
        → IfSome result (λ literals. AreOf making literals.now) }
{
    match frame {
        Some(frame) => Some(frame.as_slice()),
        None => None,
    }
}

/// The frame of a number behind another one, if there is one, and what may be owed behind it. Clauses say that what is
/// owed at it is met.
pub(crate) fn add_step(
    alloc: Global,
    builder: &mut Builder,
    plan: &Plan<'_>,
    number: u32,
    last: Option<&Literals>,
    debts: &[i32],
    clauses: &mut Clauses,
) -> Result<Step, CnfFault>
    requires plan { IsPlan plan.now }
    requires covers { length plan.now.netlist.now.tables ≤ length builder.old.covers }
    requires last { IfSome last (λ literals. IsFrame builder.old plan.now.netlist.now literals.now) }
    requires debts { AreDebts builder.old plan.now.automaton.now debts.now }
    ensures later { OnOk result (IsLater builder.old builder.new) }
    ensures step { IfOk result (IsStep builder.new plan.now) }
{
    let frame = add_frame(alloc, builder, plan, number, last)?;
    let later = next_debts(alloc, builder, plan.automaton, debts, number)?;
    let place = Place::new(literals_of(last), frame.as_slice(), later.as_slice());
    add_dues(builder, plan.automaton, place, debts, clauses)?;
    Ok(Step {
        frame,
        debts: later,
    })
}

/// A literal: where it is true, clauses say that what may be owed behind a frame lasts while the inputs are held.
pub(crate) fn add_end(
    alloc: Global,
    builder: &mut Builder,
    plan: &Plan<'_>,
    step: &Step,
    clauses: &mut Clauses,
) -> Result<i32, CnfFault>
    requires plan { IsPlan plan.now }
    requires step { IsStep builder.old plan.now step.now }
    ensures { OnOk result (IsLater builder.old builder.new) }
{
    let (automaton, lasting) = (plan.automaton, &plan.lasting);
    let debts = step.debts.as_slice();
    let kept = lasting_debts(alloc, builder, automaton, lasting, debts)?;
    let asked = builder.free(0, 0)?;
    let place = Place::new(None, step.frame.as_slice(), kept.as_slice());
    add_all_lasting(builder, automaton, lasting, place, asked, debts, clauses)?;
    Ok(asked)
}
