// The frames of a path.
ghost use Rattle.std.specs.Prelude.{◌≡◌, ◌≤◌, ◌<◌, length, All, IfOk, IfSome, OnOk};
ghost use Rattle.prover_bmc.specs.Later.{IsLater};
ghost use Rattle.prover_bmc.specs.Plans.{IsFrame, IsPlan};

use crate::plan::Plan;
use clauses::CnfFault;
use gates_builder::Builder;
use gates_theory::Literals;
use gates_unroll::{first_frame, next_frame};
use netlist::Latch;
use psl_base::NoMemory;
use std::alloc::Global;

/// The literals of signals in the frame of a number, behind those in the one before, if there is one.
pub(crate) fn add_frame(
    alloc: Global,
    builder: &mut Builder,
    plan: &Plan<'_>,
    number: u32,
    before: Option<&Literals>,
) -> Result<Literals, CnfFault>
    requires plan { IsPlan plan.now }
    requires covers { length plan.now.netlist.now.tables ≤ length builder.old.covers }
    requires before { IfSome before (λ literals. IsFrame builder.old plan.now.netlist.now literals.now) }
    ensures later { OnOk result (IsLater builder.old builder.new) }
    ensures frame { IfOk result (IsFrame builder.new plan.now.netlist.now) }
{
    let order = plan.order.as_slice();
    match before {
        None => first_frame(alloc, builder, plan.netlist, order, &plan.cone, true),
        Some(before) => next_frame(
            alloc,
            builder,
            plan.netlist,
            order,
            &plan.cone,
            number,
            before,
        ),
    }
}

/// The literals of inputs.
pub(crate) fn of_inputs(alloc: Global, inputs: &[u32], frame: &[i32]) -> Result<Literals, NoMemory>
    requires { All (λ signal. signal < length frame.now) inputs.now }
    ensures { IfOk result (λ literals. length literals ≡ length inputs.now) }
{
    let mut literals = Literals::new(alloc);
    for signal in inputs {
        literals.push(frame[*signal as usize])?;
    }
    Ok(literals)
}

/// The literals of the outputs of latches.
pub(crate) fn of_latches(
    alloc: Global,
    latches: &[Latch],
    frame: &[i32],
) -> Result<Literals, NoMemory>
    requires { All (λ latch. latch.output < length frame.now) latches.now }
    ensures { IfOk result (λ literals. length literals ≡ length latches.now) }
{
    let mut literals = Literals::new(alloc);
    for latch in latches {
        literals.push(frame[latch.output as usize])?;
    }
    Ok(literals)
}
