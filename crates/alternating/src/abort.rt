ghost use Rattle.std.specs.Prelude.{◌≡◌, ◌+◌, ◌-◌, ◌^◌, ◌<◌, ◌++◌, false, length, map, IfOk, OnOk};
ghost use Rattle.psl_tree.specs.Trees.{boolean_of};
ghost use Rattle.alternating_theory.specs.Construction.{abort_part, cut_obligation};
ghost use Rattle.alternating_theory.specs.Positive.{Or, OwesWithin};
ghost use Rattle.alternating.specs.Parts.{part_of_code, PartWithin};
ghost use Rattle.alternating.specs.Pending.{pendings_of, PendingWithin};
ghost use Rattle.alternating.specs.Views.{positive_of, obligation_of};

use crate::obligation::Obligation;
use crate::part::{Part, add_all};
use crate::pending::Pending;
use crate::positive::one_of;
use psl_base::NoMemory;
use psl_tree::Bool;
use std::alloc::Global;

/// The part that may be aborted where the Boolean holds: its obligations, and then copies of them
/// that may be cut.
pub(crate) fn abort(alloc: Global, part: Part, test: &Bool) -> Result<Part, NoMemory>
    requires within { PartWithin 0 (2 ^ 32 - length part.rest.items) part }
    requires room { length part.rest.items < 2 ^ 32 }
    ensures { IfOk result (λ new. part_of_code new ≡ abort_part (boolean_of test.now) (part_of_code part)) }
{
    let Part { start, mut rest } = part;
    let by = rest.len() as u32;
    let copies = cut_all(alloc, rest.as_slice(), test, by)?;
    let start = start.settled(alloc)?;
    let first = cut_start(alloc, &start, test, by)?;
    add_all(&mut rest, copies)?;
    Ok(Part {
        start: Pending::new(first),
        rest,
    })
}

// The start, or its copy that may be cut.
fn cut_start(
    alloc: Global,
    start: &Obligation,
    test: &Bool,
    by: u32,
) -> Result<Obligation, NoMemory>
    requires { OwesWithin 0 (2 ^ 32 - by) (positive_of start.now.delta) }
    ensures { IfOk result (λ new. obligation_of new ≡ (record {
      delta = Or (positive_of start.now.delta) (cut_obligation (λ number. number + by) (boolean_of test.now) (obligation_of start.now)).delta;
      accepting = false;
      end = start.now.end;
      top = start.now.top;
      bottom = start.now.bottom;
    })) }
{
    let copy = start.cut(alloc, test, by)?;
    let Obligation {
        delta,
        accepting: _,
        end: _,
        top: _,
        bottom: _,
    } = copy;
    Ok(Obligation {
        delta: one_of(alloc, start.delta.copy(alloc)?, delta)?,
        accepting: false,
        end: start.end,
        top: start.top,
        bottom: start.bottom,
    })
}

fn cut_all(
    alloc: Global,
    pendings: &[Pending],
    test: &Bool,
    by: u32,
) -> Result<Vec<Pending>, NoMemory>
    requires { PendingWithin 0 (2 ^ 32 - by) pendings.now }
    ensures { IfOk result (λ new. pendings_of new.items ≡ map (λ obligation. cut_obligation (λ number. number + by) (boolean_of test.now) obligation) (pendings_of pendings.now)) }
{
    let mut copies = Vec::new(alloc);
    for pending in pendings {
        let new = pending.cut(alloc, test, by)?;
        copies.push(new)?;
    }
    Ok(copies)
}
