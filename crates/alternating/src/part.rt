ghost use Rattle.std.specs.Prelude.{◌≡◌, ◌+◌, ◌^◌, ◌<◌, ◌++◌, ◌&&◌, false, [], ◌∷◌, length, IfOk, OnOk};
ghost use Rattle.psl_tree.specs.Trees.{boolean_of};
ghost use Rattle.alternating_theory.specs.Construction.{now_part, not_part, and_part, next_part, until_part, until_obligation};
ghost use Rattle.alternating_theory.specs.Positive.{And};
ghost use Rattle.alternating.specs.Parts.{part_of_code};
ghost use Rattle.alternating.specs.Pending.{pending_of};
ghost use Rattle.alternating.specs.Views.{obligation_of};

use crate::obligation::Obligation;
use crate::pending::{Pending, negate_all};
use crate::positive::{Positive, all_of};
use psl_base::{NoMemory, boxed};
use psl_tree::Bool;
use std::alloc::Global;

/// An automaton in the making. Its start has no number, and its obligations count on from an offset.
#[derive(Debug, Drop)]
pub(crate) struct Part {
    pub(crate) start: Pending,
    pub(crate) rest: Vec<Pending>,
}

// Parts are made in boxes, by functions of their own, so that a level of a deep formula takes little of
// the stack.

/// The part of a Boolean, with its value where there is no letter.
#[inline(never)]
pub(crate) fn now(alloc: Global, end: bool, test: &Bool) -> Result<Box<Part>, NoMemory>
    ensures { IfOk result (λ part. part_of_code part.value ≡ now_part end (boolean_of test.now)) }
{
    let start = Obligation {
        delta: Positive::Holds(test.copy(alloc)?),
        accepting: false,
        end,
        top: true,
        bottom: false,
    };
    let rest = Vec::new(alloc);
    boxed(
        alloc,
        Part {
            start: Pending::new(start),
            rest,
        },
    )
}

/// The part of a negation: its obligations are the duals.
#[inline(never)]
pub(crate) fn not(mut part: Box<Part>) -> Box<Part>
    ensures { part_of_code result.value ≡ not_part (part_of_code part.value) }
{
    part.start.negate();
    negate_all(part.rest.as_mut_slice());
    part
}

/// The part of a conjunction. The obligations of the second part follow those of the first.
#[inline(never)]
pub(crate) fn and(alloc: Global, left: Box<Part>, right: Box<Part>) -> Result<Box<Part>, NoMemory>
    ensures { IfOk result (λ part. part_of_code part.value ≡ and_part (part_of_code left.value) (part_of_code right.value)) }
{
    let Part { start, mut rest } = Box::into_inner(left);
    let Part {
        start: other,
        rest: more,
    } = Box::into_inner(right);
    add_all(&mut rest, more)?;
    let start = both(alloc, start.settled(alloc)?, other.settled(alloc)?)?;
    boxed(
        alloc,
        Part {
            start: Pending::new(start),
            rest,
        },
    )
}

// The start of a conjunction.
fn both(alloc: Global, left: Obligation, right: Obligation) -> Result<Obligation, NoMemory>
    ensures { IfOk result (λ new. obligation_of new ≡ (record {
      delta = And (obligation_of left).delta (obligation_of right).delta;
      accepting = false;
      end = left.end && right.end;
      top = left.top && right.top;
      bottom = left.bottom && right.bottom;
    })) }
{
    let (end, top, bottom) = (
        left.end && right.end,
        left.top && right.top,
        left.bottom && right.bottom,
    );
    Ok(Obligation {
        delta: all_of(alloc, left.into_delta(), right.into_delta())?,
        accepting: false,
        end,
        top,
        bottom,
    })
}

/// The part that is owed at the next place, which must be there.
#[inline(never)]
pub(crate) fn next(alloc: Global, offset: u32, part: Box<Part>) -> Result<Box<Part>, NoMemory>
    requires { offset + length part.value.rest.items < 2 ^ 32 }
    ensures { IfOk result (λ new. part_of_code new.value ≡ next_part offset (part_of_code part.value)) }
{
    let Part { start, mut rest } = Box::into_inner(part);
    let start = start.settled(alloc)?;
    let first = Obligation {
        delta: Positive::Owed(offset + rest.len() as u32),
        accepting: false,
        end: false,
        top: start.top,
        bottom: start.bottom,
    };
    add(&mut rest, Pending::new(start.with_letter()))?;
    boxed(
        alloc,
        Part {
            start: Pending::new(first),
            rest,
        },
    )
}

/// The part of an until. The obligations of the second part follow those of the first, and the last
/// is the until itself.
#[inline(never)]
pub(crate) fn until(
    alloc: Global,
    offset: u32,
    left: Box<Part>,
    right: Box<Part>,
) -> Result<Box<Part>, NoMemory>
    requires { offset + (length left.value.rest.items + length right.value.rest.items) < 2 ^ 32 }
    ensures { IfOk result (λ part. part_of_code part.value ≡ until_part offset (part_of_code left.value) (part_of_code right.value)) }
{
    let Part {
        start: first,
        mut rest,
    } = Box::into_inner(left);
    let Part {
        start: second,
        rest: more,
    } = Box::into_inner(right);
    add_all(&mut rest, more)?;
    let number = offset + rest.len() as u32;
    let start = until_start(alloc, number, first, second)?;
    add(&mut rest, start.copy(alloc)?)?;
    boxed(alloc, Part { start, rest })
}

// The until of a number.
fn until_start(
    alloc: Global,
    number: u32,
    left: Pending,
    right: Pending,
) -> Result<Pending, NoMemory>
    ensures { IfOk result (λ new. pending_of new ≡ until_obligation number (pending_of left) (pending_of right)) }
{
    let left = left.settled(alloc)?;
    let right = right.settled(alloc)?;
    let start = Obligation::until(alloc, number, left, right)?;
    Ok(Pending::new(start))
}

/// Adds an obligation at the end.
pub(crate) fn add(obligations: &mut Vec<Pending>, new: Pending) -> Result<(), NoMemory>
    ensures { OnOk result (obligations.new.items ≡ obligations.old.items ++ new ∷ []) }
{
    Ok(obligations.push(new)?)
}

/// Adds obligations at the end.
pub(crate) fn add_all(
    obligations: &mut Vec<Pending>,
    mut more: Vec<Pending>,
) -> Result<(), NoMemory>
    ensures { OnOk result (obligations.new.items ≡ obligations.old.items ++ more.items) }
{
    Ok(obligations.append(&mut more)?)
}
