ghost use Rattle.std.specs.Prelude.{◌≡◌, IfOk};
ghost use Rattle.psl_tree.specs.Trees.{boolean_of, sequence_of, formula_of, Concat, Fuse, Either, Both, Star, Not, And, Now, Weak, Strong, Next, Until, Suffix, Abort};

use psl_base::{NoMemory, boxed};
use psl_tree::{Bool, Fl, Sere};
use std::alloc::Global;

// Formulas are kept in boxes, so that little of the stack is taken for each level of a deep one.

// The negation of a Boolean.
pub(crate) fn no(alloc: Global, test: Bool) -> Result<Bool, NoMemory>
    ensures { IfOk result (λ new. boolean_of new ≡ Not (boolean_of test)) }
{
    Ok(Bool::Not(boxed(alloc, test)?))
}

// A clock, copied, and a Boolean.
pub(crate) fn clock_and(alloc: Global, clock: &Bool, test: Bool) -> Result<Bool, NoMemory>
    ensures { IfOk result (λ new. boolean_of new ≡ And (boolean_of clock.now) (boolean_of test)) }
{
    let clock = boxed(alloc, clock.copy(alloc)?)?;
    Ok(Bool::And(clock, boxed(alloc, test)?))
}

pub(crate) fn now(alloc: Global, test: Bool) -> Result<Box<Fl>, NoMemory>
    ensures { IfOk result (λ new. formula_of new.value ≡ Now (boolean_of test)) }
{
    boxed(alloc, Fl::Now(test))
}

pub(crate) fn weak(alloc: Global, sequence: Box<Sere>) -> Result<Box<Fl>, NoMemory>
    ensures { IfOk result (λ new. formula_of new.value ≡ Weak (sequence_of sequence.value)) }
{
    boxed(alloc, Fl::Weak(Box::into_inner(sequence)))
}

pub(crate) fn strong(alloc: Global, sequence: Box<Sere>) -> Result<Box<Fl>, NoMemory>
    ensures { IfOk result (λ new. formula_of new.value ≡ Strong (sequence_of sequence.value)) }
{
    boxed(alloc, Fl::Strong(Box::into_inner(sequence)))
}

pub(crate) fn not(alloc: Global, part: Box<Fl>) -> Result<Box<Fl>, NoMemory>
    ensures { IfOk result (λ new. formula_of new.value ≡ Not (formula_of part.value)) }
{
    boxed(alloc, Fl::Not(part))
}

pub(crate) fn and(alloc: Global, left: Box<Fl>, right: Box<Fl>) -> Result<Box<Fl>, NoMemory>
    ensures { IfOk result (λ new. formula_of new.value ≡ And (formula_of left.value) (formula_of right.value)) }
{
    boxed(alloc, Fl::And(left, right))
}

pub(crate) fn next(alloc: Global, part: Box<Fl>) -> Result<Box<Fl>, NoMemory>
    ensures { IfOk result (λ new. formula_of new.value ≡ Next (formula_of part.value)) }
{
    boxed(alloc, Fl::Next(part))
}

pub(crate) fn until(alloc: Global, left: Box<Fl>, right: Box<Fl>) -> Result<Box<Fl>, NoMemory>
    ensures { IfOk result (λ new. formula_of new.value ≡ Until (formula_of left.value) (formula_of right.value)) }
{
    boxed(alloc, Fl::Until(left, right))
}

pub(crate) fn suffix(alloc: Global, sequence: Box<Sere>, part: Box<Fl>) -> Result<Box<Fl>, NoMemory>
    ensures { IfOk result (λ new. formula_of new.value ≡ Suffix (sequence_of sequence.value) (formula_of part.value)) }
{
    boxed(alloc, Fl::Suffix(Box::into_inner(sequence), part))
}

pub(crate) fn abort(alloc: Global, part: Box<Fl>, test: Bool) -> Result<Box<Fl>, NoMemory>
    ensures { IfOk result (λ new. formula_of new.value ≡ Abort (formula_of part.value) (boolean_of test)) }
{
    boxed(alloc, Fl::Abort(part, test))
}

#[inline(never)]
pub(crate) fn concat(
    alloc: Global,
    left: Box<Sere>,
    right: Box<Sere>,
) -> Result<Box<Sere>, NoMemory>
    ensures { IfOk result (λ new. sequence_of new.value ≡ Concat (sequence_of left.value) (sequence_of right.value)) }
{
    boxed(alloc, Sere::Concat(left, right))
}

#[inline(never)]
pub(crate) fn fuse(alloc: Global, left: Box<Sere>, right: Box<Sere>) -> Result<Box<Sere>, NoMemory>
    ensures { IfOk result (λ new. sequence_of new.value ≡ Fuse (sequence_of left.value) (sequence_of right.value)) }
{
    boxed(alloc, Sere::Fuse(left, right))
}

#[inline(never)]
pub(crate) fn either(
    alloc: Global,
    left: Box<Sere>,
    right: Box<Sere>,
) -> Result<Box<Sere>, NoMemory>
    ensures { IfOk result (λ new. sequence_of new.value ≡ Either (sequence_of left.value) (sequence_of right.value)) }
{
    boxed(alloc, Sere::Either(left, right))
}

#[inline(never)]
pub(crate) fn both(alloc: Global, left: Box<Sere>, right: Box<Sere>) -> Result<Box<Sere>, NoMemory>
    ensures { IfOk result (λ new. sequence_of new.value ≡ Both (sequence_of left.value) (sequence_of right.value)) }
{
    boxed(alloc, Sere::Both(left, right))
}

#[inline(never)]
pub(crate) fn star(alloc: Global, part: Box<Sere>) -> Result<Box<Sere>, NoMemory>
    ensures { IfOk result (λ new. sequence_of new.value ≡ Star (sequence_of part.value)) }
{
    boxed(alloc, Sere::Star(part))
}
