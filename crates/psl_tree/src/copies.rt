ghost use Rattle.std.specs.Prelude.{◌≡◌, IfOk};
ghost use Rattle.psl_tree.specs.Trees.{boolean_of, sequence_of, formula_of, Now, NowStrong, Weak, Strong, Not, And, Next, Until, Suffix, Abort, SyncAbort, Clocked};

use crate::{Bool, Fl, Sere};
use psl_base::{NoMemory, boxed};
use std::alloc::Global;

impl Fl {
    /// An equal tree.
    pub fn copy(&self, alloc: Global) -> Result<Fl, NoMemory>
        ensures { IfOk result (λ new. formula_of new ≡ formula_of self.now) }
    {
        Ok(Box::into_inner(self.boxed_copy(alloc)?))
    }

    // In a box, and made by functions of their own, so that a level takes little of the stack.
    fn boxed_copy(&self, alloc: Global) -> Result<Box<Fl>, NoMemory>
        ensures { IfOk result (λ new. formula_of new.value ≡ formula_of self.now) }
    {
        match self {
            Fl::Now(test) => now(alloc, test),
            Fl::NowStrong(test) => now_strong(alloc, test),
            Fl::Weak(sequence) => weak(alloc, sequence),
            Fl::Strong(sequence) => strong(alloc, sequence),
            Fl::Not(part) => not(alloc, part.boxed_copy(alloc)?),
            Fl::And(left, right) => {
                let left = left.boxed_copy(alloc)?;
                and(alloc, left, right.boxed_copy(alloc)?)
            }
            Fl::Next(part) => next(alloc, part.boxed_copy(alloc)?),
            Fl::Until(left, right) => {
                let left = left.boxed_copy(alloc)?;
                until(alloc, left, right.boxed_copy(alloc)?)
            }
            Fl::Suffix(sequence, part) => suffix(alloc, sequence, part.boxed_copy(alloc)?),
            Fl::Abort(part, test) => abort(alloc, part.boxed_copy(alloc)?, test),
            Fl::SyncAbort(part, test) => sync_abort(alloc, part.boxed_copy(alloc)?, test),
            Fl::Clocked(part, test) => clocked(alloc, part.boxed_copy(alloc)?, test),
        }
    }
}

#[inline(never)]
fn now(alloc: Global, test: &Bool) -> Result<Box<Fl>, NoMemory>
    ensures { IfOk result (λ new. formula_of new.value ≡ Now (boolean_of test.now)) }
{
    boxed(alloc, Fl::Now(test.copy(alloc)?))
}

#[inline(never)]
fn now_strong(alloc: Global, test: &Bool) -> Result<Box<Fl>, NoMemory>
    ensures { IfOk result (λ new. formula_of new.value ≡ NowStrong (boolean_of test.now)) }
{
    boxed(alloc, Fl::NowStrong(test.copy(alloc)?))
}

#[inline(never)]
fn weak(alloc: Global, sequence: &Sere) -> Result<Box<Fl>, NoMemory>
    ensures { IfOk result (λ new. formula_of new.value ≡ Weak (sequence_of sequence.now)) }
{
    boxed(alloc, Fl::Weak(sequence.copy(alloc)?))
}

#[inline(never)]
fn strong(alloc: Global, sequence: &Sere) -> Result<Box<Fl>, NoMemory>
    ensures { IfOk result (λ new. formula_of new.value ≡ Strong (sequence_of sequence.now)) }
{
    boxed(alloc, Fl::Strong(sequence.copy(alloc)?))
}

#[inline(never)]
fn not(alloc: Global, part: Box<Fl>) -> Result<Box<Fl>, NoMemory>
    ensures { IfOk result (λ new. formula_of new.value ≡ Not (formula_of part.value)) }
{
    boxed(alloc, Fl::Not(part))
}

#[inline(never)]
fn next(alloc: Global, part: Box<Fl>) -> Result<Box<Fl>, NoMemory>
    ensures { IfOk result (λ new. formula_of new.value ≡ Next (formula_of part.value)) }
{
    boxed(alloc, Fl::Next(part))
}

#[inline(never)]
fn and(alloc: Global, left: Box<Fl>, right: Box<Fl>) -> Result<Box<Fl>, NoMemory>
    ensures { IfOk result (λ new. formula_of new.value ≡ And (formula_of left.value) (formula_of right.value)) }
{
    boxed(alloc, Fl::And(left, right))
}

#[inline(never)]
fn until(alloc: Global, left: Box<Fl>, right: Box<Fl>) -> Result<Box<Fl>, NoMemory>
    ensures { IfOk result (λ new. formula_of new.value ≡ Until (formula_of left.value) (formula_of right.value)) }
{
    boxed(alloc, Fl::Until(left, right))
}

#[inline(never)]
fn suffix(alloc: Global, sequence: &Sere, part: Box<Fl>) -> Result<Box<Fl>, NoMemory>
    ensures { IfOk result (λ new. formula_of new.value ≡ Suffix (sequence_of sequence.now) (formula_of part.value)) }
{
    boxed(alloc, Fl::Suffix(sequence.copy(alloc)?, part))
}

#[inline(never)]
fn abort(alloc: Global, part: Box<Fl>, test: &Bool) -> Result<Box<Fl>, NoMemory>
    ensures { IfOk result (λ new. formula_of new.value ≡ Abort (formula_of part.value) (boolean_of test.now)) }
{
    boxed(alloc, Fl::Abort(part, test.copy(alloc)?))
}

#[inline(never)]
fn sync_abort(alloc: Global, part: Box<Fl>, test: &Bool) -> Result<Box<Fl>, NoMemory>
    ensures { IfOk result (λ new. formula_of new.value ≡ SyncAbort (formula_of part.value) (boolean_of test.now)) }
{
    boxed(alloc, Fl::SyncAbort(part, test.copy(alloc)?))
}

#[inline(never)]
fn clocked(alloc: Global, part: Box<Fl>, test: &Bool) -> Result<Box<Fl>, NoMemory>
    ensures { IfOk result (λ new. formula_of new.value ≡ Clocked (formula_of part.value) (boolean_of test.now)) }
{
    boxed(alloc, Fl::Clocked(part, test.copy(alloc)?))
}
