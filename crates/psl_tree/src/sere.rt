ghost use Rattle.std.specs.Prelude.{◌≡◌, IfOk};
ghost use Rattle.psl_tree.specs.Trees.{boolean_of, sequence_of, One, Concat, Fuse, Either, Both, Star, Clocked};

use crate::Bool;
use psl_base::{NoMemory, boxed};
use std::alloc::Global;

/// A sequence: a Sequential Extended Regular Expression over letters (IEEE 1850, clause 6.1).
#[derive(Debug, Drop)]
pub enum Sere {
    Empty,
    One(Bool),
    Concat(Box<Sere>, Box<Sere>),
    Fuse(Box<Sere>, Box<Sere>),
    Either(Box<Sere>, Box<Sere>),
    Both(Box<Sere>, Box<Sere>),
    Star(Box<Sere>),
    Clocked(Box<Sere>, Bool),
}

impl Sere {
    /// An equal tree.
    pub fn copy(&self, alloc: Global) -> Result<Sere, NoMemory>
        ensures { IfOk result (λ new. sequence_of new ≡ sequence_of self.now) }
    {
        Ok(Box::into_inner(self.boxed_copy(alloc)?))
    }

    // In a box, and made by functions of their own, so that a level takes little of the stack.
    fn boxed_copy(&self, alloc: Global) -> Result<Box<Sere>, NoMemory>
        ensures { IfOk result (λ new. sequence_of new.value ≡ sequence_of self.now) }
    {
        match self {
            Sere::Empty => boxed(alloc, Sere::Empty),
            Sere::One(test) => one(alloc, test),
            Sere::Concat(left, right) => {
                let left = left.boxed_copy(alloc)?;
                concat(alloc, left, right.boxed_copy(alloc)?)
            }
            Sere::Fuse(left, right) => {
                let left = left.boxed_copy(alloc)?;
                fuse(alloc, left, right.boxed_copy(alloc)?)
            }
            Sere::Either(left, right) => {
                let left = left.boxed_copy(alloc)?;
                either(alloc, left, right.boxed_copy(alloc)?)
            }
            Sere::Both(left, right) => {
                let left = left.boxed_copy(alloc)?;
                both(alloc, left, right.boxed_copy(alloc)?)
            }
            Sere::Star(part) => star(alloc, part.boxed_copy(alloc)?),
            Sere::Clocked(part, clock) => clocked(alloc, part.boxed_copy(alloc)?, clock),
        }
    }
}

#[inline(never)]
fn one(alloc: Global, test: &Bool) -> Result<Box<Sere>, NoMemory>
    ensures { IfOk result (λ new. sequence_of new.value ≡ One (boolean_of test.now)) }
{
    boxed(alloc, Sere::One(test.copy(alloc)?))
}

#[inline(never)]
fn concat(alloc: Global, left: Box<Sere>, right: Box<Sere>) -> Result<Box<Sere>, NoMemory>
    ensures { IfOk result (λ new. sequence_of new.value ≡ Concat (sequence_of left.value) (sequence_of right.value)) }
{
    boxed(alloc, Sere::Concat(left, right))
}

#[inline(never)]
fn fuse(alloc: Global, left: Box<Sere>, right: Box<Sere>) -> Result<Box<Sere>, NoMemory>
    ensures { IfOk result (λ new. sequence_of new.value ≡ Fuse (sequence_of left.value) (sequence_of right.value)) }
{
    boxed(alloc, Sere::Fuse(left, right))
}

#[inline(never)]
fn either(alloc: Global, left: Box<Sere>, right: Box<Sere>) -> Result<Box<Sere>, NoMemory>
    ensures { IfOk result (λ new. sequence_of new.value ≡ Either (sequence_of left.value) (sequence_of right.value)) }
{
    boxed(alloc, Sere::Either(left, right))
}

#[inline(never)]
fn both(alloc: Global, left: Box<Sere>, right: Box<Sere>) -> Result<Box<Sere>, NoMemory>
    ensures { IfOk result (λ new. sequence_of new.value ≡ Both (sequence_of left.value) (sequence_of right.value)) }
{
    boxed(alloc, Sere::Both(left, right))
}

#[inline(never)]
fn star(alloc: Global, part: Box<Sere>) -> Result<Box<Sere>, NoMemory>
    ensures { IfOk result (λ new. sequence_of new.value ≡ Star (sequence_of part.value)) }
{
    boxed(alloc, Sere::Star(part))
}

#[inline(never)]
fn clocked(alloc: Global, part: Box<Sere>, clock: &Bool) -> Result<Box<Sere>, NoMemory>
    ensures { IfOk result (λ new. sequence_of new.value ≡ Clocked (sequence_of part.value) (boolean_of clock.now)) }
{
    boxed(alloc, Sere::Clocked(part, clock.copy(alloc)?))
}
