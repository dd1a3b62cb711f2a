ghost use Rattle.std.specs.Prelude.{◌≡◌, IfOk};
ghost use Rattle.psl_tree.specs.Trees.{boolean_of, Not, And, Or};

use crate::Atom;
use psl_base::{NoMemory, boxed};
use std::alloc::Global;

/// A Boolean expression over the atoms of one letter (IEEE 1850, clause 5).
#[derive(Debug, Drop)]
pub enum Bool {
    Const(bool),
    Test(Atom),
    Not(Box<Bool>),
    And(Box<Bool>, Box<Bool>),
    Or(Box<Bool>, Box<Bool>),
}

impl Bool {
    /// An equal tree.
    pub fn copy(&self, alloc: Global) -> Result<Bool, NoMemory>
        ensures { IfOk result (λ new. boolean_of new ≡ boolean_of self.now) }
    {
        Ok(Box::into_inner(self.boxed_copy(alloc)?))
    }

    // In a box, and made by functions of their own, so that a level takes little of the stack.
    fn boxed_copy(&self, alloc: Global) -> Result<Box<Bool>, NoMemory>
        ensures { IfOk result (λ new. boolean_of new.value ≡ boolean_of self.now) }
    {
        match self {
            Bool::Const(value) => boxed(alloc, Bool::Const(*value)),
            Bool::Test(atom) => boxed(alloc, Bool::Test(*atom)),
            Bool::Not(part) => not(alloc, part.boxed_copy(alloc)?),
            Bool::And(left, right) => {
                let left = left.boxed_copy(alloc)?;
                and(alloc, left, right.boxed_copy(alloc)?)
            }
            Bool::Or(left, right) => {
                let left = left.boxed_copy(alloc)?;
                or(alloc, left, right.boxed_copy(alloc)?)
            }
        }
    }
}

#[inline(never)]
fn not(alloc: Global, part: Box<Bool>) -> Result<Box<Bool>, NoMemory>
    ensures { IfOk result (λ new. boolean_of new.value ≡ Not (boolean_of part.value)) }
{
    boxed(alloc, Bool::Not(part))
}

#[inline(never)]
fn and(alloc: Global, left: Box<Bool>, right: Box<Bool>) -> Result<Box<Bool>, NoMemory>
    ensures { IfOk result (λ new. boolean_of new.value ≡ And (boolean_of left.value) (boolean_of right.value)) }
{
    boxed(alloc, Bool::And(left, right))
}

#[inline(never)]
fn or(alloc: Global, left: Box<Bool>, right: Box<Bool>) -> Result<Box<Bool>, NoMemory>
    ensures { IfOk result (λ new. boolean_of new.value ≡ Or (boolean_of left.value) (boolean_of right.value)) }
{
    boxed(alloc, Bool::Or(left, right))
}
