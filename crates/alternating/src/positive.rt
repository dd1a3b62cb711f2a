ghost use Rattle.std.specs.Prelude.{◌≡◌, ◌+◌, ◌-◌, ◌*◌, ◌^◌, ◌≤◌, length, slice_index, IfOk};
ghost use Rattle.alternating_theory.specs.Positive.{OwesWithin, And, Or, met, opposite, renumbered};
ghost use Rattle.alternating.specs.Packed.{letter_of};
ghost use Rattle.alternating.specs.Sizes.{size};
ghost use Rattle.alternating.specs.Stepped.{value_at};
ghost use Rattle.alternating.specs.Views.{positive_of};

use crate::letter::holds;
use crate::literal::negated;
use crate::truths::Truths;
use psl_base::{NoMemory, boxed};
use psl_tree::{Atom, Bool};
use std::alloc::Global;

/// A positive combination: what an obligation asks of a letter and of the next place. A constant has
/// its value on every letter, Top and Bottom included; `Holds` asks a Boolean of the letter, and
/// `Owed` an obligation of the next place, by its number.
#[derive(Debug)]
pub enum Positive {
    Const(bool),
    Holds(Bool),
    Owed(u32),
    And(Box<Positive>, Box<Positive>),
    Or(Box<Positive>, Box<Positive>),
}

// A loop along the right parts, since a derived drop takes stack for each level, and a combination
// has one for each edge of a sequence's state.
impl Drop for Positive {
    fn drop(mut self) {
        loop {
            match self {
                Positive::Const(_) | Positive::Owed(_) => return,
                Positive::Holds(_test) => return,
                Positive::And(_left, right) | Positive::Or(_left, right) => {
                    self = Box::into_inner(right)
                }
            }
        }
    }
}

impl Positive {
    /// An equal tree.
    pub fn copy(&self, alloc: Global) -> Result<Positive, NoMemory>
        ensures { IfOk result (λ new. positive_of new ≡ positive_of self.now) }
    {
        match self {
            Positive::Const(value) => Ok(Positive::Const(*value)),
            Positive::Holds(test) => Ok(Positive::Holds(test.copy(alloc)?)),
            Positive::Owed(number) => Ok(Positive::Owed(*number)),
            Positive::And(left, right) => all_of(alloc, left.copy(alloc)?, right.copy(alloc)?),
            Positive::Or(left, right) => one_of(alloc, left.copy(alloc)?, right.copy(alloc)?),
        }
    }

    /// The dual.
    pub(crate) fn opposite(&self, alloc: Global) -> Result<Positive, NoMemory>
        ensures { IfOk result (λ new. positive_of new ≡ opposite (positive_of self.now)) }
    {
        match self {
            Positive::Const(value) => Ok(Positive::Const(!*value)),
            Positive::Holds(test) => Ok(Positive::Holds(negated(alloc, test)?)),
            Positive::Owed(number) => Ok(Positive::Owed(*number)),
            Positive::And(left, right) => {
                one_of(alloc, left.opposite(alloc)?, right.opposite(alloc)?)
            }
            Positive::Or(left, right) => {
                all_of(alloc, left.opposite(alloc)?, right.opposite(alloc)?)
            }
        }
    }

    /// How many constructors there are, up to multiples of 2^32.
    pub(crate) fn size(&self) -> u32
        ensures { result ≡ size (positive_of self.now) }
    {
        match self {
            Positive::Const(_) | Positive::Holds(_) | Positive::Owed(_) => 1,
            Positive::And(left, right) | Positive::Or(left, right) => {
                left.size().wrapping_add(right.size()).wrapping_add(1)
            }
        }
    }

    /// The combination with numbers that are larger by so many.
    pub(crate) fn raised(&self, alloc: Global, by: u32) -> Result<Positive, NoMemory>
        requires { OwesWithin 0 (2 ^ 32 - by) (positive_of self.now) }
        ensures { IfOk result (λ new. positive_of new ≡ renumbered (λ number. number + by) (positive_of self.now)) }
    {
        match self {
            Positive::Const(value) => Ok(Positive::Const(*value)),
            Positive::Holds(test) => Ok(Positive::Holds(test.copy(alloc)?)),
            Positive::Owed(number) => Ok(Positive::Owed(*number + by)),
            Positive::And(left, right) => {
                all_of(alloc, left.raised(alloc, by)?, right.raised(alloc, by)?)
            }
            Positive::Or(left, right) => {
                one_of(alloc, left.raised(alloc, by)?, right.raised(alloc, by)?)
            }
        }
    }

    /// The combination with the numbers that stand in a table.
    pub(crate) fn renamed(&self, alloc: Global, names: &[u32]) -> Result<Positive, NoMemory>
        requires { OwesWithin 0 (length names.now) (positive_of self.now) }
        ensures { IfOk result (λ new. positive_of new ≡ renumbered (λ number. slice_index names.now number) (positive_of self.now)) }
    {
        match self {
            Positive::Const(value) => Ok(Positive::Const(*value)),
            Positive::Holds(test) => Ok(Positive::Holds(test.copy(alloc)?)),
            Positive::Owed(number) => Ok(Positive::Owed(names[*number as usize])),
            Positive::And(left, right) => {
                all_of(
                    alloc,
                    left.renamed(alloc, names)?,
                    right.renamed(alloc, names)?,
                )
            }
            Positive::Or(left, right) => {
                one_of(
                    alloc,
                    left.renamed(alloc, names)?,
                    right.renamed(alloc, names)?,
                )
            }
        }
    }

    /// Whether a packed letter meets the combination with the values at the next place.
    pub(crate) fn met(&self, letter: &[u32], atoms: &[Atom], next: &Truths) -> bool
        requires owed { OwesWithin 0 (length next.now) (positive_of self.now) }
        requires bits { length atoms.now ≤ 32 * length letter.now }
        ensures { result ≡ met (positive_of self.now) (letter_of atoms.now letter.now) (λ number. value_at next.now number) }
    {
        match self {
            Positive::Const(value) => *value,
            Positive::Holds(test) => holds(letter, atoms, test),
            Positive::Owed(number) => next.get(*number),
            Positive::And(left, right) => {
                left.met(letter, atoms, next) && right.met(letter, atoms, next)
            }
            Positive::Or(left, right) => {
                left.met(letter, atoms, next) || right.met(letter, atoms, next)
            }
        }
    }
}

/// Both of two combinations.
pub(crate) fn all_of(alloc: Global, left: Positive, right: Positive) -> Result<Positive, NoMemory>
    ensures { IfOk result (λ new. positive_of new ≡ And (positive_of left) (positive_of right)) }
{
    let left = boxed(alloc, left)?;
    Ok(Positive::And(left, boxed(alloc, right)?))
}

/// One of two combinations.
pub(crate) fn one_of(alloc: Global, left: Positive, right: Positive) -> Result<Positive, NoMemory>
    ensures { IfOk result (λ new. positive_of new ≡ Or (positive_of left) (positive_of right)) }
{
    let left = boxed(alloc, left)?;
    Ok(Positive::Or(left, boxed(alloc, right)?))
}
