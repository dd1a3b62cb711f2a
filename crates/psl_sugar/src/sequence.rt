ghost use Rattle.std.specs.Prelude.{◌≡◌, ◌≤◌, IfOk};
ghost use Rattle.psl_tree.specs.Counts.{sequence_size};
ghost use Rattle.psl_tree.specs.declared.counts.TheConstants.{MOST_CONSTRUCTORS};
ghost use Rattle.psl_tree.specs.Trees.{sequence_of, Empty, One, Concat, Fuse, Either, Both, Star, Clocked};
ghost use Rattle.psl_sugar.specs.Budget.{GivesSequence};

use crate::budget::within;
use crate::{MeasuredBool, SugarFault};
use psl_base::{NoMemory, boxed};
use psl_tree::Sere;
use std::alloc::Global;
use std::marker::Model;

/// A sequence of at most 4,096 constructors, with their number.
///
/// Contracts see the sequence.
#[derive(Debug)]
pub struct MeasuredSere {
    tree: Sere,
    size: u32,
}

impl Model for MeasuredSere {
    ghost use Rattle.std.specs.Prelude.{◌≡◌, ◌≤◌};
    ghost use Rattle.psl_tree.specs.Counts.{sequence_size};
    ghost use Rattle.psl_tree.specs.declared.counts.TheConstants.{MOST_CONSTRUCTORS};
    ghost use Rattle.psl_tree.specs.Trees.{Sequence, sequence_of};
    ghost use Rattle.psl_sugar.specs.Codes.{sequence_code};

    ghost Value = { Sequence };

    ghost coded = { sequence_code };

    ghost view = { λ sequence. sequence_of sequence.tree };

    ghost invariant = { λ sequence. (sequence_size (sequence_of sequence.tree) ≡ sequence.size) × (sequence.size ≤ MOST_CONSTRUCTORS) };
}

// Written out, so that a caller's proof sees one call where a value is dropped.
impl Drop for MeasuredSere {
    fn drop(self) {
        let MeasuredSere { tree: _, size: _ } = self;
    }
}

impl MeasuredSere {
    /// `[*0]`, the sequence of no letter.
    pub fn empty() -> MeasuredSere
        ensures { result ≡ Empty }
    {
        MeasuredSere {
            tree: Sere::Empty,
            size: 1,
        }
    }

    /// A Boolean as a sequence: one letter.
    pub fn one(test: MeasuredBool) -> Result<MeasuredSere, SugarFault>
        ensures { GivesSequence result (One test) }
    {
        let size = within(test.size() + 1)?;
        let tree = Sere::One(test.into_tree());
        Ok(MeasuredSere { tree, size })
    }

    /// `{r};{s}`.
    pub fn concat(self, alloc: Global, right: MeasuredSere) -> Result<MeasuredSere, SugarFault>
        ensures { GivesSequence result (Concat self right) }
    {
        let size = within(self.size + right.size + 1)?;
        let MeasuredSere {
            tree: left,
            size: _,
        } = self;
        let MeasuredSere {
            tree: right,
            size: _,
        } = right;
        let left = boxed(alloc, left)?;
        let tree = Sere::Concat(left, boxed(alloc, right)?);
        Ok(MeasuredSere { tree, size })
    }

    /// `{r}:{s}`.
    pub fn fuse(self, alloc: Global, right: MeasuredSere) -> Result<MeasuredSere, SugarFault>
        ensures { GivesSequence result (Fuse self right) }
    {
        let size = within(self.size + right.size + 1)?;
        let MeasuredSere {
            tree: left,
            size: _,
        } = self;
        let MeasuredSere {
            tree: right,
            size: _,
        } = right;
        let left = boxed(alloc, left)?;
        let tree = Sere::Fuse(left, boxed(alloc, right)?);
        Ok(MeasuredSere { tree, size })
    }

    /// `{r}|{s}`.
    pub fn either(self, alloc: Global, right: MeasuredSere) -> Result<MeasuredSere, SugarFault>
        ensures { GivesSequence result (Either self right) }
    {
        let size = within(self.size + right.size + 1)?;
        let MeasuredSere {
            tree: left,
            size: _,
        } = self;
        let MeasuredSere {
            tree: right,
            size: _,
        } = right;
        let left = boxed(alloc, left)?;
        let tree = Sere::Either(left, boxed(alloc, right)?);
        Ok(MeasuredSere { tree, size })
    }

    /// `{r}&&{s}`, both over the same letters.
    pub fn both(self, alloc: Global, right: MeasuredSere) -> Result<MeasuredSere, SugarFault>
        ensures { GivesSequence result (Both self right) }
    {
        let size = within(self.size + right.size + 1)?;
        let MeasuredSere {
            tree: left,
            size: _,
        } = self;
        let MeasuredSere {
            tree: right,
            size: _,
        } = right;
        let left = boxed(alloc, left)?;
        let tree = Sere::Both(left, boxed(alloc, right)?);
        Ok(MeasuredSere { tree, size })
    }

    /// `r[*]`.
    pub fn star(self, alloc: Global) -> Result<MeasuredSere, SugarFault>
        ensures { GivesSequence result (Star self) }
    {
        let size = within(self.size + 1)?;
        let MeasuredSere { tree, size: _ } = self;
        let tree = Sere::Star(boxed(alloc, tree)?);
        Ok(MeasuredSere { tree, size })
    }

    /// `r@c`.
    pub fn clocked(self, alloc: Global, clock: MeasuredBool) -> Result<MeasuredSere, SugarFault>
        ensures { GivesSequence result (Clocked self clock) }
    {
        let size = within(self.size + clock.size() + 1)?;
        let MeasuredSere { tree, size: _ } = self;
        let tree = Sere::Clocked(boxed(alloc, tree)?, clock.into_tree());
        Ok(MeasuredSere { tree, size })
    }

    /// An equal sequence.
    pub fn copy(&self, alloc: Global) -> Result<MeasuredSere, NoMemory>
        ensures { IfOk result (λ new. new ≡ self.now) }
    {
        let tree = self.tree.copy(alloc)?;
        Ok(MeasuredSere {
            tree,
            size: self.size,
        })
    }

    /// The tree, moved.
    pub fn into_tree(self) -> Sere
        ensures { sequence_of result ≡ self }
    {
        let MeasuredSere { tree, size: _ } = self;
        tree
    }

    /// How many constructors the sequence has, those of its Booleans among them.
    pub fn size(&self) -> u32
        ensures size { result ≡ sequence_size self.now }
        ensures bound { result ≤ MOST_CONSTRUCTORS }
    {
        self.size
    }
}
