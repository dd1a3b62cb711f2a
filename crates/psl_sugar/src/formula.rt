ghost use Rattle.std.specs.Prelude.{◌≡◌, ◌≤◌, IfOk};
ghost use Rattle.psl_tree.specs.Counts.{formula_size};
ghost use Rattle.psl_tree.specs.declared.counts.TheConstants.{MOST_CONSTRUCTORS};
ghost use Rattle.psl_tree.specs.Trees.{formula_of, Now, NowStrong, Weak, Strong, Not, And, Next, Until, Suffix, Abort, SyncAbort, Clocked};
ghost use Rattle.psl_sugar.specs.Budget.{GivesFormula};

use crate::budget::within;
use crate::{MeasuredBool, MeasuredSere, SugarFault};
use psl_base::{NoMemory, boxed};
use psl_tree::Fl;
use std::alloc::Global;
use std::marker::Model;

/// A formula of at most 4,096 constructors, with their number.
///
/// Contracts see the formula.
#[derive(Debug)]
pub struct MeasuredFl {
    tree: Fl,
    size: u32,
}

impl Model for MeasuredFl {
    ghost use Rattle.std.specs.Prelude.{◌≡◌, ◌≤◌};
    ghost use Rattle.psl_tree.specs.Counts.{formula_size};
    ghost use Rattle.psl_tree.specs.declared.counts.TheConstants.{MOST_CONSTRUCTORS};
    ghost use Rattle.psl_tree.specs.Trees.{Formula, formula_of};
    ghost use Rattle.psl_sugar.specs.Codes.{formula_code};

    ghost Value = { Formula };

    ghost coded = { formula_code };

    ghost view = { λ formula. formula_of formula.tree };

    ghost invariant = { λ formula. (formula_size (formula_of formula.tree) ≡ formula.size) × (formula.size ≤ MOST_CONSTRUCTORS) };
}

// Written out, so that a caller's proof sees one call where a value is dropped.
impl Drop for MeasuredFl {
    fn drop(self) {
        let MeasuredFl { tree: _, size: _ } = self;
    }
}

impl MeasuredFl {
    /// A Boolean as a property.
    pub fn now(test: MeasuredBool) -> Result<MeasuredFl, SugarFault>
        ensures { GivesFormula result (Now test) }
    {
        let size = within(test.size() + 1)?;
        let tree = Fl::Now(test.into_tree());
        Ok(MeasuredFl { tree, size })
    }

    /// `b!`.
    pub fn now_strong(test: MeasuredBool) -> Result<MeasuredFl, SugarFault>
        ensures { GivesFormula result (NowStrong test) }
    {
        let size = within(test.size() + 1)?;
        let tree = Fl::NowStrong(test.into_tree());
        Ok(MeasuredFl { tree, size })
    }

    /// A sequence as a property.
    pub fn weak(sequence: MeasuredSere) -> Result<MeasuredFl, SugarFault>
        ensures { GivesFormula result (Weak sequence) }
    {
        let size = within(sequence.size() + 1)?;
        let tree = Fl::Weak(sequence.into_tree());
        Ok(MeasuredFl { tree, size })
    }

    /// `r!`.
    pub fn strong(sequence: MeasuredSere) -> Result<MeasuredFl, SugarFault>
        ensures { GivesFormula result (Strong sequence) }
    {
        let size = within(sequence.size() + 1)?;
        let tree = Fl::Strong(sequence.into_tree());
        Ok(MeasuredFl { tree, size })
    }

    /// `!f`.
    pub fn not(self, alloc: Global) -> Result<MeasuredFl, SugarFault>
        ensures { GivesFormula result (Not self) }
    {
        let size = within(self.size + 1)?;
        let MeasuredFl { tree, size: _ } = self;
        let tree = Fl::Not(boxed(alloc, tree)?);
        Ok(MeasuredFl { tree, size })
    }

    /// `f && g`.
    pub fn and(self, alloc: Global, right: MeasuredFl) -> Result<MeasuredFl, SugarFault>
        ensures { GivesFormula result (And self right) }
    {
        let size = within(self.size + right.size + 1)?;
        let MeasuredFl {
            tree: left,
            size: _,
        } = self;
        let MeasuredFl {
            tree: right,
            size: _,
        } = right;
        let left = boxed(alloc, left)?;
        let tree = Fl::And(left, boxed(alloc, right)?);
        Ok(MeasuredFl { tree, size })
    }

    /// `X! f`: there is a next letter, and `f` holds from it on.
    pub fn next_letter(self, alloc: Global) -> Result<MeasuredFl, SugarFault>
        ensures { GivesFormula result (Next self) }
    {
        let size = within(self.size + 1)?;
        let MeasuredFl { tree, size: _ } = self;
        let tree = Fl::Next(boxed(alloc, tree)?);
        Ok(MeasuredFl { tree, size })
    }

    /// `f U g`.
    pub fn strong_until(self, alloc: Global, right: MeasuredFl) -> Result<MeasuredFl, SugarFault>
        ensures { GivesFormula result (Until self right) }
    {
        let size = within(self.size + right.size + 1)?;
        let MeasuredFl {
            tree: left,
            size: _,
        } = self;
        let MeasuredFl {
            tree: right,
            size: _,
        } = right;
        let left = boxed(alloc, left)?;
        let tree = Fl::Until(left, boxed(alloc, right)?);
        Ok(MeasuredFl { tree, size })
    }

    /// `r |-> f`.
    pub fn suffix(
        alloc: Global,
        sequence: MeasuredSere,
        part: MeasuredFl,
    ) -> Result<MeasuredFl, SugarFault>
        ensures { GivesFormula result (Suffix sequence part) }
    {
        let size = within(sequence.size() + part.size + 1)?;
        let MeasuredFl {
            tree: part,
            size: _,
        } = part;
        let part = boxed(alloc, part)?;
        let tree = Fl::Suffix(sequence.into_tree(), part);
        Ok(MeasuredFl { tree, size })
    }

    /// `f async_abort b`, which is `f abort b` too.
    pub fn abort(self, alloc: Global, test: MeasuredBool) -> Result<MeasuredFl, SugarFault>
        ensures { GivesFormula result (Abort self test) }
    {
        let size = within(self.size + test.size() + 1)?;
        let MeasuredFl { tree, size: _ } = self;
        let tree = Fl::Abort(boxed(alloc, tree)?, test.into_tree());
        Ok(MeasuredFl { tree, size })
    }

    /// `f sync_abort b`.
    pub fn sync_abort(self, alloc: Global, test: MeasuredBool) -> Result<MeasuredFl, SugarFault>
        ensures { GivesFormula result (SyncAbort self test) }
    {
        let size = within(self.size + test.size() + 1)?;
        let MeasuredFl { tree, size: _ } = self;
        let tree = Fl::SyncAbort(boxed(alloc, tree)?, test.into_tree());
        Ok(MeasuredFl { tree, size })
    }

    /// `f@c`.
    pub fn clocked(self, alloc: Global, clock: MeasuredBool) -> Result<MeasuredFl, SugarFault>
        ensures { GivesFormula result (Clocked self clock) }
    {
        let size = within(self.size + clock.size() + 1)?;
        let MeasuredFl { tree, size: _ } = self;
        let tree = Fl::Clocked(boxed(alloc, tree)?, clock.into_tree());
        Ok(MeasuredFl { tree, size })
    }

    /// An equal formula.
    pub fn copy(&self, alloc: Global) -> Result<MeasuredFl, NoMemory>
        ensures { IfOk result (λ new. new ≡ self.now) }
    {
        let tree = self.tree.copy(alloc)?;
        Ok(MeasuredFl {
            tree,
            size: self.size,
        })
    }

    /// The tree, moved.
    pub fn into_tree(self) -> Fl
        ensures { formula_of result ≡ self }
    {
        let MeasuredFl { tree, size: _ } = self;
        tree
    }

    /// How many constructors the formula has, those of its sequences and Booleans among them.
    pub fn size(&self) -> u32
        ensures size { result ≡ formula_size self.now }
        ensures bound { result ≤ MOST_CONSTRUCTORS }
    {
        self.size
    }
}
