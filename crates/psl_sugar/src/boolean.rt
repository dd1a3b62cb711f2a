ghost use Rattle.std.specs.Prelude.{◌≡◌, ◌≤◌, IfOk};
ghost use Rattle.psl_tree.specs.Counts.{boolean_size};
ghost use Rattle.psl_tree.specs.declared.counts.TheConstants.{MOST_CONSTRUCTORS};
ghost use Rattle.psl_tree.specs.Trees.{boolean_of, Const, Test, Not, And, Or};
ghost use Rattle.psl_sugar.specs.Budget.{GivesBoolean};

use crate::SugarFault;
use crate::budget::within;
use psl_base::{NoMemory, boxed};
use psl_tree::{Atom, Bool};
use std::alloc::Global;
use std::marker::Model;

/// A Boolean expression of at most 4,096 constructors, with their number.
///
/// Contracts see the expression.
#[derive(Debug)]
pub struct MeasuredBool {
    tree: Bool,
    size: u32,
}

impl Model for MeasuredBool {
    ghost use Rattle.std.specs.Prelude.{◌≡◌, ◌≤◌};
    ghost use Rattle.psl_tree.specs.Counts.{boolean_size};
    ghost use Rattle.psl_tree.specs.declared.counts.TheConstants.{MOST_CONSTRUCTORS};
    ghost use Rattle.psl_tree.specs.Trees.{Boolean, boolean_of};
    ghost use Rattle.psl_tree.specs.Codes.{boolean_code};

    ghost Value = { Boolean };

    ghost coded = { boolean_code };

    ghost view = { λ test. boolean_of test.tree };

    ghost invariant = { λ test. (boolean_size (boolean_of test.tree) ≡ test.size) × (test.size ≤ MOST_CONSTRUCTORS) };
}

// Written out, so that a caller's proof sees one call where a value is dropped.
impl Drop for MeasuredBool {
    fn drop(self) {
        let MeasuredBool { tree: _, size: _ } = self;
    }
}

impl MeasuredBool {
    /// `true` or `false`.
    pub fn constant(value: bool) -> MeasuredBool
        ensures { result ≡ Const value }
    {
        MeasuredBool {
            tree: Bool::Const(value),
            size: 1,
        }
    }

    /// An atom.
    pub fn test(atom: Atom) -> MeasuredBool
        ensures { result ≡ Test atom }
    {
        MeasuredBool {
            tree: Bool::Test(atom),
            size: 1,
        }
    }

    /// `!b`.
    pub fn not(self, alloc: Global) -> Result<MeasuredBool, SugarFault>
        ensures { GivesBoolean result (Not self) }
    {
        let size = within(self.size + 1)?;
        let MeasuredBool { tree, size: _ } = self;
        let tree = Bool::Not(boxed(alloc, tree)?);
        Ok(MeasuredBool { tree, size })
    }

    /// `b && c`.
    pub fn and(self, alloc: Global, right: MeasuredBool) -> Result<MeasuredBool, SugarFault>
        ensures { GivesBoolean result (And self right) }
    {
        let size = within(self.size + right.size + 1)?;
        let MeasuredBool {
            tree: left,
            size: _,
        } = self;
        let MeasuredBool {
            tree: right,
            size: _,
        } = right;
        let left = boxed(alloc, left)?;
        let tree = Bool::And(left, boxed(alloc, right)?);
        Ok(MeasuredBool { tree, size })
    }

    /// `b || c`.
    pub fn or(self, alloc: Global, right: MeasuredBool) -> Result<MeasuredBool, SugarFault>
        ensures { GivesBoolean result (Or self right) }
    {
        let size = within(self.size + right.size + 1)?;
        let MeasuredBool {
            tree: left,
            size: _,
        } = self;
        let MeasuredBool {
            tree: right,
            size: _,
        } = right;
        let left = boxed(alloc, left)?;
        let tree = Bool::Or(left, boxed(alloc, right)?);
        Ok(MeasuredBool { tree, size })
    }

    /// An equal expression.
    pub fn copy(&self, alloc: Global) -> Result<MeasuredBool, NoMemory>
        ensures { IfOk result (λ new. new ≡ self.now) }
    {
        let tree = self.tree.copy(alloc)?;
        Ok(MeasuredBool {
            tree,
            size: self.size,
        })
    }

    /// The tree, moved.
    pub fn into_tree(self) -> Bool
        ensures { boolean_of result ≡ self }
    {
        let MeasuredBool { tree, size: _ } = self;
        tree
    }

    /// How many constructors the expression has.
    pub fn size(&self) -> u32
        ensures size { result ≡ boolean_size self.now }
        ensures bound { result ≤ MOST_CONSTRUCTORS }
    {
        self.size
    }
}
