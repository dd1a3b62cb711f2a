// Short lists of literals.
ghost use Rattle.std.specs.Prelude.{◌≡◌, [], ◌∷◌, ◌++◌, ◌<◌, length, slice_get, Some, IfOk, OnOk, OnErr};

use psl_base::NoMemory;
use smallvec::SmallVec;
use std::alloc::Global;
use std::marker::Model;

/// Literals, as of a clause or a cube: up to eight take no memory of their own. Contracts see the list of them.
#[derive(Debug, Drop)]
pub struct Literals {
    members: SmallVec<i32, 8>,
}

impl Model for Literals {
    ghost use Rattle.std.specs.Prelude.{List, ℤ};

    ghost Value = { List ℤ };

    ghost view = { λ literals. literals.members.items };
}

impl Literals {
    /// The empty list. It takes no memory.
    pub fn new(alloc: Global) -> Literals
        ensures { result ≡ [] }
    {
        Literals {
            members: SmallVec::new(alloc),
        }
    }

    /// A list of the members of a slice.
    ///
    /// # Errors
    ///
    /// `NoMemory` if memory is refused.
    pub fn from_slice(alloc: Global, members: &[i32]) -> Result<Literals, NoMemory>
        ensures { IfOk result (λ new. new ≡ members.now) }
    {
        Ok(Literals {
            members: SmallVec::from_slice(alloc, members)?,
        })
    }

    /// A list of the same members.
    ///
    /// # Errors
    ///
    /// `NoMemory` if memory is refused.
    pub fn copy(&self, alloc: Global) -> Result<Literals, NoMemory>
        ensures { IfOk result (λ new. new ≡ self.now) }
    {
        Literals::from_slice(alloc, self.members.as_slice())
    }

    /// How many there are.
    pub fn len(&self) -> usize
        ensures { result ≡ length self.now }
    {
        self.as_slice().len()
    }

    /// The one at a place, counted from 0.
    pub fn at(&self, place: usize) -> &i32
        requires { place < length self.now }
        ensures { slice_get self.now place ≡ Some result.now }
    {
        &self.as_slice()[place]
    }

    /// The members in order.
    pub fn as_slice(&self) -> &[i32]
        ensures { result.now ≡ self.now }
    {
        self.members.as_slice()
    }

    /// Adds one at the end. Where memory is refused, the list stays.
    ///
    /// # Errors
    ///
    /// `NoMemory` if memory is refused.
    pub fn push(&mut self, literal: i32) -> Result<(), NoMemory>
        ensures ok { OnOk result (self.new ≡ self.old ++ literal ∷ []) }
        ensures err { OnErr result (self.new ≡ self.old) }
    {
        self.members.push(literal)?;
        Ok(())
    }
}
