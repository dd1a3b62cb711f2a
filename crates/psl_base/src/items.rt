ghost use Rattle.std.specs.Prelude.{◌≡◌, [], ◌∷◌, ◌++◌, ◌<◌, length, slice_get, slice_set, IfOk, OnOk, OnErr};

use std::alloc::{AllocError, AllocFailed, Global};
use std::marker::Model;
use thiserror::Error;

/// The allocator refused memory. It is the one answer that a call may give at any time.
#[derive(Clone, Copy, Debug, PartialEq, Eq, Error)]
#[error("out of memory")]
pub struct NoMemory;

impl From<AllocError> for NoMemory {
    fn from(_refused: AllocError) -> NoMemory {
        NoMemory
    }
}

/// What could not be stored is dropped.
impl<T: Drop> From<AllocFailed<T>> for NoMemory {
    fn from(_refused: AllocFailed<T>) -> NoMemory {
        NoMemory
    }
}

/// A growing list that contracts see as the list of its members.
#[derive(Debug, Drop)]
pub struct Items<T> {
    members: Vec<T>,
}

/// The bytes of a file, of a name or of a printed line.
pub type Bytes = Items<u8>;

/// The bytes of a text, such as a name.
pub type Text = Items<u8>;

/// Truth values, such as a valuation of signals.
pub type Bits = Items<bool>;

/// Numbers, such as the calls that are to fail.
pub type Numbers = Items<u32>;

impl<T> Model for Items<T> {
    ghost use Rattle.std.specs.Prelude.{List};
    ghost use Rattle.std.specs.Coded.{coded_list};

    ghost Value = { List T };

    ghost coded = { coded_list T.code };

    ghost view = { λ items. items.members.items };
}

impl<T> Items<T> {
    /// The empty list. It takes no memory.
    pub fn new(alloc: Global) -> Items<T>
        ensures { result ≡ [] }
    {
        Items {
            members: Vec::new(alloc),
        }
    }

    /// The members of a `Vec`, moved. It takes no memory.
    pub fn from_vec(members: Vec<T>) -> Items<T>
        ensures { result ≡ members.items }
    {
        Items { members }
    }

    /// The members as a `Vec`, moved. It takes no memory.
    pub fn into_vec(self) -> Vec<T>
        ensures { result.items ≡ self }
    {
        let Items { members } = self;
        members
    }

    /// How many members there are.
    pub fn len(&self) -> usize
        ensures { result ≡ length self.now }
    {
        self.members.len()
    }

    /// The member at a place, counted from 0.
    pub fn at(&self, place: usize) -> &T
        requires { place < length self.now }
        ensures { slice_get self.now place ≡ Some result.now }
    {
        &self.members[place]
    }

    /// The members in order.
    pub fn as_slice(&self) -> &[T]
        ensures { result.now ≡ self.now }
    {
        self.members.as_slice()
    }
}

impl<T: Drop> Items<T> {
    /// Adds a member at the end. Where memory is refused, the member is dropped and the list stays.
    pub fn push(&mut self, member: T) -> Result<(), NoMemory>
        ensures ok { OnOk result (self.new ≡ self.old ++ member ∷ []) }
        ensures err { OnErr result (self.new ≡ self.old) }
    {
        self.members.push(member)?;
        Ok(())
    }

    /// Writes one member, at a place counted from 0.
    pub fn set(&mut self, place: usize, member: T)
        requires { place < length self.old }
        ensures { self.new ≡ slice_set self.old place member }
    {
        self.members[place] = member;
    }
}

impl<T: Copy> Items<T> {
    /// A list of the same members.
    pub fn copy(&self, alloc: Global) -> Result<Items<T>, NoMemory>
        ensures { IfOk result (λ new. new ≡ self.now) }
    {
        Items::from_slice(alloc, self.members.as_slice())
    }

    /// A list of the members of a slice.
    pub fn from_slice(alloc: Global, members: &[T]) -> Result<Items<T>, NoMemory>
        ensures { IfOk result (λ new. new ≡ members.now) }
    {
        Ok(Items {
            members: Vec::from_slice(alloc, members)?,
        })
    }
}

/// A value in a box of its own. Where memory is refused, the value is dropped.
pub fn boxed<T: Drop>(alloc: Global, value: T) -> Result<Box<T>, NoMemory>
    ensures { IfOk result (λ new. new.value ≡ value) }
{
    Ok(Box::new(alloc, value)?)
}
