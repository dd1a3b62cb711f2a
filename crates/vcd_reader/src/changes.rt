ghost use Rattle.std.specs.List.Sorted.{IsNonDecreasingBy};
ghost use Rattle.std.specs.Prelude.{◌≡◌, ◌-◌, ◌<◌, ◌≤◌, ◌∷◌, ◌++◌, [], length, slice_index_or, None, IsTrue, OnOk, OnErr, All};
ghost use Rattle.vcd_reader.specs.declared.changes.Change.{Change};
ghost use Rattle.vcd_reader.specs.Changes.{IsCount, last_of, latest_change};

use psl_base::NoMemory;
use std::alloc::Global;
use std::marker::Model;

/// A change of a signal: how many samples were begun before it, and where in the text its letters stand.
#[derive(Clone, Copy)]
pub struct Change {
    pub sample: u32,
    pub start: u32,
    pub len: u32,
}

/// The changes of a signal, in order.
#[derive(Drop)]
pub struct Changes {
    list: Vec<Change>,
}

impl Model for Changes {
    ghost use Rattle.std.specs.Prelude.{List};
    ghost use Rattle.std.specs.List.Sorted.{IsNonDecreasingBy};
    ghost use Rattle.vcd_reader.specs.declared.changes.Change.{Change};

    ghost Value = { List Change };

    ghost view = { λ changes. changes.list.items };

    ghost invariant = { λ changes. IsNonDecreasingBy (λ change. change.sample) changes.list.items };
}

impl Changes {
    /// No changes. It takes no memory.
    pub fn new(alloc: Global) -> Changes
        ensures { result ≡ [] }
    {
        Changes {
            list: Vec::new(alloc),
        }
    }

    /// No changes, with room for so many where memory is there for them.
    pub fn with_room(alloc: Global, changes: usize) -> Changes
        ensures { result ≡ [] }
    {
        match Vec::with_capacity(alloc, changes) {
            Ok(list) => Changes { list },
            Err(_) => Changes::new(alloc),
        }
    }

    /// One change more, before which no fewer samples were begun than before the others.
    pub fn push(&mut self, change: Change) -> Result<(), NoMemory>
        requires { All (λ other. other.sample ≤ change.sample) self.old }
        ensures ok { OnOk result (self.new ≡ self.old ++ change ∷ []) }
        ensures err { OnErr result (self.new ≡ self.old) }
    {
        self.list.push(change)?;
        Ok(())
    }

    /// The last change before which at most so many samples were begun. It is looked for at the hint
    /// first, a number of changes, and the hint becomes how many come up to the one that was found.
    pub fn at(&self, sample: u32, hint: &mut usize) -> Option<Change>
        ensures { result ≡ latest_change None sample self.now }
    {
        let changes = self.list.as_slice();
        let count = count_near(changes, sample, *hint);
        *hint = count;
        last_of(changes, count)
    }
}

/// How many changes come before which at most so many samples were begun: as many as hinted, one less or
/// one more, or what a search finds.
fn count_near(changes: &[Change], sample: u32, hint: usize) -> usize
    requires { IsNonDecreasingBy (λ change. change.sample) changes.now }
    ensures { IsCount sample result changes.now }
{
    if is_count(changes, sample, hint) {
        return hint;
    }
    if hint > 0 && is_count(changes, sample, hint - 1) {
        return hint - 1;
    }
    if hint < changes.len() && is_count(changes, sample, hint + 1) {
        return hint + 1;
    }
    count(changes, sample)
}

/// The same by a search.
#[inline(never)]
fn count(changes: &[Change], sample: u32) -> usize
    requires { IsNonDecreasingBy (λ change. change.sample) changes.now }
    ensures { IsCount sample result changes.now }
{
    changes.partition_point(|change| change.sample <= sample)
}

/// Whether just so many changes come before which at most so many samples were begun.
fn is_count(changes: &[Change], sample: u32, count: usize) -> bool
    requires { IsNonDecreasingBy (λ change. change.sample) changes.now }
    ensures { IsTrue result → IsCount sample count changes.now }
{
    if count > changes.len() {
        return false;
    }
    is_early(changes, sample, count) && is_late(changes, sample, count)
}

/// Whether at most so many samples were begun before the last of so many changes.
fn is_early(changes: &[Change], sample: u32, count: usize) -> bool
    requires { count ≤ length changes.now }
    ensures { IsTrue result → (other : Change) → 0 < count → (slice_index_or changes.now (count - 1) other).sample ≤ sample }
{
    count == 0 || changes[count - 1].sample <= sample
}

/// Whether more samples were begun before the first change behind so many.
fn is_late(changes: &[Change], sample: u32, count: usize) -> bool
    requires { count ≤ length changes.now }
    ensures { IsTrue result → (other : Change) → count < length changes.now → sample < (slice_index_or changes.now count other).sample }
{
    count == changes.len() || sample < changes[count].sample
}

/// The last of the first so many changes, none where there are none.
fn last_of(changes: &[Change], count: usize) -> Option<Change>
    requires { count ≤ length changes.now }
    ensures { result ≡ last_of count changes.now }
{
    if count == 0 {
        None
    } else {
        Some(changes[count - 1])
    }
}
