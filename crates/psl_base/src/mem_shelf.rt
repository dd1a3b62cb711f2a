ghost use Rattle.std.specs.Prelude.{◌≡◌, ◌≢◌, ◌⊎◌, ◌+◌, ◌-◌, ◌^◌, ◌<◌, ◌≤◌, ◌↔◌, length, take, drop, min, Some, None, IsTrue, IsErr, IfOk, IfSome, IfNone, OnOk, OnErr};
ghost use Rattle.psl_base.specs.Shelf.{OnlyReads, OfSelected, Selects, SelectFails, Reads, ReadFails, OnlyWrites, Creates, CreateFails, Appends, AppendFails};
ghost use Rattle.psl_base.specs.Files.{bytes_of, content_of, CreatesFile, IsNamePastRoom, IsPiecePastRoom, GrowsLast};
ghost use Rattle.psl_base.specs.Memory.{counted};
ghost use Rattle.psl_base.specs.MemShelfState.{shelf_state, IsListed, CountsWhere, CountsCall};

use crate::memory::is_listed;
use crate::packed::PackedFiles;
use crate::{Failed, Files, NoMemory, Numbers, Shelf};
use std::alloc::Global;
use std::marker::Model;

/// A shelf in memory, which tells every content.
///
/// It takes its room when it is made and no memory later. The room is a number of files, and a
/// number of bytes that all their names and contents may have together. The calls are numbered
/// together from 1, and those whose number is listed fail; so does a new name or a piece that goes
/// past the room. A name that is not there cannot be selected, which is no fault.
#[derive(Debug)]
pub struct MemShelf {
    files: PackedFiles,
    selected: Option<usize>,
    cursor: usize,
    is_written: bool,
    calls: u64,
    read_faults: u64,
    write_faults: u64,
    fail: Numbers,
}

impl Model for MemShelf {
    ghost use Rattle.psl_base.specs.MemShelfState.{MemoryShelf};

    ghost Value = { MemoryShelf };

    ghost use Rattle.psl_base.specs.MemShelfFields.{memory_of, IsShelf};

    ghost view = { memory_of };

    ghost invariant = { IsShelf };
}

// Written out, so that a caller's proof sees one call where a value is dropped.
impl Drop for MemShelf {
    fn drop(self) {
        let MemShelf {
            files: _,
            selected: _,
            cursor: _,
            is_written: _,
            calls: _,
            read_faults: _,
            write_faults: _,
            fail: _,
        } = self;
    }
}

impl MemShelf {
    /// These files, with room for so many more names and for so many more bytes of names and
    /// contents, of which the listed calls fail. Where two files have one name, the later counts.
    pub fn new(
        alloc: Global,
        files: &Files,
        more_names: u32,
        more_bytes: u32,
        fail: &Numbers,
    ) -> Result<MemShelf, NoMemory>
        ensures { IfOk result (λ shelf. shelf ≡ record {
          store = record {
            files = files.now;
            file_room = length files.now + more_names;
            byte_room = bytes_of files.now + more_bytes;
          };
          selected = None;
          cursor = 0;
          created = None;
          calls = 0;
          read_faults = 0;
          write_faults = 0;
          fail = fail.now;
        }) }
    {
        Ok(MemShelf {
            files: PackedFiles::with_room(alloc, files, more_names, more_bytes)?,
            selected: None,
            cursor: 0,
            is_written: false,
            calls: 0,
            read_faults: 0,
            write_faults: 0,
            fail: fail.copy(alloc)?,
        })
    }

    /// The content of a name, none exactly where the name is not there.
    pub fn content(&self, name: &str) -> Option<&[u8]>
        ensures found { IfSome result (λ content. content_of self.now.store.files name.now ≡ Some content.now) }
        ensures absent { IfNone result (content_of self.now.store.files name.now ≡ None) }
    {
        self.files.content(name.as_bytes())
    }

    /// Counts a call, and says whether it is listed to fail.
    fn next_call_fails(&mut self) -> bool
        ensures listed { IsTrue result ↔ IsListed self.old }
        ensures counted { self.new ≡ record self.old { calls = counted self.old.calls } }
    {
        self.calls = self.calls.saturating_add(1);
        is_listed(self.fail.as_slice(), self.calls)
    }
}

impl Shelf for MemShelf {
    ghost state = { shelf_state };

    fn select(&mut self, name: &str) -> Result<(), Failed>
        ensures ok { OnOk result (Selects name.now (shelf_state self.old) (shelf_state self.new)) }
        ensures failed { OnErr result (SelectFails name.now (shelf_state self.old) (shelf_state self.new)) }
        ensures rest { OnlyReads (shelf_state self.old) (shelf_state self.new) }

        ensures exact { IsErr result ↔ (IsListed self.old ⊎ (content_of self.old.store.files name.now ≡ None)) }
        ensures counts { CountsWhere (IsListed self.old) self.old.read_faults self.new.read_faults }
        ensures call { CountsCall self.old self.new }
        ensures same { self.new.store ≡ self.old.store }
    {
        let fails = self.next_call_fails();
        self.selected = None;
        if fails {
            self.read_faults = self.read_faults.saturating_add(1);
            return Err(Failed);
        }
        let Some(place) = self.files.find(name.as_bytes()) else {
            return Err(Failed);
        };
        self.selected = Some(place);
        self.cursor = 0;
        Ok(())
    }

    fn read(&mut self, into: &mut [u8]) -> Result<usize, Failed>
        requires selected { (shelf_state self.old).selected ≢ None }
        requires room { 0 < length into.old }
        requires cursor { (shelf_state self.old).cursor + length into.old < 2 ^ 63 }

        ensures ok { IfOk result (λ count. Reads count into.new (shelf_state self.old) (shelf_state self.new)) }
        ensures failed { OnErr result (ReadFails (shelf_state self.old) (shelf_state self.new)) }
        ensures rest { OnlyReads (shelf_state self.old) (shelf_state self.new) }

        ensures exact { IsErr result ↔ IsListed self.old }
        ensures whole { IfOk result (λ count. OfSelected (shelf_state self.old)
            (λ content. count ≡ min (length into.old) (length content - self.old.cursor))) }
        ensures counts { CountsWhere (IsListed self.old) self.old.read_faults self.new.read_faults }
        ensures call { CountsCall self.old self.new }
        ensures same { self.new.store ≡ self.old.store }
    {
        if self.next_call_fails() {
            self.read_faults = self.read_faults.saturating_add(1);
            return Err(Failed);
        }
        let Some(place) = self.selected else {
            unreachable!()
        };
        let (_, content) = self.files.file_at(place);
        let count = copy_from(content, self.cursor, into);
        self.cursor += count;
        Ok(count)
    }

    fn create(&mut self, name: &str) -> Result<(), Failed>
        ensures ok { OnOk result (Creates name.now (shelf_state self.old) (shelf_state self.new)) }
        ensures failed { OnErr result (CreateFails (shelf_state self.old) (shelf_state self.new)) }
        ensures rest { OnlyWrites (shelf_state self.old) (shelf_state self.new) }

        ensures exact { IsErr result ↔ (IsListed self.old ⊎ IsNamePastRoom self.old.store name.now) }
        ensures files { OnOk result (CreatesFile name.now self.old.store.files self.new.store.files) }
        ensures same { OnErr result (self.new.store ≡ self.old.store) }
        ensures counts { CountsWhere (IsListed self.old ⊎ IsNamePastRoom self.old.store name.now) self.old.write_faults self.new.write_faults }
        ensures call { CountsCall self.old self.new }
    {
        let fails = self.next_call_fails();
        self.is_written = false;
        if fails || !self.files.create(name.as_bytes()) {
            self.write_faults = self.write_faults.saturating_add(1);
            return Err(Failed);
        }
        self.selected = None;
        self.is_written = true;
        Ok(())
    }

    fn append(&mut self, bytes: &[u8]) -> Result<usize, Failed>
        requires { (shelf_state self.old).created ≢ None }

        ensures ok { IfOk result (λ count. Appends count bytes.now (shelf_state self.old) (shelf_state self.new)) }
        ensures failed { OnErr result (AppendFails (shelf_state self.old) (shelf_state self.new)) }
        ensures rest { OnlyWrites (shelf_state self.old) (shelf_state self.new) }

        ensures exact { IsErr result ↔ (IsListed self.old ⊎ IsPiecePastRoom self.old.store bytes.now) }
        ensures whole { IfOk result (λ count. count ≡ length bytes.now) }
        ensures files { OnOk result (GrowsLast bytes.now self.old.store.files self.new.store.files) }
        ensures same { OnErr result (self.new.store ≡ self.old.store) }
        ensures counts { CountsWhere (IsListed self.old ⊎ IsPiecePastRoom self.old.store bytes.now) self.old.write_faults self.new.write_faults }
        ensures call { CountsCall self.old self.new }
    {
        if self.next_call_fails() || !self.files.has_byte_room(bytes.len()) {
            self.write_faults = self.write_faults.saturating_add(1);
            return Err(Failed);
        }
        self.files.grow_last(bytes);
        Ok(bytes.len())
    }
}

/// Copies what is left of a content from a place on, as much as the buffer takes, and says how much.
fn copy_from(content: &[u8], place: usize, into: &mut [u8]) -> usize
    requires { place ≤ length content.now }
    ensures count { result ≡ min (length into.old) (length content.now - place) }
    ensures bytes { take result (drop place content.now) ≡ take result into.new }
{
    let rest = &content[place..];
    let count = rest.len().min(into.len());
    into[..count].copy_from_slice(&rest[..count]);
    count
}
