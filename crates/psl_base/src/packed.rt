ghost use Rattle.std.specs.Prelude.{◌≡◌, ◌+◌, ◌-◌, ◌^◌, ◌<◌, ◌≤◌, ◌↔◌, ◌∷◌, [], ◌++◌, length, take, drop, min, slice_get, Some, None, IsTrue, IsFalse, IfOk, IfSome, IfNone, vec_len, vec_capacity};

use crate::{Bytes, Items, NoMemory};
use std::alloc::Global;
use std::marker::Model;

/// A file: its name and its content.
#[derive(Debug, Drop)]
pub struct File {
    pub name: Bytes,
    pub content: Bytes,
}

/// Files, such as those that a shelf in memory begins with.
pub type Files = Items<File>;

/// How many bytes a file's name has, and then its content.
#[derive(Clone, Copy, Debug)]
struct Span {
    name: usize,
    content: usize,
}

/// Files in one run of bytes, which takes its room when it is made and no memory later.
#[derive(Debug, Drop)]
pub(crate) struct PackedFiles {
    bytes: Vec<u8>,
    spans: Vec<Span>,
    byte_room: usize,
    file_room: usize,
}

impl Model for PackedFiles {
    ghost use Rattle.psl_base.specs.Files.{FileStore};

    ghost Value = { FileStore };

    ghost use Rattle.psl_base.specs.Packed.{store_of, IsPacked};

    ghost view = { store_of };

    ghost invariant = { IsPacked };
}

#[tactic(auto, using(crate::proofs::Packing::length_files_in, crate::proofs::Packing::bytes_of_files_in))]
impl PackedFiles {
    ghost use Rattle.psl_base.specs.Files.{bytes_of, content_of, empty_file, FoundAt, EmptiesOne, GrowsLast, CreatesFile, IsNamePastRoom};
    ghost use Rattle.psl_base.specs.declared.packed.File.{File};

    /// No files, with room for so many and for so many bytes of names and contents.
    fn new(alloc: Global, file_room: usize, byte_room: usize) -> Result<PackedFiles, NoMemory>
        ensures empty { IfOk result (λ packed. packed ≡ record { files = []; file_room = file_room; byte_room = byte_room }) }
        ensures room { IfOk result (λ _. byte_room < 2 ^ 63) }
    {
        Ok(PackedFiles {
            bytes: Vec::with_capacity(alloc, byte_room)?,
            spans: Vec::with_capacity(alloc, file_room)?,
            byte_room,
            file_room,
        })
    }

    /// These files, with room for so many more and for so many more bytes.
    pub(crate) fn with_room(
        alloc: Global,
        files: &Files,
        more_files: u32,
        more_bytes: u32,
    ) -> Result<PackedFiles, NoMemory>
        ensures { IfOk result (λ packed. packed ≡ record {
          files = files.now;
          file_room = length files.now + more_files;
          byte_room = bytes_of files.now + more_bytes;
        }) }
    {
        let files = files.as_slice();
        let byte_room = byte_size(files, more_bytes as usize);
        let mut packed = PackedFiles::new(alloc, files.len() + more_files as usize, byte_room)?;
        for file in files {
            packed.add(file.name.as_slice());
            packed.grow_last(file.content.as_slice());
        }
        Ok(packed)
    }

    /// How many files there are.
    fn len(&self) -> usize
        ensures { result ≡ length self.now.files }
    {
        self.spans.len()
    }

    /// Whether one more file fits.
    fn has_file_room(&self) -> bool
        ensures { IsTrue result ↔ (length self.now.files < self.now.file_room) }
    {
        self.spans.len() < self.file_room
    }

    /// Whether so many more bytes fit.
    pub(crate) fn has_byte_room(&self, size: usize) -> bool
        ensures { IsTrue result ↔ (bytes_of self.now.files + size ≤ self.now.byte_room) }
    {
        size <= self.byte_room - self.bytes.len()
    }

    /// The name and the content of the file at a place, counted from 0.
    pub(crate) fn file_at(&self, place: usize) -> (&[u8], &[u8])
        requires { place < length self.now.files }
        ensures { slice_get self.now.files place ≡ Some (record { name = result.0.now; content = result.1.now }) }
    {
        let start = covered(&self.spans[..place]);
        let span = self.spans[place];
        two_parts(&self.bytes, start, span.name, span.content)
    }

    /// The place of the file of this name that counts, which is the last of them.
    pub(crate) fn find(&self, name: &[u8]) -> Option<usize>
        ensures found { IfSome result (FoundAt self.now.files name.now) }
        ensures none { IfNone result (content_of self.now.files name.now ≡ None) }
    {
        for place in (0..self.len()).rev() {
            let (other, _) = self.file_at(place);
            if other == name {
                return Some(place);
            }
        }
        None
    }

    /// The content of a name.
    pub(crate) fn content(&self, name: &[u8]) -> Option<&[u8]>
        ensures found { IfSome result (λ content. content_of self.now.files name.now ≡ Some content.now) }
        ensures none { IfNone result (content_of self.now.files name.now ≡ None) }
    {
        let (_, content) = self.file_at(self.find(name)?);
        Some(content)
    }

    /// Gives a name an empty file, and puts it last. Where there is no room for the name, nothing changes.
    pub(crate) fn create(&mut self, name: &[u8]) -> bool
        ensures exact { IsFalse result ↔ IsNamePastRoom self.old name.now }
        ensures created { OnTrue result (CreatesFile name.now self.old.files self.new.files) }
        ensures unchanged { OnFalse result (self.new ≡ self.old) }
        ensures file_room { self.new.file_room ≡ self.old.file_room }
        ensures byte_room { self.new.byte_room ≡ self.old.byte_room }
    {
        if let Some(place) = self.find(name) {
            self.empty(place);
            return true;
        }
        let fits = self.has_file_room() && self.has_byte_room(name.len());
        if fits {
            self.add(name);
        }
        fits
    }

    /// Adds an empty file at the end.
    fn add(&mut self, name: &[u8])
        requires file_room { length self.old.files < self.old.file_room }
        requires byte_room { bytes_of self.old.files + length name.now ≤ self.old.byte_room }
        ensures { self.new ≡ record self.old { files = self.old.files ++ empty_file name.now ∷ [] } }
    {
        extend_within(&mut self.bytes, name);
        push_within(
            &mut self.spans,
            Span {
                name: name.len(),
                content: 0,
            },
        );
    }

    /// Adds bytes at the end of the last file.
    pub(crate) fn grow_last(&mut self, more: &[u8])
        requires some { 0 < length self.old.files }
        requires room { bytes_of self.old.files + length more.now ≤ self.old.byte_room }
        ensures grows { GrowsLast more.now self.old.files self.new.files }
        ensures file_room { self.new.file_room ≡ self.old.file_room }
        ensures byte_room { self.new.byte_room ≡ self.old.byte_room }
    {
        extend_within(&mut self.bytes, more);
        let last = self.spans.len() - 1;
        self.spans[last].content += more.len();
    }

    /// Empties the file at a place, counted from 0, and puts it last.
    fn empty(&mut self, place: usize)
        requires { place < length self.old.files }
        ensures empties { (file : File) → slice_get self.old.files place ≡ Some file → EmptiesOne file.name self.old.files self.new.files }
        ensures file_room { self.new.file_room ≡ self.old.file_room }
        ensures byte_room { self.new.byte_room ≡ self.old.byte_room }
    {
        let start = covered(&self.spans[..place]);
        let span = self.spans.remove(place);
        move_to_end(&mut self.bytes, start, span.name + span.content);
        let kept = self.bytes.len() - span.content;
        self.bytes.truncate(kept);
        push_within(
            &mut self.spans,
            Span {
                name: span.name,
                content: 0,
            },
        );
    }
}

ghost use Rattle.std.specs.Bool.{OnTrue, OnFalse};
ghost use Rattle.psl_base.specs.Packed.{covered as size_of};
ghost use Rattle.psl_base.specs.Files.{bytes_of as size_of_files};

/// How many bytes the files have together, and so many more. A sum that no number says becomes the largest one: no
/// allocator has room for that, so the answer for want of memory is its own.
fn byte_size(files: &[File], more: usize) -> usize
    ensures { result ≡ min (size_of_files files.now + more) (2 ^ 64 - 1) }
{
    let mut size = more;
    for file in files {
        size = size
            .saturating_add(file.name.len())
            .saturating_add(file.content.len());
    }
    size
}

/// How many bytes the spans cover.
fn covered(spans: &[Span]) -> usize
    requires { size_of spans.now < 2 ^ 64 }
    ensures { result ≡ size_of spans.now }
{
    let mut size = 0;
    for span in spans {
        size += span.name + span.content;
    }
    size
}

/// The first bytes from a place on, counted from 0, and then the next.
fn two_parts(bytes: &[u8], start: usize, first: usize, second: usize) -> (&[u8], &[u8])
    requires { start + (first + second) ≤ length bytes.now }
    ensures first { result.0.now ≡ take first (drop start bytes.now) }
    ensures second { result.1.now ≡ take second (drop (start + first) bytes.now) }
{
    let middle = start + first;
    (&bytes[start..middle], &bytes[middle..middle + second])
}

/// Adds bytes for which there is room.
fn extend_within(bytes: &mut Vec<u8>, more: &[u8])
    requires { vec_len bytes.old + length more.now ≤ vec_capacity bytes.old }
    ensures items { bytes.new.items ≡ bytes.old.items ++ more.now }
    ensures room { vec_capacity bytes.old ≤ vec_capacity bytes.new }
{
    let Ok(()) = bytes.extend_from_slice(more) else {
        unreachable!()
    };
}

/// Adds a span for which there is room.
fn push_within(spans: &mut Vec<Span>, span: Span)
    requires { vec_len spans.old < vec_capacity spans.old }
    ensures items { spans.new.items ≡ spans.old.items ++ span ∷ [] }
    ensures room { vec_capacity spans.old ≤ vec_capacity spans.new }
{
    let Ok(()) = spans.push(span) else {
        unreachable!()
    };
}

/// Moves the bytes from a place on, counted from 0, behind all others.
fn move_to_end(bytes: &mut Vec<u8>, start: usize, size: usize)
    requires { start + size ≤ vec_len bytes.old }
    ensures items { bytes.new.items ≡ take start bytes.old.items ++ drop (start + size) bytes.old.items ++ take size (drop start bytes.old.items) }
    ensures len { vec_len bytes.new ≡ vec_len bytes.old }
    ensures room { vec_capacity bytes.new ≡ vec_capacity bytes.old }
{
    bytes[start..].rotate_left(size);
}
