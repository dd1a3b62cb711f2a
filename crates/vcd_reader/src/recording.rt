ghost use Rattle.std.specs.Prelude.{◌≡◌, ◌<◌, ◌≤◌, ◌+◌, ℕ, length, map, slice_index, All, Any, IfOk};
ghost use Rattle.psl_base.specs.Places.{file_limit};
ghost use Rattle.vcd_reader.specs.Rows.{line_at, time_at};
ghost use Rattle.vcd_reader.specs.Rules.{sample_limit};
ghost use Rattle.vcd_reader.specs.Sampled.{letter_before, letter_of, says_one, says_zero, says_nothing, is_one_under, reads_one, letter_in, value_in, bit_at, unknown_at, time_of_sample, place_of_time, atom_at, AtomInRange, AreAlike};
ghost use Rattle.vcd_reader.specs.Changes.{letters_in};

use crate::Unknown;
use crate::body::time_of;
use crate::changes::{Change, Changes};
use psl_base::{Bytes, Cursor, NoMemory, Place, advance, place_of};
use psl_tree::{Atom, Edge, Names};
use std::alloc::Global;
use std::marker::Model;

/// The values that signals have at samples, with the signals' names. It is kept as lists of changes,
/// whose letters stand in the bytes of the file; so which bits are unknown is known without a bit more.
pub struct Recording {
    names: Names,
    bytes: Bytes,
    changes: Vec<Changes>,
    starts: Vec<u32>,
    samples: u32,
    unknown: Unknown,
}

// Written out, so that a caller's proof sees one call where a value is dropped.
impl Drop for Recording {
    fn drop(self) {
        let Recording {
            names: _,
            bytes: _,
            changes: _,
            starts: _,
            samples: _,
            unknown: _,
        } = self;
    }
}

/// What is kept of a recording beside its bytes: the names, the changes of each signal, how many bytes stand before the token
/// with which each sample begins, and how many samples there are.
#[derive(Drop)]
pub struct Parts {
    pub names: Names,
    pub changes: Vec<Changes>,
    pub starts: Vec<u32>,
    pub samples: u32,
}

impl Model for Recording {
    ghost use Rattle.vcd_reader.specs.Rows.{kept_as, IsSound};
    ghost use Rattle.vcd_reader.specs.Sampled.{Sampled};

    ghost Value = { Sampled };

    ghost view = { λ recording. kept_as recording.names recording.bytes recording.samples recording.changes.items recording.starts.items recording.unknown };

    ghost invariant = { λ recording. IsSound recording.names recording.bytes recording.samples recording.changes.items recording.starts.items };
}

impl Recording {
    ghost use Rattle.vcd_reader.specs.Rows.{kept_as, IsSound};

    /// A recording of its parts.
    pub(crate) fn of(bytes: Bytes, parts: Parts, unknown: Unknown) -> Recording
        requires { IsSound parts.names bytes parts.samples parts.changes.items parts.starts.items }
        ensures { result ≡ kept_as parts.names bytes parts.samples parts.changes.items parts.starts.items unknown }
    {
        let Parts {
            names,
            changes,
            starts,
            samples,
        } = parts;
        Recording {
            names,
            bytes,
            changes,
            starts,
            samples,
            unknown,
        }
    }

    /// The names of the signals, in the order of the text. All names of one signal have the same
    /// number of indices.
    pub fn names(&self) -> &Names
        ensures names { result.now ≡ self.now.names }
        ensures alike { AreAlike self.now.names }
    {
        &self.names
    }

    /// How many samples there are, 1,000,000 at most.
    pub fn samples(&self) -> u32
        ensures count { result ≡ length self.now.samples }
        ensures few { result ≤ sample_limit }
    {
        self.samples
    }

    /// Whether an atom holds at a sample, counted from 0: a bit is 1 there, or went from 0 to 1, or
    /// from 1 to 0. At the first sample no bit went anywhere.
    pub fn bit(&self, sample: u32, atom: &Atom) -> bool
        requires sample { sample < length self.now.samples }
        requires atom { AtomInRange self.now.names atom.now }
        ensures { result ≡ atom_at self.now sample atom.now }
    {
        let mut hint = 0;
        self.bit_near(sample, atom, &mut hint)
    }

    /// The same for one who asks of an atom at sample after sample: the hint, which any number may be at
    /// first, becomes the place where the answer was found, and the next call looks there first. The
    /// answer does not depend on it.
    pub fn bit_near(&self, sample: u32, atom: &Atom, hint: &mut usize) -> bool
        requires sample { sample < length self.now.samples }
        requires atom { AtomInRange self.now.names atom.now }
        ensures { result ≡ atom_at self.now sample atom.now }
    {
        match atom.edge {
            Edge::Value => self.is_one(sample, atom.signal, atom.bit, hint),
            Edge::Rise => {
                sample > 0
                    && self.is_one(sample, atom.signal, atom.bit, hint)
                    && !self.is_one(sample - 1, atom.signal, atom.bit, hint)
            }
            Edge::Fall => {
                sample > 0
                    && !self.is_one(sample, atom.signal, atom.bit, hint)
                    && self.is_one(sample - 1, atom.signal, atom.bit, hint)
            }
        }
    }

    /// Whether a bit of a signal, counted from the right, is unknown at a sample, each counted from 0: its letter says neither
    /// 0 nor 1, or the signal was not given a value yet. How unknown bits read does not matter.
    pub fn is_unknown(&self, sample: u32, signal: u32, bit: u32) -> bool
        requires sample { sample < length self.now.samples }
        requires signal { Any (λ name. name.signal ≡ signal) self.now.names }
        ensures { result ≡ unknown_at self.now sample signal bit }
    {
        let mut hint = 0;
        self.is_unknown_near(sample, signal, bit, &mut hint)
    }

    /// The same for one who asks of a bit at sample after sample, with a hint where to look first.
    pub(crate) fn is_unknown_near(
        &self,
        sample: u32,
        signal: u32,
        bit: u32,
        hint: &mut usize,
    ) -> bool
        requires sample { sample < length self.now.samples }
        requires signal { Any (λ name. name.signal ≡ signal) self.now.names }
        ensures { result ≡ unknown_at self.now sample signal bit }
    {
        match self.letter_near(sample, signal, bit, hint) {
            None => true,
            Some(letter) => nothing(letter),
        }
    }

    /// The time of a sample, counted from 0: the number behind `#`, in units of the recording's time scale.
    pub fn time(&self, sample: u32) -> u64
        requires { sample < length self.now.samples }
        ensures { result ≡ time_of_sample self.now sample }
    {
        let start = self.starts[sample as usize] as usize;
        time_behind(self.bytes.as_slice(), start)
    }

    /// The place of the first token that lists the time of a sample, counted from 0. It counts the text up to there.
    pub fn time_place(&self, sample: u32) -> Place
        requires { sample < length self.now.samples }
        ensures { result ≡ place_of_time self.now sample }
    {
        let start = self.starts[sample as usize] as usize;
        place_of(self.bytes.as_slice(), start)
    }

    /// For each sample the line of the first token that lists its time, counted from 1. It counts the text once for all.
    pub fn time_lines(&self, alloc: Global) -> Result<Vec<u32>, NoMemory>
        ensures count { IfOk result (λ lines. length lines.items ≡ length self.now.samples) }
        ensures lines { IfOk result (λ lines. (sample : ℕ) → sample < length self.now.samples → slice_index lines.items sample ≡ (place_of_time self.now sample).line) }
    {
        lines_of(alloc, self.bytes.as_slice(), self.starts.as_slice())
    }

    /// Whether a bit of a signal is 1 at a sample.
    fn is_one(&self, sample: u32, signal: u32, bit: u32, hint: &mut usize) -> bool
        requires sample { sample < length self.now.samples }
        requires signal { Any (λ name. name.signal ≡ signal) self.now.names }
        ensures { result ≡ bit_at self.now sample signal bit }
    {
        match self.letter_near(sample, signal, bit, hint) {
            None => one_under(self.unknown),
            Some(letter) => one(self.unknown, letter),
        }
    }

    /// The letter of a bit of a signal at a sample, none where the signal was not given a value yet.
    fn letter_near(&self, sample: u32, signal: u32, bit: u32, hint: &mut usize) -> Option<u8>
        requires sample { sample < length self.now.samples }
        requires signal { Any (λ name. name.signal ≡ signal) self.now.names }
        ensures { result ≡ letter_in (value_in self.now sample signal) bit }
    {
        let changes = &self.changes[signal as usize];
        match changes.at(sample + 1, hint) {
            None => None,
            Some(change) => Some(letter(letters(self.bytes.as_slice(), change), bit)),
        }
    }
}

/// The lines of places in a text, each by how many bytes stand before it.
fn lines_of(alloc: Global, text: &[u8], starts: &[u32]) -> Result<Vec<u32>, NoMemory>
    requires limit { length text.now ≤ file_limit }
    requires within { All (λ start. start ≤ length text.now) starts.now }
    ensures { IfOk result (λ lines. lines.items ≡ map (line_at text.now) starts.now) }
{
    let mut lines = Vec::new(alloc);
    let mut place = Place { line: 1, column: 1 };
    let mut from = 0;
    for start in starts {
        let to = *start as usize;
        // Samples begin one behind the other, so each byte is counted once.
        place = if from <= to {
            advance(text, from, to, place)
        } else {
            place_of(text, to)
        };
        from = to;
        lines.push(place.line)?;
    }
    Ok(lines)
}

/// The time that is listed behind so many bytes of a text.
fn time_behind(bytes: &[u8], start: usize) -> u64
    requires within { start ≤ length bytes.now }
    requires limit { length bytes.now ≤ file_limit }
    ensures { result ≡ time_at bytes.now start }
{
    let mut cursor = Cursor::new(&bytes[start..]);
    match cursor.next() {
        Some(token) => time_of(token.text()).unwrap_or(0),
        None => 0,
    }
}

/// The letters of a change.
fn letters(bytes: &[u8], change: Change) -> &[u8]
    requires { change.start + change.len ≤ length bytes.now }
    ensures { result.now ≡ letters_in bytes.now change }
{
    let start = change.start as usize;
    &bytes[start..start + change.len as usize]
}

/// The letter of a bit, counted from the right.
fn letter(value: &[u8], bit: u32) -> u8
    requires { 0 < length value.now }
    ensures { result ≡ letter_of value.now bit }
{
    let bit = bit as usize;
    if bit < value.len() {
        value[value.len() - 1 - bit]
    } else {
        before(value[0])
    }
}

/// The letter that stands to the left of a value that begins with this one.
fn before(first: u8) -> u8
    ensures { result ≡ letter_before first }
{
    if first == b'0' || first == b'1' {
        b'0'
    } else {
        first
    }
}

/// Whether a letter reads as 1.
fn one(unknown: Unknown, letter: u8) -> bool
    ensures { result ≡ reads_one unknown letter }
{
    says_one(letter) || (one_under(unknown) && nothing(letter))
}

/// Whether an unknown bit reads as 1.
fn one_under(unknown: Unknown) -> bool
    ensures { result ≡ is_one_under unknown }
{
    match unknown {
        Unknown::Zero | Unknown::Refuse => false,
        Unknown::One => true,
    }
}

/// Whether a letter leaves its bit unknown.
fn nothing(letter: u8) -> bool
    ensures { result ≡ says_nothing letter }
{
    !(says_one(letter) || says_zero(letter))
}

/// Whether a letter says 1.
fn says_one(letter: u8) -> bool
    ensures { result ≡ says_one letter }
{
    letter == b'1' || letter == b'h' || letter == b'H'
}

/// Whether a letter says 0.
fn says_zero(letter: u8) -> bool
    ensures { result ≡ says_zero letter }
{
    letter == b'0' || letter == b'l' || letter == b'L'
}
