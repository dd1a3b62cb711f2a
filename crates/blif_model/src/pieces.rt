ghost use Rattle.std.specs.Prelude.{◌≡◌, ◌+◌, ◌<◌, ◌≤◌, ◌∷◌, false, true, length, drop, slice_range, slice_index, All, IfOk};
ghost use Rattle.psl_base.specs.Places.{file_limit};
ghost use Rattle.psl_base.specs.Tokens.{token_at};
ghost use Rattle.blif_model.specs.Pieces.{class_of, is_part as part, pieces, pieces_from, Word};
ghost use Rattle.blif_model.specs.Scanning.{IsFoundWithin, IsNext, IsPieceStart, IsTaken, IsTakenWithin, IsWithin};
ghost use Rattle.blif_model.specs.declared.class.Class.{Class};

use crate::class::{Class, class_at};
use psl_base::NoMemory;
use std::marker::Model;

/// A word of a text: how many bytes stand before it, and how many it has.
#[derive(Clone, Copy, Debug)]
pub struct Span {
    pub at: u32,
    pub len: u32,
}

/// The first of the pieces that are left of a text.
#[derive(Clone, Copy, Debug)]
pub enum Found {
    /// A word.
    Word(Span),
    /// The end of a line.
    LineEnd,
    /// A backslash behind which the text ends, before which so many bytes stand.
    Backslash(u32),
    /// The end of the text.
    Nothing,
}

/// What the next line is.
#[derive(Clone, Copy, Debug)]
pub enum Taken {
    /// A line with words.
    Line,
    /// The last line, with words or without, and a backslash behind which the text ends, before which so many bytes
    /// stand.
    Stray(u32),
    /// There is none.
    Nothing,
}

/// The pieces that are left of a text. Contracts see them as a list, beside the whole text.
#[derive(Drop)]
pub struct Pieces<'a> {
    whole: &'a [u8],
    at: usize,
}

impl<'a> Model for Pieces<'a> {
    ghost use Rattle.std.specs.Prelude.{length, ◌≤◌};
    ghost use Rattle.psl_base.specs.Places.{file_limit};
    ghost use Rattle.blif_model.specs.Scanning.{PiecesLeft, left_at};

    ghost Value = { PiecesLeft };

    ghost view = { λ left. left_at left.whole.now left.at };

    ghost invariant = { λ left. (left.at ≤ length left.whole.now) × (length left.whole.now ≤ file_limit) };
}

impl<'a> Pieces<'a> {
    /// All pieces of a text.
    pub fn new(text: &'a [u8]) -> Pieces<'a>
        requires { length text.now ≤ file_limit }
        ensures whole { result.whole ≡ text.now }
        ensures pieces { result.pieces ≡ pieces text.now }
    {
        Pieces { whole: text, at: 0 }
    }

    /// The first of the pieces that are left, which is then left no more.
    #[inline]
    pub fn next(&mut self) -> Found
        ensures whole { self.new.whole ≡ self.old.whole }
        ensures next { IsNext result self.old.whole self.old.pieces self.new.pieces }
        ensures within { IsFoundWithin self.old.whole result }
    {
        let start = piece_start(self.whole, self.at);
        if start == self.whole.len() {
            self.at = start;
            return Found::Nothing;
        }
        match class_at(self.whole, start) {
            Class::LineFeed => {
                self.at = start + 1;
                Found::LineEnd
            }
            Class::Stray => {
                self.at = self.whole.len();
                Found::Backslash(start as u32)
            }
            Class::White | Class::Comment | Class::Join | Class::Part => {
                let end = word_end(self.whole, start);
                self.at = end;
                Found::Word(Span {
                    at: start as u32,
                    len: (end - start) as u32,
                })
            }
        }
    }
}

impl<'a> Pieces<'a> {
    /// Takes the next line that has words, or a backslash that joins nothing: its words come into a list, in place of
    /// what was there.
    pub fn next_line(&mut self, words: &mut Vec<Span>) -> Result<Taken, NoMemory>
        ensures whole { self.new.whole ≡ self.old.whole }
        ensures taken { IfOk result (λ taken. IsTaken taken self.old.whole words.new.items self.old.pieces self.new.pieces) }
        ensures within { IfOk result (λ _. All (IsWithin self.old.whole) words.new.items) }
        ensures stray { IfOk result (IsTakenWithin self.old.whole) }
        ensures fewer { length self.new.pieces ≤ length self.old.pieces }
    {
        words.clear();
        loop {
            match self.next() {
                Found::Word(span) => words.push(span)?,
                Found::LineEnd => {
                    if !words.is_empty() {
                        return Ok(Taken::Line);
                    }
                }
                Found::Backslash(at) => return Ok(Taken::Stray(at)),
                Found::Nothing => {
                    if words.is_empty() {
                        return Ok(Taken::Nothing);
                    }
                    return Ok(Taken::Line);
                }
            }
        }
    }
}

/// Where the next piece begins, or the text's end: behind white space, comments and joined ends of lines.
fn piece_start(text: &[u8], from: usize) -> usize
    requires { from ≤ length text.now }
    ensures within { result ≤ length text.now }
    ensures begins { result < length text.now → IsPieceStart (class_of (slice_index text.now result) (drop (result + 1) text.now)) }
    ensures same { pieces_from text.now from false (drop from text.now) ≡ pieces_from text.now result false (drop result text.now) }
{
    let mut at = from;
    while at < text.len() {
        match class_at(text, at) {
            Class::White => at += 1,
            Class::Comment => at = comment_end(text, at + 1),
            Class::Join => at += 2,
            Class::LineFeed | Class::Stray | Class::Part => return at,
        }
    }
    at
}

/// Where a comment ends: at the end of its line, or at the text's.
fn comment_end(text: &[u8], from: usize) -> usize
    requires { from ≤ length text.now }
    ensures within { result ≤ length text.now }
    ensures after { from ≤ result }
    ensures same { pieces_from text.now from true (drop from text.now) ≡ pieces_from text.now result false (drop result text.now) }
{
    let mut at = from;
    while at < text.len() && text[at] != b'\n' {
        at += 1;
    }
    at
}

/// Where the word that begins here ends.
fn word_end(text: &[u8], start: usize) -> usize
    requires within { start < length text.now }
    requires begins { class_of (slice_index text.now start) (drop (start + 1) text.now) ≡ Class.Part }
    ensures within { result ≤ length text.now }
    ensures after { start < result }
    ensures first { pieces_from text.now start false (drop start text.now) ≡ Word (token_at text.now start (slice_range text.now start result)) ∷ pieces_from text.now result false (drop result text.now) }
{
    let mut at = start + 1;
    while at < text.len() && is_part(text, at) {
        at += 1;
    }
    at
}

/// Whether the byte at a place is a part of a word.
fn is_part(text: &[u8], at: usize) -> bool
    requires { at < length text.now }
    ensures { result ≡ part (class_of (slice_index text.now at) (drop (at + 1) text.now)) }
{
    match class_at(text, at) {
        Class::Part => true,
        Class::LineFeed | Class::White | Class::Comment | Class::Join | Class::Stray => false,
    }
}
