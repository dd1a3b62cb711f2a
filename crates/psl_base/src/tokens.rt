ghost use Rattle.std.specs.Prelude.{◌≡◌, ◌+◌, ◌<◌, ◌≤◌, ◌∷◌, false, length, drop, slice_range, slice_index, IfSome};
ghost use Rattle.psl_base.specs.Bytes.{is_white as white};
ghost use Rattle.psl_base.specs.Places.{file_limit};
ghost use Rattle.psl_base.specs.Tokens.{all_tokens, tokens_from, token_at, IsNext};

use crate::{Place, is_white, place_of};
use std::marker::Model;

/// A token of a text: bytes between white space. It borrows the whole text, and so knows its place.
#[derive(Drop)]
pub struct Token<'a> {
    whole: &'a [u8],
    start: usize,
    end: usize,
}

impl<'a> Model for Token<'a> {
    ghost use Rattle.std.specs.Prelude.{length, slice_range, ◌≤◌};
    ghost use Rattle.psl_base.specs.Places.{file_limit};
    ghost use Rattle.psl_base.specs.Tokens.{PlacedToken, token_at};

    ghost Value = { PlacedToken };

    ghost view = { λ token. token_at token.whole.now token.start (slice_range token.whole.now token.start token.end) };

    ghost invariant = { λ token. (token.start ≤ token.end) × (token.end ≤ length token.whole.now) × (length token.whole.now ≤ file_limit) };
}

impl<'a> Token<'a> {
    /// The token's bytes.
    #[inline]
    pub fn text(&self) -> &'a [u8]
        ensures { result.now ≡ self.now.text }
    {
        &self.whole[self.start..self.end]
    }

    /// How many bytes of the text stand before it.
    pub fn at(&self) -> usize
        ensures is { result ≡ self.now.at }
        ensures within { result + length self.now.text ≤ file_limit }
    {
        self.start
    }

    /// The place of its first byte. It counts the text up to there.
    pub fn place(&self) -> Place
        ensures { result ≡ self.now.place }
    {
        place_of(self.whole, self.start)
    }
}

/// The tokens that are left of a text. Contracts see them as a list, with the place of the text's end.
#[derive(Drop)]
pub struct Cursor<'a> {
    whole: &'a [u8],
    at: usize,
}

impl<'a> Model for Cursor<'a> {
    ghost use Rattle.std.specs.Prelude.{length, drop, ◌≤◌};
    ghost use Rattle.psl_base.specs.Places.{file_limit};
    ghost use Rattle.psl_base.specs.Tokens.{TokensLeft, left_from};

    ghost Value = { TokensLeft };

    ghost view = { λ cursor. left_from cursor.whole.now cursor.at };

    ghost invariant = { λ cursor. (cursor.at ≤ length cursor.whole.now) × (length cursor.whole.now ≤ file_limit) };
}

impl<'a> Cursor<'a> {
    /// All tokens of a text.
    pub fn new(text: &'a [u8]) -> Cursor<'a>
        requires { length text.now ≤ file_limit }
        ensures all { result ≡ all_tokens text.now }
        ensures few { length result.tokens ≤ file_limit }
    {
        Cursor { whole: text, at: 0 }
    }

    /// How many bytes of the text are left.
    pub fn room(&self) -> usize {
        self.whole.len() - self.at
    }

    /// The place of the text's end. It counts the text.
    pub fn end(&self) -> Place
        ensures { result ≡ self.now.end }
    {
        place_of(self.whole, self.whole.len())
    }

    /// The first of the tokens that are left, which is then left no more.
    #[inline]
    pub fn next(&mut self) -> Option<Token<'a>>
        ensures { IsNext result self.old self.new }
    {
        let start = token_start(self.whole, self.at);
        self.at = start;
        if start == self.whole.len() {
            return None;
        }
        let end = token_end(self.whole, start);
        self.at = end;
        Some(Token {
            whole: self.whole,
            start,
            end,
        })
    }
}

/// Where the next token begins, or the text's end.
fn token_start(text: &[u8], from: usize) -> usize
    requires { from ≤ length text.now }
    ensures within { result ≤ length text.now }
    ensures begins { result < length text.now → white (slice_index text.now result) ≡ false }
    ensures same { tokens_from text.now from (drop from text.now) ≡ tokens_from text.now result (drop result text.now) }
{
    let mut at = from;
    while at < text.len() && is_white(text[at]) {
        at += 1;
    }
    at
}

/// Where the token that begins here ends.
fn token_end(text: &[u8], start: usize) -> usize
    requires within { start < length text.now }
    requires begins { white (slice_index text.now start) ≡ false }
    ensures within { result ≤ length text.now }
    ensures after { start < result }
    ensures first { tokens_from text.now start (drop start text.now) ≡ token_at text.now start (slice_range text.now start result) ∷ tokens_from text.now result (drop result text.now) }
{
    let mut at = start + 1;
    while at < text.len() && !is_white(text[at]) {
        at += 1;
    }
    at
}
