// The words of a text, without its comments.
ghost use Rattle.std.specs.Prelude.{◌≡◌, ◌≤◌, length, reverse, take};
ghost use Rattle.psl_base.specs.Places.{file_limit};
ghost use Rattle.psl_base.specs.Tokens.{IsNext};
ghost use Rattle.sat_dimacs.specs.Words as spec;

use psl_base::{Cursor, Place, Token, is_white};
use std::marker::Model;

/// What a token is.
#[derive(Clone, Copy, Debug, PartialEq, Eq, Drop)]
pub(crate) enum Part {
    Word,
    /// It stands in a comment.
    Comment,
    /// It and what stands behind it do not count.
    End,
}

/// The words that are left of a text. Contracts see them as tokens that are left.
#[derive(Drop)]
pub(crate) struct Words<'a> {
    text: &'a [u8],
    cursor: Cursor<'a>,
    // The last token stands in a comment.
    comment: bool,
    // The token that ends the words has come.
    ended: bool,
}

impl<'a> Model for Words<'a> {
    ghost use Rattle.psl_base.specs.Tokens.{TokensLeft};
    ghost use Rattle.sat_dimacs.specs.Words.{left_words};

    ghost Value = { TokensLeft };

    ghost view = { λ words. left_words words.text.now words.cursor words.comment words.ended };
}

impl<'a> Words<'a> {
    /// All words of a text.
    pub(crate) fn new(text: &'a [u8]) -> Words<'a>
        requires { length text.now ≤ file_limit }
        ensures { result ≡ spec.all_words text.now }
    {
        Words {
            text,
            cursor: Cursor::new(text),
            comment: false,
            ended: false,
        }
    }

    /// The place of the text's end. It counts the text.
    pub(crate) fn end(&self) -> Place
        ensures { result ≡ self.now.end }
    {
        self.cursor.end()
    }

    /// The first of the words that are left, which is then left no more.
    pub(crate) fn next(&mut self) -> Option<Token<'a>>
        ensures { IsNext result self.old self.new }
    {
        if self.ended {
            return None;
        }
        while let Some(token) = self.cursor.next() {
            match part_of(self.text, self.comment, &token) {
                Part::Word => {
                    self.comment = false;
                    return Some(token);
                }
                Part::Comment => self.comment = true,
                Part::End => {
                    self.ended = true;
                    return None;
                }
            }
        }
        None
    }
}

/// What a token of a text is, by whether the token before it stands in a comment.
fn part_of(text: &[u8], comment: bool, token: &Token<'_>) -> Part
    ensures { result ≡ spec.part_of text.now comment token.now }
{
    let first = first_part(token.text());
    // Most tokens are words wherever they stand.
    if !comment && first == Part::Word {
        return Part::Word;
    }
    if begins_line(text, token.at()) {
        first
    } else {
        other_part(comment)
    }
}

/// What the first token of a line is.
fn first_part(token: &[u8]) -> Part
    ensures { result ≡ spec.first_part token.now }
{
    match token {
        [b'c', ..] => Part::Comment,
        [b'%', ..] => Part::End,
        _ => Part::Word,
    }
}

/// What a token is that is not the first of its line, by whether the one before it stands in a comment.
fn other_part(comment: bool) -> Part
    ensures { result ≡ spec.other_part comment }
{
    if comment { Part::Comment } else { Part::Word }
}

/// Whether only white space stands between the beginning of a line and a place.
fn begins_line(text: &[u8], at: usize) -> bool
    ensures { result ≡ spec.begins_line (reverse (take at text.now)) }
{
    let mut place = at.min(text.len());
    while place > 0 {
        let byte = text[place - 1];
        if byte == b'\n' {
            return true;
        }
        if !is_white(byte) {
            return false;
        }
        place -= 1;
    }
    true
}
