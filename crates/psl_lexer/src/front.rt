ghost use Rattle.std.specs.Prelude.{◌≡◌, ◌+◌, ◌<◌, ◌^◌, length, map};
ghost use Rattle.psl_lexer.specs.Reading as spec;
ghost use Rattle.psl_lexer.specs.Spellings.{marks};
ghost use Rattle.psl_lexer.specs.Fronts.{IsFront, IsWithin};

use crate::TokenKind;
use crate::bytes::begins_name;
use crate::kind::MARKS;
use crate::numbers::number_front;
use crate::texts::{escaped_front, slash_front, text_front};
use crate::words::word_front;
use psl_base::{is_digit, is_white};

/// What stands at the front of a text, with how many bytes it has.
#[derive(Clone, Copy, Debug)]
pub enum Front {
    /// White space or a comment.
    Skip(usize),
    /// A token that is no escaped name.
    Token(TokenKind, usize),
    /// An escaped name, with the `\` and the white space round the name.
    Escaped(usize),
    /// A bad byte, behind so many bytes.
    Bad(usize),
    /// Something that does not end.
    Unended,
    /// A number or a constant that is too large.
    TooLarge(usize),
}

/// The first row that is spelled at the front of a text.
fn mark_in(rows: &[(&[u8], TokenKind)], rest: &[u8]) -> Front
    ensures { result ≡ spec.mark_in (map (λ row. (row.0.now, row.1)) rows.now) rest.now }
{
    for row in rows {
        if rest.starts_with(row.0) {
            return Front::Token(row.1, row.0.len());
        }
    }
    Front::Bad(0)
}

/// The punctuation that a text begins with.
#[tactic(auto, unfolding(crate::specs::Spellings::marks))]
fn mark_front(rest: &[u8]) -> Front
    ensures { result ≡ spec.mark_in marks rest.now }
{
    mark_in(&MARKS, rest)
}

/// What stands at the front of a text.
#[tactic(auto, unfolding(crate::specs::Reading::front_of))]
fn front_of(rest: &[u8]) -> Front
    requires { length rest.now + 2 < 2 ^ 63 }
    ensures { result ≡ spec.front_of rest.now }
{
    let [byte, behind @ ..] = rest else {
        return Front::Bad(0);
    };
    if is_white(*byte) {
        Front::Skip(1)
    } else if begins_name(*byte) {
        word_front(rest)
    } else if is_digit(*byte) {
        number_front(rest)
    } else if *byte == b'"' {
        text_front(behind)
    } else if *byte == b'\\' {
        escaped_front(behind)
    } else if *byte == b'/' {
        slash_front(behind)
    } else {
        mark_front(rest)
    }
}

/// What stands at the front of a text, of which something is left. No longer token stands there.
pub fn read_front(rest: &[u8]) -> Front
    requires some { 0 < length rest.now }
    requires room { length rest.now + 2 < 2 ^ 63 }
    ensures front { IsFront rest.now result }
    ensures within { IsWithin (length rest.now) result }
{
    front_of(rest)
}
