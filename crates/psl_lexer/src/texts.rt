ghost use Rattle.std.specs.Prelude.{◌≡◌, ◌+◌, ◌≤◌, ◌<◌, ◌^◌, false, length, IfSome};
ghost use Rattle.psl_lexer.specs.Reading as spec;

use crate::TokenKind;
use crate::bytes::{inline_len, solid_len};
use crate::front::Front;

/// How many bytes of a string stand before the quote that ends it.
fn text_len(behind: &[u8]) -> Option<usize>
    ensures value { result ≡ spec.text_len false behind.now }
    ensures within { IfSome result (λ len. len < length behind.now) }
{
    let mut is_escaped = false;
    for (len, byte) in behind.iter().enumerate() {
        if *byte == b'\n' {
            return None;
        }
        if !is_escaped && *byte == b'"' {
            return Some(len);
        }
        is_escaped = !is_escaped && *byte == b'\\';
    }
    None
}

/// How many bytes of a comment stand before its end and in it.
fn comment_len(behind: &[u8]) -> Option<usize>
    ensures value { result ≡ spec.comment_len false behind.now }
    ensures within { IfSome result (λ len. len ≤ length behind.now) }
{
    let mut is_starred = false;
    for (len, byte) in behind.iter().enumerate() {
        if is_starred && *byte == b'/' {
            return Some(len + 1);
        }
        is_starred = *byte == b'*';
    }
    None
}

/// What stands at the front of a text, where this stands behind its `"`.
pub fn text_front(behind: &[u8]) -> Front
    requires { length behind.now + 2 < 2 ^ 63 }
    ensures { result ≡ spec.text_of_len (spec.text_len false behind.now) }
{
    match text_len(behind) {
        Some(len) => Front::Token(TokenKind::Quoted, len + 2),
        None => Front::Unended,
    }
}

/// What stands at the front of a text, where this stands behind its `\`.
#[tactic(auto, unfolding(crate::specs::Reading::escaped_front))]
pub fn escaped_front(behind: &[u8]) -> Front
    requires { length behind.now + 2 < 2 ^ 63 }
    ensures { result ≡ spec.escaped_front behind.now }
{
    let len = solid_len(behind);
    if len == behind.len() {
        Front::Unended
    } else if len == 0 {
        Front::Bad(0)
    } else {
        Front::Escaped(len + 2)
    }
}

/// What stands at the front of a text, where this stands behind its `/`.
#[tactic(auto, unfolding(crate::specs::Reading::slash_front))]
pub fn slash_front(behind: &[u8]) -> Front
    requires { length behind.now + 2 < 2 ^ 63 }
    ensures { result ≡ spec.slash_front behind.now }
{
    match behind {
        [b'/', inside @ ..] => Front::Skip(inline_len(inside) + 2),
        [b'*', inside @ ..] => match comment_len(inside) {
            Some(len) => Front::Skip(len + 2),
            None => Front::Unended,
        },
        _ => Front::Bad(0),
    }
}
