// What numbers and constants say.
ghost use Rattle.std.specs.Prelude.{◌≡◌, ◌≤◌, ◌<◌, ◌==◌, length, position, IfSome};
ghost use Rattle.psl_layer_theory.specs.Texts as spec;
ghost use Rattle.psl_lexer.specs.Values.{value_of as value_of_digits};

use psl_lexer::{Token, TokenKind, base_of, value_of};

/// What a number says; it stays at 2^64 - 1 once it is there.
pub fn number_of(token: &Token) -> u64
    ensures { result ≡ spec.number_of token.now }
{
    sayable(10, token.text.as_slice())
}

// What digits of a base say; it stays at 2^64 - 1 once it is there.
fn sayable(base: u8, digits: &[u8]) -> u64
    requires { 1 ≤ base }
    ensures { result ≡ spec.sayable (value_of_digits base digits.now) }
{
    match value_of(base, digits) {
        Some(value) => value,
        None => u64::MAX,
    }
}

// What the letter of a base and digits say.
fn based_value(behind: &[u8]) -> u64
    ensures { result ≡ spec.based_value behind.now }
{
    match behind {
        [letter, digits @ ..] => match base_of(*letter) {
            Some(base) => sayable(base, digits),
            None => sayable(10, digits),
        },
        [] => 0,
    }
}

// How many bytes of a constant stand before its `'`.
fn quote_at(text: &[u8]) -> Option<usize>
    ensures place { result ≡ position (λ byte. byte == 39) text.now }
    ensures within { IfSome result (λ place. place < length text.now) }
{
    text.iter().position(|byte| *byte == b'\'')
}

// What a constant says.
fn constant_of(text: &[u8]) -> u64
    ensures { result ≡ spec.constant_of text.now }
{
    match quote_at(text) {
        Some(place) => based_value(&text[place + 1..]),
        None => 0,
    }
}

/// The value of a number or a constant; it stays at 2^64 - 1 once it is there.
pub fn literal_value(token: &Token) -> u64
    ensures { result ≡ spec.literal_value token.now }
{
    match token.kind {
        TokenKind::Constant => constant_of(token.text.as_slice()),
        _ => number_of(token),
    }
}
