ghost use Rattle.std.specs.Prelude.{◌≡◌, ◌+◌, ◌≤◌, ◌<◌, ◌^◌, length, IfSome};
ghost use Rattle.psl_lexer.specs.Reading as spec;
ghost use Rattle.psl_lexer.specs.Values as spec_values;

use crate::TokenKind;
use crate::bytes::{base_of, digits_len, is_digit_of, number_len};
use crate::front::Front;
use crate::values::{is_past_size, value_of};

/// Whether a constant is too large for its size.
#[tactic(auto, unfolding(crate::specs::Values::is_past_size))]
fn is_too_large(base: u8, size: &[u8], digits: &[u8]) -> bool
    requires { 1 ≤ base }
    ensures { result ≡
        spec_values.is_past_size (spec_values.value_of 10 size.now) (spec_values.value_of base digits.now) }
{
    let Some(size) = value_of(10, size) else {
        return true;
    };
    if size > 64 {
        return true;
    }
    match value_of(base, digits) {
        Some(value) => is_past_size(size, value),
        None => true,
    }
}

/// What a constant of a base is, where these are its digits and what follows.
#[tactic(auto, unfolding(crate::specs::Reading::digits_front))]
fn digits_front(base: u8, size: &[u8], rest: &[u8]) -> Front
    requires base { 1 ≤ base }
    requires room { length size.now + length rest.now + 2 < 2 ^ 63 }
    ensures { result ≡ spec.digits_front base size.now rest.now }
{
    let [digit, ..] = rest else {
        return Front::Unended;
    };
    if !is_digit_of(base, *digit) {
        return Front::Bad(size.len() + 2);
    }
    let len = digits_len(base, rest);
    if is_too_large(base, size, &rest[..len]) {
        return Front::TooLarge(size.len() + 2 + len);
    }
    Front::Token(TokenKind::Constant, size.len() + 2 + len)
}

/// What a constant is, where this stands behind its `'`.
#[tactic(auto, unfolding(crate::specs::Reading::constant_front))]
fn constant_front(size: &[u8], rest: &[u8]) -> Front
    requires { length size.now + length rest.now + 2 < 2 ^ 63 }
    ensures { result ≡ spec.constant_front size.now rest.now }
{
    let [letter, digits @ ..] = rest else {
        return Front::Unended;
    };
    match base_of(*letter) {
        Some(base) => digits_front(base, size, digits),
        None => Front::Bad(size.len() + 1),
    }
}

/// What stands at the front of a text that begins with a digit.
#[tactic(auto, unfolding(crate::specs::Reading::number_front, crate::specs::Reading::number_before))]
pub fn number_front(rest: &[u8]) -> Front
    requires { length rest.now + 2 < 2 ^ 63 }
    ensures { result ≡ spec.number_front rest.now }
{
    let (digits, after) = rest.split_at(number_len(rest));
    if let [b'\'', constant @ ..] = after {
        return constant_front(digits, constant);
    }
    match value_of(10, digits) {
        Some(_) => Front::Token(TokenKind::Number, digits.len()),
        None => Front::TooLarge(digits.len()),
    }
}
