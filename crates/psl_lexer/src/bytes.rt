ghost use Rattle.std.specs.Prelude.{◌≡◌, ◌≤◌, length, IfSome};
ghost use Rattle.std.specs.List.{prefix_len};
ghost use Rattle.psl_lexer.specs.Bytes as spec;

use psl_base::{is_digit, is_white};

/// Whether a name may begin with a byte.
#[tactic(auto, unfolding(crate::specs::Bytes::begins_name))]
pub fn begins_name(byte: u8) -> bool
    ensures { result ≡ spec.begins_name byte }
{
    byte.is_ascii_alphabetic() || byte == b'_'
}

/// Whether a name may go on with a byte.
#[tactic(auto, unfolding(crate::specs::Bytes::continues_name))]
pub fn continues_name(byte: u8) -> bool
    ensures { result ≡ spec.continues_name byte }
{
    begins_name(byte) || is_digit(byte) || byte == b'$'
}

/// The base that a letter names.
#[tactic(auto, unfolding(crate::specs::Bytes::base_of))]
pub fn base_of(letter: u8) -> Option<u8>
    ensures base { result ≡ spec.base_of letter }
    ensures large { IfSome result (λ base. 2 ≤ base) }
{
    match letter {
        b'b' | b'B' => Some(2),
        b'o' | b'O' => Some(8),
        b'd' | b'D' => Some(10),
        b'h' | b'H' => Some(16),
        _ => None,
    }
}

/// The value of a digit of any base, and 16 where a byte is a digit of none.
#[tactic(auto, unfolding(crate::specs::Bytes::digit_of))]
pub fn digit_of(byte: u8) -> u8
    ensures { result ≡ spec.digit_of byte }
{
    match byte {
        b'0'..=b'9' => byte - b'0',
        b'A'..=b'F' => byte - b'A' + 10,
        b'a'..=b'f' => byte - b'a' + 10,
        _ => 16,
    }
}

/// Whether a byte is a digit of a base.
#[tactic(auto, unfolding(crate::specs::Bytes::is_digit_of))]
pub fn is_digit_of(base: u8, byte: u8) -> bool
    ensures { result ≡ spec.is_digit_of base byte }
{
    digit_of(byte) < base
}

/// Whether a number may go on with a byte.
#[tactic(auto, unfolding(crate::specs::Bytes::continues_number))]
pub fn continues_number(byte: u8) -> bool
    ensures { result ≡ spec.continues_number byte }
{
    is_digit(byte) || byte == b'_'
}

/// Whether a constant of a base may go on with a byte.
#[tactic(auto, unfolding(crate::specs::Bytes::continues_digits))]
pub fn continues_digits(base: u8, byte: u8) -> bool
    ensures { result ≡ spec.continues_digits base byte }
{
    is_digit_of(base, byte) || byte == b'_'
}

/// Whether a byte is no white space.
#[tactic(auto, unfolding(crate::specs::Bytes::is_solid))]
pub fn is_solid(byte: u8) -> bool
    ensures { result ≡ spec.is_solid byte }
{
    !is_white(byte)
}

/// Whether a byte ends no line.
#[tactic(auto, unfolding(crate::specs::Bytes::is_inline))]
pub fn is_inline(byte: u8) -> bool
    ensures { result ≡ spec.is_inline byte }
{
    byte != b'\n'
}

/// How many bytes of a name a text begins with.
pub fn name_len(text: &[u8]) -> usize
    ensures value { result ≡ prefix_len spec.continues_name text.now }
    ensures within { result ≤ length text.now }
{
    text.iter()
        .take_while(|byte| continues_name(**byte))
        .count()
}

/// How many bytes of a number a text begins with.
pub fn number_len(text: &[u8]) -> usize
    ensures value { result ≡ prefix_len spec.continues_number text.now }
    ensures within { result ≤ length text.now }
{
    text.iter()
        .take_while(|byte| continues_number(**byte))
        .count()
}

/// How many bytes of digits of a base a text begins with.
pub fn digits_len(base: u8, text: &[u8]) -> usize
    ensures value { result ≡ prefix_len (spec.continues_digits base) text.now }
    ensures within { result ≤ length text.now }
{
    text.iter()
        .take_while(|byte| continues_digits(base, **byte))
        .count()
}

/// How many bytes other than white space a text begins with.
pub fn solid_len(text: &[u8]) -> usize
    ensures value { result ≡ prefix_len spec.is_solid text.now }
    ensures within { result ≤ length text.now }
{
    text.iter().take_while(|byte| is_solid(**byte)).count()
}

/// How many bytes of one line a text begins with.
pub fn inline_len(text: &[u8]) -> usize
    ensures value { result ≡ prefix_len spec.is_inline text.now }
    ensures within { result ≤ length text.now }
{
    text.iter().take_while(|byte| is_inline(**byte)).count()
}
