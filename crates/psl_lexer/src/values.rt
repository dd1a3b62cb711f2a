ghost use Rattle.std.specs.Prelude.{◌≡◌, ◌+◌, ◌*◌, ◌<◌, ◌≤◌, ◌^◌, nat_lt, IfSome, IfNone, if◌then◌else◌};
ghost use Rattle.psl_lexer.specs.Values as spec;

use crate::bytes::digit_of;

/// The number that digits of a base say, where it is below 2^64.
pub fn value_of(base: u8, bytes: &[u8]) -> Option<u64>
    requires { 1 ≤ base }
    ensures within { IfSome result (λ value. (value ≡ spec.value_of base bytes.now) × (value < 2 ^ 64)) }
    ensures past { IfNone result (2 ^ 64 ≤ spec.value_of base bytes.now) }
{
    let mut value: u64 = 0;
    for byte in bytes {
        let Some(larger) = with_digit(base, value, *byte) else {
            return None;
        };
        value = larger;
    }
    Some(value)
}

/// A number with one more digit of a base at its end, where that is below 2^64.
fn with_digit(base: u8, number: u64, byte: u8) -> Option<u64>
    ensures within { IfSome result (λ value. (value ≡ spec.with_digit base number byte) × (value < 2 ^ 64)) }
    ensures past { IfNone result (2 ^ 64 ≤ spec.with_digit base number byte) }
{
    if byte == b'_' {
        return Some(number);
    }
    number
        .checked_mul(u64::from(base))?
        .checked_add(u64::from(digit_of(byte)))
}

/// Whether a constant's size is 0 or past 64, or its value needs more bits than its size.
#[tactic(auto, unfolding(crate::specs::Values::is_past_size))]
pub fn is_past_size(size: u64, value: u64) -> bool
    ensures { result ≡ spec.is_past_size size value }
{
    size == 0 || size > 64 || u128::from(value) >= 1u128 << size
}
