ghost use Rattle.std.specs.Prelude.{◌≡◌, ◌+◌, ◌-◌, ◌*◌, ◌≤◌, nat_le, true, IfSome, if◌then◌else◌};
ghost use Rattle.psl_base.specs.Bytes.{is_digit as digit};
ghost use Rattle.psl_base.specs.Decimals.{decimal_upto, plain_upto};

use crate::is_digit;

/// The number that a text says in decimal digits, of which there may be any number, where it is at most
/// so large.
pub fn decimal(most: u64, text: &[u8]) -> Option<u64>
    ensures is { result ≡ decimal_upto most text.now }
    ensures within { IfSome result (λ number. number ≤ most) }
{
    if text.is_empty() {
        return None;
    }
    let mut number: u64 = 0;
    for byte in text {
        if !is_digit(*byte) {
            return None;
        }
        let Some(larger) = with_digit(most, number, *byte) else {
            return None;
        };
        number = larger;
    }
    Some(number)
}

/// The same of a number without leading zeros: `0` alone begins with that digit.
pub fn plain_decimal(most: u64, text: &[u8]) -> Option<u64>
    ensures is { result ≡ plain_upto most text.now }
    ensures within { IfSome result (λ number. number ≤ most) }
{
    match text {
        [b'0', _, ..] => None,
        _ => decimal(most, text),
    }
}

/// A number with a digit more at its end, where that is at most so large.
fn with_digit(most: u64, number: u64, byte: u8) -> Option<u64>
    requires { digit byte ≡ true }
    ensures { result ≡ (if nat_le (number * 10 + (byte - 48)) most then Some (number * 10 + (byte - 48)) else None) }
{
    let larger = number.checked_mul(10)?.checked_add(u64::from(byte - b'0'))?;
    if larger <= most { Some(larger) } else { None }
}
