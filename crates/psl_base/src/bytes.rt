ghost use Rattle.std.specs.Prelude.{◌≡◌};
ghost use Rattle.psl_base.specs.Bytes as spec;

/// Whether a byte is white space: a tab, a line's end, a form feed or a blank.
pub fn is_white(byte: u8) -> bool
    ensures { result ≡ spec.is_white byte }
{
    matches!(byte, 9..=13 | b' ')
}

/// Whether a byte is a decimal digit.
pub fn is_digit(byte: u8) -> bool
    ensures { result ≡ spec.is_digit byte }
{
    matches!(byte, b'0'..=b'9')
}
