ghost use Rattle.std.specs.Prelude.{◌≡◌, ◌<◌, ◌==◌, ◌||◌, ◌++◌, length, None, IfSome, OnOk};
ghost use Rattle.std.specs.List.{list_all, position_from};
ghost use Rattle.std.specs.Str.{bytes_eq};
ghost use Rattle.psl_base.specs.Bytes.{is_digit};
ghost use Rattle.psl_base.specs.Decimals.{are_digits};
ghost use Rattle.vcd_reader.specs.Ranges.{last_bracket};
ghost use Rattle.vcd_reader.specs.Shapes.{is_end};
ghost use Rattle.trace.specs.Printed.{are_one_number, before_end, ends_in_one_index, is_one_index, printed, significant};

use psl_base::{NoMemory, add_bytes, is_digit};

/// Adds a name, with `_` behind it where it would not be read as the name of a signal of one bit.
pub(crate) fn add_printed(text: &mut Vec<u8>, name: &[u8]) -> Result<(), NoMemory>
    ensures { OnOk result (text.new.items ≡ text.old.items ++ printed name.now) }
{
    add_bytes(text, name)?;
    if is_marked(name) {
        add_bytes(text, b"_")?;
    }
    Ok(())
}

/// How many bytes a name has so.
pub(crate) fn printed_length(name: &[u8]) -> u64
    ensures { result ≡ length (printed name.now) }
{
    let length = name.len() as u64;
    if is_marked(name) { length + 1 } else { length }
}

/// Whether a name is printed with `_` behind it: it is `$end`, or ends in a range of one index.
fn is_marked(name: &[u8]) -> bool
    ensures { result ≡ (is_end name.now || ends_in_one_index name.now) }
{
    is_end(name) || ends_in_one_index(name)
}

fn is_end(name: &[u8]) -> bool
    ensures { result ≡ is_end name.now }
{
    name == "$end".as_bytes()
}

/// Whether a name ends in `[m:l]`, where `m` and `l` are decimal numbers and equal.
fn ends_in_one_index(name: &[u8]) -> bool
    ensures { result ≡ ends_in_one_index name.now }
{
    match last_bracket(name) {
        Some(at) => is_one_index(&name[at + 1..]),
        None => false,
    }
}

/// The place of the last `[` of a text.
fn last_bracket(text: &[u8]) -> Option<usize>
    ensures is { result ≡ last_bracket None 0 text.now }
    ensures within { IfSome result (λ at. at < length text.now) }
{
    let mut last = None;
    for (at, byte) in text.iter().enumerate() {
        if *byte == b'[' {
            last = Some(at);
        }
    }
    last
}

/// Whether a text is `m:l]`, where `m` and `l` are decimal numbers and equal.
fn is_one_index(text: &[u8]) -> bool
    ensures { result ≡ is_one_index text.now (position_from (λ byte. byte == 58) 0 text.now) }
{
    match colon(text) {
        Some(at) => are_one_number(&text[..at], before_end(&text[at + 1..])),
        None => false,
    }
}

/// The place of the first `:`.
fn colon(text: &[u8]) -> Option<usize>
    ensures is { result ≡ position_from (λ byte. byte == 58) 0 text.now }
    ensures within { IfSome result (λ at. at < length text.now) }
{
    text.iter().position(|byte| *byte == b':')
}

/// What stands before a `]`, where that is the last byte; else nothing.
fn before_end(text: &[u8]) -> &[u8]
    ensures { result.now ≡ before_end text.now }
{
    match text {
        [before @ .., b']'] => before,
        _ => &[],
    }
}

/// Whether two texts are decimal numbers, and equal.
fn are_one_number(left: &[u8], right: &[u8]) -> bool
    ensures { result ≡ are_one_number left.now right.now }
{
    are_digits(left) && are_digits(right) && same(significant(left), significant(right))
}

fn same(left: &[u8], right: &[u8]) -> bool
    ensures { result ≡ bytes_eq left.now right.now }
{
    left == right
}

/// Whether a text has bytes, and each is a decimal digit.
#[tactic(auto, using(crate::proofs::SomeDigits::some_digits))]
fn are_digits(text: &[u8]) -> bool
    ensures { result ≡ are_digits text.now }
{
    if text.is_empty() {
        return false;
    }
    all_digits(text)
}

fn all_digits(text: &[u8]) -> bool
    ensures { result ≡ list_all is_digit text.now }
{
    text.iter().all(|byte| is_digit(*byte))
}

/// Digits without the zeros that lead.
fn significant(digits: &[u8]) -> &[u8]
    ensures { result.now ≡ significant digits.now }
{
    let mut rest = digits;
    while let [b'0', others @ ..] = rest {
        rest = others;
    }
    rest
}
