// Names as texts with indices behind them.
ghost use Rattle.std.specs.Option.{option_map};
ghost use Rattle.std.specs.Prelude.{◌≡◌, ◌<◌, ◌≤◌, length, Some, None, IfSome};
ghost use Rattle.psl_layer_theory.specs.Buses as spec;
ghost use Rattle.psl_names.specs.Ranges.{indexed_in};

use psl_base::plain_decimal;

/// The highest index of a bit, as in recordings.
const MOST_INDEX: u64 = 2_147_483_647;

/// A text, and the index of a bit in square brackets behind it.
#[derive(Clone, Copy)]
pub struct Indexed<'a> {
    pub text: &'a [u8],
    pub index: u32,
}

/// A name as a text with an index behind it, if it is one: the index stands in the last square brackets, at the end of the
/// name, in decimal digits without a leading zero, and is at most 2,147,483,647.
pub fn split_index(name: &[u8]) -> Option<Indexed>
    ensures { option_map indexed_in result ≡ spec.indexed name.now }
{
    let at = last_bracket(name)?;
    let index = index_before_end(&name[at + 1..])?;
    Some(Indexed {
        text: &name[..at],
        index,
    })
}

// The place of the last `[` of a text.
fn last_bracket(text: &[u8]) -> Option<usize>
    ensures is { result ≡ spec.last_bracket None 0 text.now }
    ensures within { IfSome result (λ at. at < length text.now) }
{
    let mut last = None;
    for (at, byte) in text.iter().enumerate() {
        if *byte == b'[' {
            last = Some(at);
        }
    }
    last
}

// The index before `]`, where that is the last byte.
fn index_before_end(text: &[u8]) -> Option<u32>
    ensures { result ≡ spec.index_before_end text.now }
{
    if text.is_empty() {
        return None;
    }
    let last = text.len() - 1;
    if text[last] != b']' {
        return None;
    }
    let index = plain_decimal(MOST_INDEX, &text[..last])?;
    Some(index as u32)
}
