ghost use Rattle.std.specs.Prelude.{◌≡◌, ◌+◌, ◌-◌, ◌<◌, ◌≤◌, ◌==◌, length, take, Some, None, IfSome};
ghost use Rattle.std.specs.List.{position_from};
ghost use Rattle.std.specs.Option.{option_map};
ghost use Rattle.psl_base.specs.Decimals.{decimal_upto};
ghost use Rattle.psl_tree.specs.Ranges as ranges;
ghost use Rattle.vcd_reader.specs.Ranges.{last_bracket, indices_of, index_before_end, range_at_end, reference_of, index_most};

use psl_base::decimal;

/// The highest index of a bit.
const MOST_INDEX: u64 = 2_147_483_647;

/// A range of indices, from the leftmost bit to the rightmost one.
#[derive(Clone, Copy)]
pub struct Range {
    pub left: u32,
    pub right: u32,
}

/// How many bytes of a reference are its text, and its range. The signal has so many bits.
#[tactic(auto, using(std::proofs::lemmas::List::take_all))]
pub fn reference(text: &[u8], size: u32) -> (usize, Range)
    requires { 0 < size }
    ensures within { result.0 ≤ length text.now }
    ensures is { reference_of text.now size ≡ record { text = take result.0 text.now; left = result.1.left; right = result.1.right } }
{
    let whole = Range {
        left: size - 1,
        right: 0,
    };
    let Some(at) = last_bracket(text) else {
        return (text.len(), whole);
    };
    let Some(range) = indices(&text[at + 1..]) else {
        return (text.len(), whole);
    };
    if index_count(range) == size {
        (at, range)
    } else {
        (text.len(), whole)
    }
}

/// How many indices a range has.
fn index_count(range: Range) -> u32
    requires left { range.left ≤ index_most }
    requires right { range.right ≤ index_most }
    ensures { result ≡ ranges.index_count range.left range.right }
{
    if range.left < range.right {
        range.right - range.left + 1
    } else {
        range.left - range.right + 1
    }
}

/// The place of the last `[` of a text.
fn last_bracket(text: &[u8]) -> Option<usize>
    ensures is { result ≡ last_bracket None 0 text.now }
    ensures within { IfSome result (λ at. at < length text.now) }
{
    let mut last = None;
    for (at, byte) in text.iter().enumerate() {
        if *byte == b'[' {
            last = Some(at);
        }
    }
    last
}

/// The indices before and behind `:`, the second one before `]`, which is the last byte.
fn indices(text: &[u8]) -> Option<Range>
    ensures is { option_map (λ range. (range.left, range.right)) result ≡ indices_of text.now }
    ensures left { IfSome result (λ range. range.left ≤ index_most) }
    ensures right { IfSome result (λ range. range.right ≤ index_most) }
{
    let colon = colon(text)?;
    let left = index(&text[..colon])?;
    let right = index_before_end(&text[colon + 1..])?;
    Some(Range { left, right })
}

/// The place of the first `:`.
fn colon(text: &[u8]) -> Option<usize>
    ensures is { result ≡ position_from (λ byte. byte == 58) 0 text.now }
    ensures within { IfSome result (λ at. at < length text.now) }
{
    text.iter().position(|byte| *byte == b':')
}

/// The index before `]`, where that is the last byte.
fn index_before_end(text: &[u8]) -> Option<u32>
    ensures is { result ≡ index_before_end text.now }
    ensures within { IfSome result (λ index. index ≤ index_most) }
{
    if text.is_empty() {
        return None;
    }
    let last = text.len() - 1;
    if text[last] != b']' {
        return None;
    }
    index(&text[..last])
}

/// An index in decimal digits.
fn index(text: &[u8]) -> Option<u32>
    ensures is { result ≡ decimal_upto index_most text.now }
    ensures within { IfSome result (λ index. index ≤ index_most) }
{
    let index = decimal(MOST_INDEX, text)?;
    Some(index as u32)
}
