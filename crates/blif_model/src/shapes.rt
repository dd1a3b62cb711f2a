ghost use Rattle.std.specs.Prelude.{◌≡◌, ◌+◌, ◌≤◌, ◌<◌, length, map, All, is_none, not, IfSome};
ghost use Rattle.std.specs.List.{list_all};
ghost use Rattle.std.specs.Option.{option_map};
ghost use Rattle.blif_model.specs.Scanning.{IsWithin, word_of};
ghost use Rattle.blif_model.specs.Shapes.{are_marks, init_of, is_bit, is_edge, is_level, is_mark, latch_of, row_of};
ghost use Rattle.blif_model.specs.Words.{IsLatchWithin, latch_in, plain_latch, timed_latch};

use crate::pieces::Span;
use netlist::Init;

/// The bytes of a word.
#[inline]
pub fn text_of<'a>(whole: &'a [u8], word: Span) -> &'a [u8]
    requires { IsWithin whole.now word }
    ensures { result.now ≡ (word_of whole.now word).text }
{
    let at = word.at as usize;
    &whole[at..at + word.len as usize]
}

/// Whether words are a row of a table with so many inputs.
pub fn is_row(whole: &[u8], words: &[Span], width: usize) -> bool
    requires { All (IsWithin whole.now) words.now }
    ensures { result ≡ not (is_none (row_of width (map (word_of whole.now) words.now))) }
{
    match words {
        [output] => width == 0 && is_bit(text_of(whole, *output)),
        [marks, output] => {
            width > 0 && are_marks(text_of(whole, *marks), width) && is_bit(text_of(whole, *output))
        }
        _ => false,
    }
}

/// `0` or `1`.
pub fn is_bit(text: &[u8]) -> bool
    ensures { result ≡ is_bit text.now }
{
    text == "0".as_bytes() || text == "1".as_bytes()
}

/// So many bytes, each `0`, `1` or `-`.
pub fn are_marks(text: &[u8], width: usize) -> bool
    ensures { result ≡ are_marks width text.now }
{
    text.len() == width && has_marks_only(text)
}

fn has_marks_only(text: &[u8]) -> bool
    ensures { result ≡ list_all is_mark text.now }
{
    text.iter().all(|byte| is_mark(*byte))
}

fn is_mark(byte: u8) -> bool
    ensures { result ≡ is_mark byte }
{
    byte == b'0' || byte == b'1' || byte == b'-'
}

/// The type and the control of a latch.
#[derive(Clone, Copy)]
pub struct Clocking {
    pub kind: Span,
    pub control: Span,
}

/// The parts of a `.latch`.
#[derive(Clone, Copy)]
pub struct LatchWords {
    pub input: Span,
    pub output: Span,
    pub clocking: Option<Clocking>,
    pub init: Init,
}

/// The latch that words are.
pub fn latch_of(whole: &[u8], words: &[Span]) -> Option<LatchWords>
    requires { All (IsWithin whole.now) words.now }
    ensures latch { option_map (latch_in whole.now) result ≡ latch_of (map (word_of whole.now) words.now) }
    ensures within { IfSome result (IsLatchWithin whole.now) }
{
    match words {
        [input, output] => plain(*input, *output, Some(Init::Free)),
        [input, output, init] => plain(*input, *output, init_of(text_of(whole, *init))),
        [input, output, kind, control] => {
            let latch = plain(*input, *output, Some(Init::Free));
            timed(whole, latch, *kind, *control)
        }
        [input, output, kind, control, init] => {
            let latch = plain(*input, *output, init_of(text_of(whole, *init)));
            timed(whole, latch, *kind, *control)
        }
        _ => None,
    }
}

/// A latch without a type and a control, where its first value is one that there is.
fn plain(input: Span, output: Span, init: Option<Init>) -> Option<LatchWords>
    ensures { result ≡ plain_latch input output init }
{
    Some(LatchWords {
        input,
        output,
        clocking: None,
        init: init?,
    })
}

/// The latch with a type and a control, where the type is one that there is.
fn timed(whole: &[u8], latch: Option<LatchWords>, kind: Span, control: Span) -> Option<LatchWords>
    requires { IsWithin whole.now kind }
    ensures { result ≡ timed_latch (word_of whole.now kind).text kind control latch }
{
    let text = text_of(whole, kind);
    if is_edge(text) || is_level(text) {
        let clocking = Some(Clocking { kind, control });
        return Some(LatchWords { clocking, ..latch? });
    }
    None
}

/// A type that moves all latches at once.
fn is_edge(text: &[u8]) -> bool
    ensures { result ≡ is_edge text.now }
{
    text == "fe".as_bytes() || text == "re".as_bytes()
}

/// A type that does not.
pub fn is_level(text: &[u8]) -> bool
    ensures { result ≡ is_level text.now }
{
    text == "ah".as_bytes() || text == "al".as_bytes() || text == "as".as_bytes()
}

/// The first value of a latch.
fn init_of(text: &[u8]) -> Option<Init>
    ensures { result ≡ init_of text.now }
{
    if text == "0".as_bytes() {
        return Some(Init::Zero);
    }
    if text == "1".as_bytes() {
        return Some(Init::One);
    }
    if text == "2".as_bytes() || text == "3".as_bytes() {
        return Some(Init::Free);
    }
    None
}
