ghost use Rattle.std.specs.Prelude.{◌≡◌};
ghost use Rattle.std.specs.List.{list_all};
ghost use Rattle.std.specs.Str.{bytes_eq};
ghost use Rattle.vcd_reader.specs.Shapes.{is_end, is_header, is_dump, keyword_of, is_value, are_values, has_more, shape_of};

/// What a token is by its text alone.
#[derive(Clone, Copy)]
pub enum Shape {
    /// `$end`.
    End,
    /// `$comment`.
    Comment,
    /// `$date`, `$version` or `$timescale`.
    Header,
    /// `$scope`.
    Scope,
    /// `$upscope`.
    Upscope,
    /// `$var`.
    Var,
    /// `$enddefinitions`.
    EndDefinitions,
    /// `$dumpvars`, `$dumpall`, `$dumpon` or `$dumpoff`.
    Dump,
    /// Another token that begins with `$`.
    Unknown,
    /// A token that begins with `#`.
    Time,
    /// `b` or `B` and letters of values.
    Vector,
    /// A real or a string change, which is not read.
    Unread,
    /// A letter of a value and a code.
    Scalar,
    /// Any other token.
    Other,
}

/// What a token is. Most are changes to 0 or 1.
#[inline]
#[tactic(auto, unfolding(crate::specs::Shapes::shape_of))]
pub fn shape_of(text: &[u8]) -> Shape
    ensures { result ≡ shape_of text.now }
{
    match text {
        [b'0' | b'1', _, ..] => Shape::Scalar,
        _ => any_shape(text),
    }
}

/// The same, whatever the token is.
#[inline(never)]
#[tactic(auto, unfolding(crate::specs::Shapes::shape_of))]
fn any_shape(text: &[u8]) -> Shape
    ensures { result ≡ shape_of text.now }
{
    match text {
        [] => Shape::Other,
        [b'$', ..] => keyword(text),
        [b'#', ..] => Shape::Time,
        [b'b' | b'B', letters @ ..] => {
            if values(letters) {
                Shape::Vector
            } else {
                Shape::Other
            }
        }
        [b'r' | b'R' | b's' | b'S', ..] => Shape::Unread,
        [first, code @ ..] => {
            if value(*first) && more(code) {
                Shape::Scalar
            } else {
                Shape::Other
            }
        }
    }
}

/// What a token that begins with `$` is.
#[tactic(auto, unfolding(crate::specs::Shapes::keyword_of))]
fn keyword(text: &[u8]) -> Shape
    ensures { result ≡ keyword_of text.now }
{
    if end(text) {
        Shape::End
    } else if is(text, b"$comment") {
        Shape::Comment
    } else if header(text) {
        Shape::Header
    } else if is(text, b"$scope") {
        Shape::Scope
    } else if is(text, b"$upscope") {
        Shape::Upscope
    } else if is(text, b"$var") {
        Shape::Var
    } else if is(text, b"$enddefinitions") {
        Shape::EndDefinitions
    } else if dump(text) {
        Shape::Dump
    } else {
        Shape::Unknown
    }
}

/// Whether a token is a word.
pub fn is(text: &[u8], word: &[u8]) -> bool
    ensures { result ≡ bytes_eq text.now word.now }
{
    text == word
}

/// Whether a token is `$end`.
pub fn end(text: &[u8]) -> bool
    ensures { result ≡ is_end text.now }
{
    is(text, b"$end")
}

fn header(text: &[u8]) -> bool
    ensures { result ≡ is_header text.now }
{
    is(text, b"$date") || is(text, b"$version") || is(text, b"$timescale")
}

fn dump(text: &[u8]) -> bool
    ensures { result ≡ is_dump text.now }
{
    is(text, b"$dumpvars") || is(text, b"$dumpall") || is(text, b"$dumpon") || is(text, b"$dumpoff")
}

/// Whether a byte is a letter of a value.
fn value(byte: u8) -> bool
    ensures { result ≡ is_value byte }
{
    byte == b'0'
        || byte == b'1'
        || byte == b'x'
        || byte == b'X'
        || byte == b'z'
        || byte == b'Z'
        || byte == b'u'
        || byte == b'U'
        || byte == b'w'
        || byte == b'W'
        || byte == b'l'
        || byte == b'L'
        || byte == b'h'
        || byte == b'H'
        || byte == b'-'
}

/// Whether there are letters of a value, and nothing else.
fn values(bytes: &[u8]) -> bool
    ensures { result ≡ are_values bytes.now }
{
    more(bytes) && all_values(bytes)
}

fn more(bytes: &[u8]) -> bool
    ensures { result ≡ has_more bytes.now }
{
    !bytes.is_empty()
}

fn all_values(bytes: &[u8]) -> bool
    ensures { result ≡ list_all is_value bytes.now }
{
    bytes.iter().all(|byte| value(*byte))
}
