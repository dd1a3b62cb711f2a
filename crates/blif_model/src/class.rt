ghost use Rattle.std.specs.Prelude.{◌≡◌, ◌+◌, ◌<◌, length, drop, slice_index};
ghost use Rattle.blif_model.specs.Pieces.{class_of, class_of_backslash};

/// What a byte of a text is, where no comment is.
#[derive(Clone, Copy, Debug, PartialEq, Eq)]
pub enum Class {
    /// The end of a line.
    LineFeed,
    /// Other white space.
    White,
    /// The `#` that begins a comment.
    Comment,
    /// A backslash that joins the next line.
    Join,
    /// A backslash that would, and behind which the text ends.
    Stray,
    /// A part of a word.
    Part,
}

/// What the byte at a place is.
#[inline]
pub fn class_at(text: &[u8], at: usize) -> Class
    requires { at < length text.now }
    ensures { result ≡ class_of (slice_index text.now at) (drop (at + 1) text.now) }
{
    match text[at] {
        b'\n' => Class::LineFeed,
        9..=13 | b' ' => Class::White,
        b'#' => Class::Comment,
        b'\\' => class_of_backslash(&text[at + 1..]),
        _ => Class::Part,
    }
}

/// What a backslash is, by the bytes behind it.
fn class_of_backslash(behind: &[u8]) -> Class
    ensures { result ≡ class_of_backslash behind.now }
{
    match behind {
        [] | [b'\n'] => Class::Stray,
        [b'\n', ..] => Class::Join,
        _ => Class::Part,
    }
}
