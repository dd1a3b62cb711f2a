ghost use Rattle.std.specs.Prelude.{◌≡◌, ◌≤◌, length};
ghost use Rattle.psl_base.specs.Places.{file_limit, place_at};

/// How many bytes a file has at most, and so a text.
pub const FILE_LIMIT: u64 = 268_435_456;

/// A place in a text: its line and the byte of that line, both counted from 1.
/// The place of the end of a text is just after its last byte.
#[derive(Clone, Copy, Debug, PartialEq, Eq)]
pub struct Place {
    pub line: u32,
    pub column: u32,
}

/// The place of the byte before which so many bytes of a text stand. It counts the text up to there.
pub fn place_of(text: &[u8], offset: usize) -> Place
    requires within { offset ≤ length text.now }
    requires limit { length text.now ≤ file_limit }
    ensures { result ≡ place_at text.now offset }
{
    advance(text, 0, offset, Place { line: 1, column: 1 })
}

/// The place behind some bytes of a text, from the place before them.
pub fn advance(text: &[u8], from: usize, to: usize, place: Place) -> Place
    requires order { from ≤ to }
    requires within { to ≤ length text.now }
    requires limit { length text.now ≤ file_limit }
    requires place { place ≡ place_at text.now from }
    ensures { result ≡ place_at text.now to }
{
    let mut place = place;
    for at in from..to {
        if text[at] == b'\n' {
            place.line += 1;
            place.column = 1;
        } else {
            place.column += 1;
        }
    }
    place
}
