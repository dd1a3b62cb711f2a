// The connections of a `.subckt`.
ghost use Rattle.std.specs.Prelude.{◌≡◌, ◌==◌, ◌<◌, length, position, IfSome};
ghost use Rattle.std.specs.Option.{option_map};
ghost use Rattle.blif_linking.specs.Connected.{link_in};
ghost use Rattle.blif_linking.specs.Links.{link_of};

/// A connection: a formal of the model that is placed, and the name that it is connected with.
#[derive(Clone, Copy)]
pub struct Connected<'a> {
    /// The formal.
    pub formal: &'a [u8],
    /// The name in the model in which the `.subckt` stands.
    pub actual: &'a [u8],
}

/// The connection that a word is: what stands before its first `=`, and all that stands behind it. A word without a `=`, or
/// with nothing on one side of it, is none.
pub fn link_of<'a>(text: &'a [u8]) -> Option<Connected<'a>>
    ensures { option_map link_in result ≡ link_of text.now }
{
    match equals_in(text) {
        Some(place) if place > 0 && place + 1 < text.len() => Some(Connected {
            formal: &text[..place],
            actual: &text[place + 1..],
        }),
        _ => None,
    }
}

// Where the first `=` of a word is.
fn equals_in(text: &[u8]) -> Option<usize>
    ensures is { result ≡ position (λ byte. byte == 61) text.now }
    ensures within { IfSome result (λ place. place < length text.now) }
{
    text.iter().position(|byte| *byte == b'=')
}
