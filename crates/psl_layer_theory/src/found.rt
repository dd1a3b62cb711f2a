use psl_base::Place;
use psl_sugar::Vector;

/// What the entries of a list of names say of a text.
#[derive(Clone, Copy, Debug, PartialEq, Eq)]
pub enum Found {
    /// No entry matches.
    Nothing,
    /// One signal with one range matches, perhaps by several entries.
    One {
        signal: u32,
        /// The index of the leftmost bit.
        left: u32,
        /// The index of the rightmost bit.
        right: u32,
    },
    /// Two different signals or ranges match.
    Several,
}

/// What a path stands for, perhaps with an index.
#[derive(Debug, Drop)]
pub enum Reference {
    /// Nothing matches, or the index is out of range, or a bus has no signal at some index.
    Nothing,
    /// Two different signals or ranges match, or some bit of a bus is two signals.
    Several,
    /// A signal, a bit of one, or the bits of a bus.
    Bits(Vector),
}

/// What stands on one side of a comparison.
#[derive(Clone, Copy, Debug, PartialEq, Eq)]
pub enum Side {
    /// A path that stands for no declared name: how many bits it has, where these are known.
    Bits(Option<u64>),
    /// The value of a number or a constant, and its place.
    Value(u64, Place),
    /// Anything else.
    Neither,
}
