use psl_base::{Items, Text};

/// A name of a signal in a recording or a netlist, with the range of its indices as it was declared.
#[derive(Debug, Drop)]
pub struct Name {
    /// The whole name, the parts joined by dots.
    pub text: Text,
    /// The signal's number, counted from 0.
    pub signal: u32,
    /// The index of the leftmost bit.
    pub left: u32,
    /// The index of the rightmost bit, which is bit 0.
    pub right: u32,
}

/// Names in the order in which a file declares them. Several may stand for one signal.
pub type Names = Items<Name>;
