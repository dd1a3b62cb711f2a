use crate::Fl;
use psl_base::{Items, Place, Text};

/// What a directive asks for (IEEE 1850, clause 7).
#[derive(Clone, Copy, Debug, PartialEq, Eq)]
pub enum Kind {
    Assert,
    Assume,
    Cover,
}

/// A directive of a text, with the formula that it is judged by.
#[derive(Debug, Drop)]
pub struct Directive {
    /// Its number in the text, counted from 1.
    pub number: u32,
    pub kind: Kind,
    pub label: Option<Text>,
    /// The place of the word `assert`, `assume` or `cover`.
    pub place: Place,
    pub formula: Fl,
}

/// The directives of a text, in order.
pub type Unit = Items<Directive>;
