// What is known of an expression, and what is built of it.
use crate::meaning::Meaning;
use crate::referred::Referred;
use psl_base::{NoMemory, Place};
use psl_layer_theory::{ExpressionKind, Flaw, Side};
use psl_lexer::TokenKind;

/// What is known of an expression once it was gone through.
#[derive(Clone, Copy, Debug)]
pub(crate) struct Checked {
    pub kind: ExpressionKind,
    /// The place of its first token.
    pub place: Place,
    /// What it is as a side of a comparison.
    pub side: Side,
    /// Its first fault, if it has one.
    pub flaw: Option<Flaw>,
}

/// What an expression stands for. A signal and a number become trees only where a tree is asked for: a comparison reads
/// their bits.
#[derive(Debug, Drop)]
pub(crate) enum Sense {
    /// A signal, a bit or a vector.
    Path(Referred),
    /// A number, a constant, `true` or `false`: the kind of its token, and its value.
    Literal(TokenKind, u64),
    /// A declared name: what it was declared as, and the signal that its text stands for.
    Declared(Meaning, Referred),
    /// Anything else.
    Built(Meaning),
}

/// An expression that was gone through.
#[derive(Debug, Drop)]
pub(crate) struct Elaborated {
    pub checked: Checked,
    pub sense: Sense,
}

/// The same in a box: a level of a deep tree then takes little stack.
pub(crate) type Part = Result<Box<Elaborated>, NoMemory>;
