use psl_sugar::{
    AbortOperator, Comparison, Connective, SequenceOperator, SuffixOperator, UntilOperator,
};

/// An operator before its operand.
#[derive(Clone, Copy, Debug, PartialEq, Eq)]
pub enum PrefixOperator {
    /// `!`
    Not,
    /// `always`
    Always,
    /// `never`
    Never,
    /// `next`, `next!`
    Next,
    /// `eventually!`
    Eventually,
}

/// An operator between its operands: which operands it takes and what it gives, and which of those that do so.
#[derive(Clone, Copy, Debug, PartialEq, Eq)]
pub enum InfixOperator {
    /// Of Booleans and of properties; `&&` among them, unless it stands between sequences.
    Connective(Connective),
    /// Of two numbers, of which one at least is a signal's.
    Comparison(Comparison),
    /// Of sequences.
    Sequence(SequenceOperator),
    /// Of a sequence and a property.
    Suffix(SuffixOperator),
    /// Of a property and a Boolean.
    Abort(AbortOperator),
    /// Of properties, strong or weak.
    Until(UntilOperator),
}

/// What opens a repetition.
#[derive(Clone, Copy, Debug, PartialEq, Eq)]
pub enum RepetitionOperator {
    /// `[*`
    Star,
    /// `[+]`
    Plus,
    /// `[->`
    Goto,
    /// `[=`
    Occurrences,
}

/// What a declaration declares.
#[derive(Clone, Copy, Debug, PartialEq, Eq)]
pub enum DeclarationWord {
    /// `sequence`
    Sequence,
    /// `property`
    Property,
    /// `default clock`
    DefaultClock,
}
