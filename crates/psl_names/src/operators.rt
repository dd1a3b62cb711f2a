// What the words and marks of a tree ask for.
ghost use Rattle.std.specs.Prelude.{◌≡◌};
ghost use Rattle.psl_layer_theory.specs.Operators as spec;

use psl_layer_theory::{DeclarationWord, InfixOperator, PrefixOperator, RepetitionOperator};
use psl_lexer::TokenKind;
use psl_sugar::{
    AbortOperator, Comparison, Connective, Quantifier, SequenceOperator, Strength, SuffixOperator,
    UntilOperator,
};
use psl_tree::{Edge, Kind};

/// The operator that a token is before its operand.
pub fn prefix_operator(kind: TokenKind) -> PrefixOperator
    ensures { result ≡ spec.prefix_operator kind }
{
    match kind {
        TokenKind::Not => PrefixOperator::Not,
        TokenKind::Always => PrefixOperator::Always,
        TokenKind::Never => PrefixOperator::Never,
        TokenKind::EventuallyStrong => PrefixOperator::Eventually,
        _ => PrefixOperator::Next,
    }
}

/// The operator that a token is between operands, `&&` as that of Booleans and properties.
pub(crate) fn infix_operator(kind: TokenKind) -> InfixOperator
    ensures { result ≡ spec.infix_operator kind }
{
    match kind {
        TokenKind::OrOr => InfixOperator::Connective(Connective::Disjunction),
        TokenKind::Arrow => InfixOperator::Connective(Connective::Implication),
        TokenKind::Iff => InfixOperator::Connective(Connective::Equivalence),
        TokenKind::EqualEqual => InfixOperator::Comparison(Comparison::Equal),
        TokenKind::NotEqual => InfixOperator::Comparison(Comparison::Unequal),
        TokenKind::Less => InfixOperator::Comparison(Comparison::Less),
        TokenKind::LessEqual => InfixOperator::Comparison(Comparison::LessEqual),
        TokenKind::Greater => InfixOperator::Comparison(Comparison::Greater),
        TokenKind::GreaterEqual => InfixOperator::Comparison(Comparison::GreaterEqual),
        TokenKind::Semicolon => InfixOperator::Sequence(SequenceOperator::Concatenation),
        TokenKind::Colon => InfixOperator::Sequence(SequenceOperator::Fusion),
        TokenKind::Bar => InfixOperator::Sequence(SequenceOperator::Alternative),
        TokenKind::Ampersand => InfixOperator::Sequence(SequenceOperator::AnyLength),
        TokenKind::Within => InfixOperator::Sequence(SequenceOperator::Within),
        TokenKind::Implies => InfixOperator::Suffix(SuffixOperator::Overlapping),
        TokenKind::ImpliesNext => InfixOperator::Suffix(SuffixOperator::Next),
        TokenKind::Abort | TokenKind::AsyncAbort => InfixOperator::Abort(
            AbortOperator::Asynchronous,
        ),
        TokenKind::SyncAbort => InfixOperator::Abort(AbortOperator::Synchronous),
        TokenKind::Until | TokenKind::UntilStrong => InfixOperator::Until(UntilOperator::Until),
        TokenKind::UntilOverlap | TokenKind::UntilStrongOverlap => InfixOperator::Until(
            UntilOperator::UntilOverlap,
        ),
        TokenKind::Before | TokenKind::BeforeStrong => InfixOperator::Until(UntilOperator::Before),
        TokenKind::BeforeOverlap | TokenKind::BeforeStrongOverlap => InfixOperator::Until(
            UntilOperator::BeforeOverlap,
        ),
        _ => InfixOperator::Connective(Connective::Conjunction),
    }
}

/// What a token that opens a repetition asks for.
pub fn repetition_operator(kind: TokenKind) -> RepetitionOperator
    ensures { result ≡ spec.repetition_operator kind }
{
    match kind {
        TokenKind::PlusRepeat => RepetitionOperator::Plus,
        TokenKind::GotoOpen => RepetitionOperator::Goto,
        TokenKind::EqualsOpen => RepetitionOperator::Occurrences,
        _ => RepetitionOperator::Star,
    }
}

/// Whether the operator of a word is strong.
pub fn strength_of(kind: TokenKind) -> Strength
    ensures { result ≡ spec.strength_of kind }
{
    match kind {
        TokenKind::NextStrong
        | TokenKind::NextAStrong
        | TokenKind::NextEStrong
        | TokenKind::NextEventStrong
        | TokenKind::NextEventAStrong
        | TokenKind::NextEventEStrong
        | TokenKind::UntilStrong
        | TokenKind::UntilStrongOverlap
        | TokenKind::BeforeStrong
        | TokenKind::BeforeStrongOverlap => Strength::Strong,
        _ => Strength::Weak,
    }
}

/// Which numbers of its range the next form of a word asks for.
pub fn quantifier_of(kind: TokenKind) -> Quantifier
    ensures { result ≡ spec.quantifier_of kind }
{
    match kind {
        TokenKind::NextE
        | TokenKind::NextEStrong
        | TokenKind::NextEventE
        | TokenKind::NextEventEStrong => { Quantifier::Exists }
        _ => Quantifier::All,
    }
}

/// Which edge the word `posedge` or `negedge` asks for.
pub fn edge_of(kind: TokenKind) -> Edge
    ensures { result ≡ spec.edge_of kind }
{
    match kind {
        TokenKind::Negedge => Edge::Fall,
        _ => Edge::Rise,
    }
}

/// What the word of a directive asks for.
pub fn directive_kind_of(kind: TokenKind) -> Kind
    ensures { result ≡ spec.directive_kind_of kind }
{
    match kind {
        TokenKind::Assume => Kind::Assume,
        TokenKind::Cover => Kind::Cover,
        _ => Kind::Assert,
    }
}

/// What the word of a declaration declares.
pub fn declaration_word(kind: TokenKind) -> DeclarationWord
    ensures { result ≡ spec.declaration_word kind }
{
    match kind {
        TokenKind::Sequence => DeclarationWord::Sequence,
        TokenKind::Property => DeclarationWord::Property,
        _ => DeclarationWord::DefaultClock,
    }
}

/// Whether the second token of a count is `inf`.
pub fn is_endless(kind: TokenKind) -> bool
    ensures { result ≡ spec.is_endless kind }
{
    matches!(kind, TokenKind::Inf)
}
