// The tokens of the operators between operands, for each level of the grammar that has several.
use psl_lexer::TokenKind;

/// `->` and `<->`.
pub const IMPLICATIONS: [TokenKind; 2] = [TokenKind::Arrow, TokenKind::Iff];

/// `|->` and `|=>`.
pub const SUFFIXES: [TokenKind; 2] = [TokenKind::Implies, TokenKind::ImpliesNext];

/// The words that begin with `until` or `before`.
pub const UNTIL: [TokenKind; 8] = [
    TokenKind::Until,
    TokenKind::UntilStrong,
    TokenKind::UntilOverlap,
    TokenKind::UntilStrongOverlap,
    TokenKind::Before,
    TokenKind::BeforeStrong,
    TokenKind::BeforeOverlap,
    TokenKind::BeforeStrongOverlap,
];

/// The words that abort.
pub const ABORTS: [TokenKind; 3] = [
    TokenKind::Abort,
    TokenKind::AsyncAbort,
    TokenKind::SyncAbort,
];

/// `==`, `!=`, `<`, `<=`, `>` and `>=`.
pub const COMPARISONS: [TokenKind; 6] = [
    TokenKind::EqualEqual,
    TokenKind::NotEqual,
    TokenKind::Less,
    TokenKind::LessEqual,
    TokenKind::Greater,
    TokenKind::GreaterEqual,
];

/// `&` and `&&` of sequences.
pub const SEQUENCE_ANDS: [TokenKind; 2] = [TokenKind::Ampersand, TokenKind::AndAnd];
