ghost use Rattle.std.specs.Prelude.{◌≡◌, map};
ghost use Rattle.psl_lexer.specs.Spellings as spec_spellings;
ghost use Rattle.psl_lexer.specs.Reading as spec;

use crate::TokenKind;
use crate::bytes::{continues_name, name_len};
use crate::front::Front;
use crate::kind::{OVERLAPPING_WORDS, STRONG_WORDS, WORDS};

/// What these bytes are, if a row spells them.
fn kind_in(rows: &[(&[u8], TokenKind)], bytes: &[u8]) -> Option<TokenKind>
    ensures { result ≡ spec_spellings.kind_in (map (λ row. (row.0.now, row.1)) rows.now) bytes.now }
{
    for row in rows {
        if row.0 == bytes {
            return Some(row.1);
        }
    }
    None
}

/// Whether a word may take the `!` that follows.
fn takes_strong(after: &[u8]) -> bool
    ensures { result ≡ spec.takes_strong after.now }
{
    match after {
        [b'!', b'=', ..] => false,
        [b'!', ..] => true,
        _ => false,
    }
}

/// Whether a word may take the `!_` that follows.
fn takes_overlapping(after: &[u8]) -> bool
    ensures { result ≡ spec.takes_overlapping after.now }
{
    match after {
        [b'!', b'_', byte, ..] => !continues_name(*byte),
        [b'!', b'_'] => true,
        _ => false,
    }
}

/// The keyword of a word with a `!`.
#[tactic(auto, unfolding(crate::specs::Spellings::strong_words))]
fn strong_word(word: &[u8]) -> Option<TokenKind>
    ensures { result ≡ spec_spellings.kind_in spec_spellings.strong_words word.now }
{
    kind_in(&STRONG_WORDS, word)
}

/// The keyword of a word with `!_`.
#[tactic(auto, unfolding(crate::specs::Spellings::overlapping_words))]
fn overlapping_word(word: &[u8]) -> Option<TokenKind>
    ensures { result ≡ spec_spellings.kind_in spec_spellings.overlapping_words word.now }
{
    kind_in(&OVERLAPPING_WORDS, word)
}

/// The keyword of a word alone.
#[tactic(auto, unfolding(crate::specs::Spellings::words))]
fn plain_word(word: &[u8]) -> Option<TokenKind>
    ensures { result ≡ spec_spellings.kind_in spec_spellings.words word.now }
{
    kind_in(&WORDS, word)
}

/// The keyword of a word and the `!` behind it.
fn strong_kind(word: &[u8], after: &[u8]) -> Option<TokenKind>
    ensures { result ≡ spec.kind_where (spec.takes_strong after.now) spec_spellings.strong_words word.now }
{
    if takes_strong(after) {
        strong_word(word)
    } else {
        None
    }
}

/// The keyword of a word and the `!_` behind it.
fn overlapping_kind(word: &[u8], after: &[u8]) -> Option<TokenKind>
    ensures { result ≡ spec.kind_where (spec.takes_overlapping after.now) spec_spellings.overlapping_words word.now }
{
    if takes_overlapping(after) {
        overlapping_word(word)
    } else {
        None
    }
}

/// The keyword of a word, or that it is a name.
fn word_kind(word: &[u8]) -> TokenKind
    ensures { result ≡ spec_spellings.word_kind word.now }
{
    match plain_word(word) {
        Some(kind) => kind,
        None => TokenKind::Name,
    }
}

/// What stands at the front of a text that begins with a word.
#[tactic(auto, unfolding(crate::specs::Reading::word_front, crate::specs::Reading::word_before))]
pub fn word_front(rest: &[u8]) -> Front
    ensures { result ≡ spec.word_front rest.now }
{
    let len = name_len(rest);
    let (word, after) = rest.split_at(len);
    if let Some(kind) = overlapping_kind(word, after) {
        return Front::Token(kind, len + 2);
    }
    if let Some(kind) = strong_kind(word, after) {
        return Front::Token(kind, len + 1);
    }
    Front::Token(word_kind(word), len)
}
