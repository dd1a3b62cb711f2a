// The numbers of a header.
ghost use Rattle.std.specs.Prelude.{◌≡◌, ℕ, List, ◌∷◌, ◌++◌, IfSome, IfNone};
ghost use Rattle.cert_theory.specs.Headers as spec;
ghost use Rattle.cert_theory.specs.Headers.{Says};
ghost use Rattle.cert_theory.specs.Lines as lines;

use cert_theory::{Field, MOST_VISITS, MOST_WINDOW};
use clauses::MOST_VARIABLES;
use psl_base::plain_decimal;

/// The number that a line gives, where it may stand there.
pub(crate) fn number_in(field: Field, line: &[u8]) -> Option<u32>
    ensures some { IfSome result (Says field line.now) }
    ensures none { IfNone result ((number : ℕ) → Says field line.now number → ⊥) }
{
    let text = behind(word_of(field), line)?;
    let number = plain_decimal(u64::from(most_of(field)), text)?;
    if number >= u64::from(least_of(field)) {
        Some(number as u32)
    } else {
        None
    }
}

/// What stands in a line behind a word and a blank.
fn behind<'a>(word: &[u8], line: &'a [u8]) -> Option<&'a [u8]>
    ensures some { IfSome result (λ rest. line.now ≡ word.now ++ 32 ∷ rest.now) }
    ensures none { IfNone result ((rest : List ℕ) → line.now ≡ word.now ++ 32 ∷ rest → ⊥) }
{
    if line.len() <= word.len() {
        return None;
    }
    let (front, back) = line.split_at(word.len());
    if front != word {
        return None;
    }
    let (blank, rest) = back.split_first()?;
    if *blank == b' ' { Some(rest) } else { None }
}

/// The word in front of a number.
fn word_of(field: Field) -> &'static [u8]
    ensures { result.now ≡ lines.word_of field }
{
    match field {
        Field::Assertion => b"assertion",
        Field::Visits => b"visits",
        Field::Window => b"window",
        Field::Live => b"live",
    }
}

/// The greatest number that may stand in a line.
fn most_of(field: Field) -> u32
    ensures { result ≡ spec.most_of field }
{
    match field {
        Field::Assertion => u32::MAX,
        Field::Visits => MOST_VISITS,
        Field::Window => MOST_WINDOW,
        Field::Live => MOST_VARIABLES,
    }
}

/// The least number that may stand in a line.
fn least_of(field: Field) -> u32
    ensures { result ≡ spec.least_of field }
{
    match field {
        Field::Assertion | Field::Window => 1,
        Field::Visits | Field::Live => 0,
    }
}
