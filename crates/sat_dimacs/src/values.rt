// What a word among the clauses says.
ghost use Rattle.std.specs.Prelude.{◌≡◌, ◌↔◌, [], ◌∷◌, true, IsTrue};
ghost use Rattle.std.specs.Fmt.{signed_decimal};
ghost use Rattle.clauses.specs.Literals as literals;
ghost use Rattle.sat_dimacs.specs.Reading.{Says};

use clause_text::literal;

/// What a word among the clauses says.
#[derive(Clone, Copy, Drop)]
pub(crate) enum Value {
    /// The end of a clause.
    Zero,
    Literal(i32),
    /// A literal of a variable past those of the header.
    LargeLiteral,
    /// The beginning of a header.
    Header,
    Other,
}

/// What a word says among clauses over so many variables.
pub(crate) fn value_of(variables: u32, word: &[u8]) -> Value
    ensures { Says variables word.now result }
{
    if is_byte(b'0', word) {
        return Value::Zero;
    }
    if is_byte(b'p', word) {
        return Value::Header;
    }
    match literal(word) {
        Some(literal) => literal_value(variables, literal),
        None => Value::Other,
    }
}

/// Whether a word is this byte alone.
pub(crate) fn is_byte(byte: u8, word: &[u8]) -> bool
    ensures { IsTrue result ↔ (word.now ≡ byte ∷ []) }
{
    word.len() == 1 && word[0] == byte
}

/// What a literal is among clauses over so many variables.
fn literal_value(variables: u32, literal: i32) -> Value
    requires { literals.is_literal literal ≡ true }
    ensures { Says variables (signed_decimal literal) result }
{
    if is_within(variables, literal) {
        Value::Literal(literal)
    } else {
        Value::LargeLiteral
    }
}

/// Whether a literal is of one of the first so many variables.
fn is_within(variables: u32, literal: i32) -> bool
    requires { literals.is_literal literal ≡ true }
    ensures { result ≡ literals.is_within variables literal }
{
    literal.unsigned_abs() <= variables
}
