// The header of a text.
ghost use Rattle.std.specs.Prelude.{◌≡◌, ◌↔◌, IsTrue, IfOk, IfErr};
ghost use Rattle.sat_dimacs.specs.Formulas.{cnf_text};
ghost use Rattle.sat_dimacs.specs.Faults.{IsFault};
ghost use Rattle.sat_dimacs.specs.Reading.{IsHeader, IsCount, IsNoCountFault};

use crate::DimacsFault;
use crate::values::is_byte;
use crate::words::Words;
use clause_text::number;

/// How many variables and clauses a header speaks of.
#[derive(Clone, Copy, Drop)]
pub(crate) struct Header {
    pub(crate) variables: u32,
    pub(crate) clauses: u32,
}

/// Reads the header, which is the first of the words.
pub(crate) fn read_header(words: &mut Words<'_>) -> Result<Header, DimacsFault>
    ensures ok { IfOk result (IsHeader words.old words.new) }
    ensures err { IfErr result (IsFault words.old) }
{
    let Some(first) = words.next() else {
        return Err(DimacsFault::NoHeader(words.end()));
    };
    if !is_byte(b'p', first.text()) {
        return Err(DimacsFault::NoHeader(first.place()));
    }
    let Some(second) = words.next() else {
        return Err(DimacsFault::BadHeader(words.end()));
    };
    if !is_cnf(second.text()) {
        return Err(DimacsFault::BadHeader(second.place()));
    }
    let variables = count(words)?;
    let clauses = count(words)?;
    Ok(Header { variables, clauses })
}

/// Whether a word is `cnf`.
fn is_cnf(word: &[u8]) -> bool
    ensures { IsTrue result ↔ (word.now ≡ cnf_text) }
{
    word == b"cnf".as_slice()
}

/// Reads a number of variables or of clauses.
fn count(words: &mut Words<'_>) -> Result<u32, DimacsFault>
    ensures ok { IfOk result (IsCount words.old words.new) }
    ensures err { IfErr result (IsNoCountFault words.old) }
{
    let Some(word) = words.next() else {
        return Err(DimacsFault::BadHeader(words.end()));
    };
    match number(word.text()) {
        Some(count) => Ok(count),
        None => Err(DimacsFault::BadHeader(word.place())),
    }
}
