// Reads a formula word by word.
ghost use Rattle.std.specs.Prelude.{◌≡◌, ◌<◌, ◌≤◌, length, [], true, IsTrue, IfOk, IfErr, OnOk};
ghost use Rattle.psl_base.specs.Places.{file_limit};
ghost use Rattle.clauses.specs.Literals.{clause_within};
ghost use Rattle.sat_dimacs.specs.Formulas.{StandsFor};
ghost use Rattle.sat_dimacs.specs.Faults.{IsFirstFault};
ghost use Rattle.sat_dimacs.specs.Reading.{AddsWord, EndsClause, IsWordFault, IsEndFault};

use crate::DimacsFault;
use crate::header::read_header;
use crate::values::{Value, value_of};
use crate::words::Words;
use clauses::{Cnf, CnfFault};
use psl_base::Token;
use std::alloc::Global;

/// The formula that a text in the DIMACS format stands for, or the first fault of the text.
///
/// The words of the text stand between white space, and where lines end is of no account. The first four are the header,
/// `p cnf VARIABLES CLAUSES`; just so many clauses follow, each its literals and a `0`. The variable n is the literal
/// `n`, and its negation `-n`. Numbers are decimal, without leading zeros, and at most 2,147,483,647.
///
/// A line that begins with a `c` is a comment and does not count, wherever it stands. A line that begins with a `%` ends
/// the text, with what stands behind it: the files of SATLIB end so, and minisat refuses them. It warns where there are
/// fewer or more clauses than the header says, and this refuses it.
///
/// # Errors
///
/// The first fault, and `NoMemory` if memory is refused.
pub fn read_dimacs(alloc: Global, text: &[u8]) -> Result<Cnf, DimacsFault>
    requires { length text.now ≤ file_limit }
    ensures formula { IfOk result (λ cnf. StandsFor text.now cnf.variables cnf.clauses) }
    ensures fault { IfErr result (IsFirstFault text.now) }
{
    let mut words = Words::new(text);
    let header = read_header(&mut words)?;
    let wanted = header.clauses as usize;
    let mut cnf = Cnf::new(alloc, header.variables);
    let mut clause = Vec::new(alloc);
    while let Some(word) = words.next() {
        add_word(&mut cnf, &mut clause, wanted, &word)?;
    }
    if !clause.is_empty() {
        return Err(DimacsFault::OpenClause(words.end()));
    }
    if cnf.clauses.len() < wanted {
        return Err(DimacsFault::FewerClauses(words.end()));
    }
    Ok(cnf)
}

/// Adds a word to the clauses of a formula, of which there are to be so many, and to the one that has not ended.
fn add_word(
    cnf: &mut Cnf,
    clause: &mut Vec<i32>,
    wanted: usize,
    word: &Token<'_>,
) -> Result<(), DimacsFault>
    requires begun { IsTrue (clause_within cnf.old.variables clause.old.items) }
    ensures variables { cnf.new.variables ≡ cnf.old.variables }
    ensures ok { OnOk result (AddsWord cnf.old.variables cnf.old.clauses clause.old.items word.now.text cnf.new.clauses clause.new.items) }
    ensures fits { OnOk result (length cnf.old.clauses < wanted) }
    ensures err { IfErr result (IsWordFault cnf.old.variables wanted cnf.old.clauses clause.old.items word.now) }
{
    if cnf.clauses.len() >= wanted {
        return Err(DimacsFault::MoreClauses(word.place()));
    }
    match value_of(cnf.variables, word.text()) {
        Value::Literal(literal) => match clause.push(literal) {
            Ok(()) => Ok(()),
            Err(_refused) => Err(DimacsFault::NoMemory),
        },
        Value::Zero => end_clause(cnf, clause, word),
        Value::LargeLiteral => Err(DimacsFault::LiteralTooLarge(word.place())),
        Value::Header => Err(DimacsFault::SecondHeader(word.place())),
        Value::Other => Err(DimacsFault::NotALiteral(word.place())),
    }
}

/// Adds the clause that has not ended, where a word ends it.
fn end_clause(cnf: &mut Cnf, clause: &mut Vec<i32>, word: &Token<'_>) -> Result<(), DimacsFault>
    requires begun { IsTrue (clause_within cnf.old.variables clause.old.items) }
    ensures variables { cnf.new.variables ≡ cnf.old.variables }
    ensures ok { OnOk result (EndsClause cnf.old.clauses clause.old.items cnf.new.clauses clause.new.items) }
    ensures err { IfErr result (IsEndFault cnf.old.clauses clause.old.items word.now) }
{
    match cnf.push(clause) {
        Ok(()) => {
            clause.clear();
            Ok(())
        }
        Err(CnfFault::TooLarge) => Err(DimacsFault::TooLarge(word.place())),
        Err(CnfFault::NoMemory) => Err(DimacsFault::NoMemory),
    }
}
