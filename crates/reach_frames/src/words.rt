// Literals as words of a pool.
ghost use Rattle.std.specs.Prelude.{◌≡◌, [], ◌∷◌, ◌++◌, IsTrue, IfOk, OnOk};
ghost use Rattle.std.specs.Int.{cast_signed, w32};
ghost use Rattle.std.specs.List.{list_all};
ghost use Rattle.clauses.specs.declared.flat.TheConstants.{MOST_VARIABLES};
ghost use Rattle.clauses.specs.Literals.{clause_within};
ghost use Rattle.reach_frames.specs.Marks.{is_among as among};
ghost use Rattle.reach_frames.specs.Pooled.{literals_of as literals, stands_in};

use crate::Literals;
use clauses::{Clauses, CnfFault};
use psl_base::NoMemory;
use std::alloc::Global;

/// The words of literals.
pub(crate) fn words_of(alloc: Global, list: &[i32]) -> Result<Vec<u32>, NoMemory>
    ensures { IfOk result (λ words. literals words.items ≡ list.now) }
{
    let mut words = Vec::with_capacity(alloc, list.len())?;
    for literal in list {
        words.push(literal.cast_unsigned())?;
    }
    Ok(words)
}

/// The literals of words.
pub(crate) fn literals_of(alloc: Global, words: &[u32]) -> Result<Literals, NoMemory>
    ensures { IfOk result (λ list. list ≡ literals words.now) }
{
    let mut list = Literals::new(alloc);
    for word in words {
        list.push(word.cast_signed())?;
    }
    Ok(list)
}

/// Adds the literals of words at the end.
fn add_literals(list: &mut Vec<i32>, words: &[u32]) -> Result<(), NoMemory>
    ensures { OnOk result (list.new.items ≡ list.old.items ++ literals words.now) }
{
    for word in words {
        list.push(word.cast_signed())?;
    }
    Ok(())
}

/// Adds the clause of words at the end. `space` is of use to this call alone.
pub(crate) fn add_clause(
    clauses: &mut Clauses,
    space: &mut Vec<i32>,
    words: &[u32],
) -> Result<(), NoMemory>
    requires { IsTrue (clause_within MOST_VARIABLES (literals words.now)) }
    ensures { OnOk result (clauses.new ≡ clauses.old ++ literals words.now ∷ []) }
{
    space.clear();
    add_literals(space, words)?;
    match clauses.push(space) {
        Ok(()) => Ok(()),
        Err(CnfFault::TooLarge) => Err(NoMemory),
        Err(CnfFault::NoMemory) => Err(NoMemory),
    }
}

/// Whether a literal is one of some.
fn is_among(list: &[i32], literal: i32) -> bool
    ensures { result ≡ among list.now literal }
{
    list.iter().any(|other| *other == literal)
}

/// Whether the literal of a word is one of some.
fn is_literal_of(list: &[i32], word: u32) -> bool
    ensures { result ≡ among list.now (cast_signed w32 word) }
{
    is_among(list, word.cast_signed())
}

/// Whether a literal is one of those of words.
fn is_word(words: &[u32], literal: i32) -> bool
    ensures { result ≡ stands_in words.now literal }
{
    words.iter().any(|word| word.cast_signed() == literal)
}

/// Whether the literals of words all stand in a clause.
pub(crate) fn are_part(words: &[u32], clause: &[i32]) -> bool
    ensures { result ≡ list_all (λ word. among clause.now (cast_signed w32 word)) words.now }
{
    for word in words {
        if !is_literal_of(clause, *word) {
            return false;
        }
    }
    true
}

/// Whether the literals of a clause all stand in words.
pub(crate) fn have_part(words: &[u32], clause: &[i32]) -> bool
    ensures { result ≡ list_all (stands_in words.now) clause.now }
{
    for literal in clause {
        if !is_word(words, *literal) {
            return false;
        }
    }
    true
}
