// A log as lines of text.
ghost use Rattle.std.specs.Prelude.{◌≡◌, [], ◌∷◌, ◌++◌, IfOk, OnOk};
ghost use Rattle.std.specs.Fmt.{signed_decimal};
ghost use Rattle.clauses.specs.Logs.LogEntry.{Lemma, Forget};
ghost use Rattle.clause_text.specs.Lines.{literals_text, hints_text, entry_text, lines_of, lemmas_alone};

use clauses::{Entry, Log};
use psl_base::{Bytes, NoMemory, add_bytes, add_number};
use std::alloc::Global;

/// The lemma lines of a log. Its drops have none.
pub fn print_log(alloc: Global, log: &Log) -> Result<Bytes, NoMemory>
    ensures { IfOk result (λ text. text ≡ lines_of (lemmas_alone log.now)) }
{
    let mut text = Vec::new(alloc);
    add_log(&mut text, log)?;
    Ok(Bytes::from_vec(text))
}

/// The lines of a log, of its lemmas and its drops.
pub fn print_log2(alloc: Global, log: &Log) -> Result<Bytes, NoMemory>
    ensures { IfOk result (λ text. text ≡ lines_of log.now) }
{
    let mut text = Vec::new(alloc);
    add_log2(&mut text, log)?;
    Ok(Bytes::from_vec(text))
}

/// Adds the lemma lines of a log at the end of a text. Its drops have none.
///
/// # Errors
/// `NoMemory` where the allocator refuses memory.
pub fn add_log(text: &mut Vec<u8>, log: &Log) -> Result<(), NoMemory>
    ensures { OnOk result (text.new.items ≡ text.old.items ++ lines_of (lemmas_alone log.now)) }
{
    let mut entries = log.entries();
    while let Some(entry) = entries.next() {
        if let Entry::Lemma { literals, hints } = entry {
            add_lemma_line(text, literals, hints)?;
        }
    }
    Ok(())
}

/// Adds the lines of a log, of its lemmas and its drops, at the end of a text.
///
/// # Errors
/// `NoMemory` where the allocator refuses memory.
pub fn add_log2(text: &mut Vec<u8>, log: &Log) -> Result<(), NoMemory>
    ensures { OnOk result (text.new.items ≡ text.old.items ++ lines_of log.now) }
{
    let mut entries = log.entries();
    while let Some(entry) = entries.next() {
        match entry {
            Entry::Lemma { literals, hints } => add_lemma_line(text, literals, hints)?,
            Entry::Forget(number) => add_drop_line(text, number)?,
        }
    }
    Ok(())
}

/// Adds the line of a clause at the end of a text: its literals and a 0.
///
/// # Errors
/// `NoMemory` where the allocator refuses memory.
pub fn add_clause_line(text: &mut Vec<u8>, literals: &[i32]) -> Result<(), NoMemory>
    ensures { OnOk result (text.new.items ≡ text.old.items ++ (literals_text literals.now ++ 10 ∷ [])) }
{
    add_literals(text, literals)?;
    add_bytes(text, b"\n")
}

fn add_lemma_line(text: &mut Vec<u8>, literals: &[i32], hints: &[u32]) -> Result<(), NoMemory>
    ensures { OnOk result (text.new.items ≡ text.old.items ++ (entry_text (Lemma literals.now hints.now) ++ 10 ∷ [])) }
{
    add_literals(text, literals)?;
    add_bytes(text, b" ")?;
    add_hints(text, hints)?;
    add_bytes(text, b"\n")
}

fn add_drop_line(text: &mut Vec<u8>, number: u32) -> Result<(), NoMemory>
    ensures { OnOk result (text.new.items ≡ text.old.items ++ (entry_text (Forget number) ++ 10 ∷ [])) }
{
    add_bytes(text, b"d ")?;
    add_number(text, u64::from(number))?;
    add_bytes(text, b"\n")
}

fn add_literals(text: &mut Vec<u8>, literals: &[i32]) -> Result<(), NoMemory>
    ensures { OnOk result (text.new.items ≡ text.old.items ++ literals_text literals.now) }
{
    for literal in literals {
        add_literal(text, *literal)?;
        add_bytes(text, b" ")?;
    }
    add_bytes(text, b"0")
}

fn add_hints(text: &mut Vec<u8>, hints: &[u32]) -> Result<(), NoMemory>
    ensures { OnOk result (text.new.items ≡ text.old.items ++ hints_text hints.now) }
{
    for hint in hints {
        add_number(text, u64::from(*hint))?;
        add_bytes(text, b" ")?;
    }
    add_bytes(text, b"0")
}

fn add_literal(text: &mut Vec<u8>, literal: i32) -> Result<(), NoMemory>
    ensures { OnOk result (text.new.items ≡ text.old.items ++ signed_decimal literal) }
{
    if literal < 0 {
        add_bytes(text, b"-")?;
    }
    add_number(text, u64::from(literal.unsigned_abs()))
}
