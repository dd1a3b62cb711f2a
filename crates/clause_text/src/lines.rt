// The lines of a text, and the entries of lines.
ghost use Rattle.std.specs.Prelude.{◌≡◌, ℕ, ℤ, Bool, true, List, ◌∷◌, ◌++◌, IsTrue, IfOk, IfSome, IfNone};
ghost use Rattle.clauses.specs.Entries.{entry_of};
ghost use Rattle.clauses.specs.Literals.{clause_within};
ghost use Rattle.clauses.specs.Logs.{LogEntry, is_number};
ghost use Rattle.clauses.specs.Logs.LogEntry.{Forget};
ghost use Rattle.clauses.specs.declared.flat.TheConstants.{MOST_VARIABLES};
ghost use Rattle.clause_text.specs.Lines.{entry_text, has_line, lacks, literals_text};

use crate::words::{length_before, read_drop, read_lemma, read_literals};
use clauses::Entry;
use psl_base::NoMemory;
use std::alloc::Global;

/// Room for the numbers of a line, which the next line uses again.
#[derive(Drop)]
pub struct LineRoom {
    pub(crate) literals: Vec<i32>,
    pub(crate) hints: Vec<u32>,
    // The hints as they are read.
    pub(crate) numbers: Vec<i32>,
}

impl LineRoom {
    /// Room for nothing yet. It takes no memory.
    pub fn new(alloc: Global) -> LineRoom {
        LineRoom {
            literals: Vec::new(alloc),
            hints: Vec::new(alloc),
            numbers: Vec::new(alloc),
        }
    }
}

/// The first line of a text, without the line feed that ends it, and what stands behind that. None where no line feed
/// stands in the text.
pub fn next_line(text: &[u8]) -> Option<(&[u8], &[u8])>
    ensures some { IfSome result (λ split. (text.now ≡ split.0.now ++ 10 ∷ split.1.now) × (lacks 10 split.0.now ≡ true)) }
    ensures none { IfNone result (lacks 10 text.now ≡ true) }
{
    let (line, behind) = text.split_at(length_before(b'\n', text));
    let (_, rest) = behind.split_first()?;
    Some((line, rest))
}

/// The entry of a line, which has no line feed. Drops have lines, or only lemmas do. None where the line is no entry's.
pub fn read_entry<'a>(
    line: &[u8],
    drops: bool,
    room: &'a mut LineRoom,
) -> Result<Option<Entry<'a>>, NoMemory>
    ensures some { IfOk result (λ read. IfSome read (λ entry. (has_line drops (entry_of entry) ≡ true)
        × (line.now ≡ entry_text (entry_of entry)))) }
    ensures none { IfOk result (λ read. IfNone read ((entry : LogEntry) → has_line drops entry ≡ true
        → line.now ≡ entry_text entry → ⊥)) }
{
    if let Some(number) = drop_of(drops, line) {
        return Ok(Some(Entry::Forget(number)));
    }
    if !read_lemma(line, room)? {
        return Ok(None);
    }
    Ok(Some(Entry::Lemma {
        literals: &room.literals,
        hints: &room.hints,
    }))
}

/// The literals of the line of a clause, which has no line feed: its literals and a 0, with one blank between two of them.
/// None where the line is no clause's.
pub fn read_clause<'a>(line: &[u8], room: &'a mut LineRoom) -> Result<Option<&'a [i32]>, NoMemory>
    ensures some { IfOk result (λ read. IfSome read (λ literals. (line.now ≡ literals_text literals.now)
        × IsTrue (clause_within MOST_VARIABLES literals.now))) }
    ensures none { IfOk result (λ read. IfNone read ((literals : List ℤ) → IsTrue (clause_within MOST_VARIABLES literals)
        → line.now ≡ literals_text literals → ⊥)) }
{
    let Some(behind) = read_literals(line, &mut room.literals)? else {
        return Ok(None);
    };
    if behind.is_empty() {
        Ok(Some(&room.literals))
    } else {
        Ok(None)
    }
}

/// The number that a drop line names, where drops have lines.
fn drop_of(drops: bool, line: &[u8]) -> Option<u32>
    ensures some { IfSome result (λ number. (has_line drops (Forget number) ≡ true)
        × (line.now ≡ entry_text (Forget number))) }
    ensures none { IfNone result ((number : ℕ) → has_line drops (Forget number) ≡ true
        → line.now ≡ entry_text (Forget number) → ⊥) }
{
    if drops { read_drop(line) } else { None }
}
