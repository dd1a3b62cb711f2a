// A log in three blocks of memory.
ghost use Rattle.std.specs.Prelude.{◌≡◌, [], ◌∷◌, ◌++◌, ◌+◌, ◌≤◌, IsTrue, IfSome, OnOk, OnErr};
ghost use Rattle.clauses.specs.Logs.LogEntry.{Lemma};
ghost use Rattle.clauses.specs.Logs.{entry_words, is_entry, lemmas as lemma_count, log_words};
ghost use Rattle.clauses.specs.Entries.{entry_of, IsNext};

use psl_base::NoMemory;
use std::alloc::Global;
use std::marker::Model;

/// The most words that a log has, where a lemma counts its literals, its hints and two.
pub const MOST_LOG_WORDS: usize = 1_000_000_000;

/// An entry of a log.
#[derive(Clone, Copy, Debug, Drop)]
pub enum Entry<'a> {
    /// A lemma: a clause, and the numbers of the clauses that it follows from, in the order of propagation.
    Lemma {
        literals: &'a [i32],
        hints: &'a [u32],
    },
    /// The drop of an earlier lemma, by its clause number.
    Forget(u32),
}

// What an entry of a log is, and how many literals and hints it has.
#[derive(Clone, Copy, Debug, Drop)]
enum Shape {
    Lemma { literals: u32, hints: u32 },
    Forget(u32),
}

/// A clause log: lemmas and drops, in order. The clauses of a formula are numbered from 1, and the lemmas of a
/// log follow on.
///
/// It takes four bytes for a literal and for a hint, and twelve for an entry.
#[derive(Debug)]
pub struct Log {
    literals: Vec<i32>,
    hints: Vec<u32>,
    shapes: Vec<Shape>,
    lemmas: usize,
}

impl Model for Log {
    ghost use Rattle.std.specs.Prelude.{List};
    ghost use Rattle.clauses.specs.Logs.{LogEntry};

    ghost Value = { List LogEntry };

    ghost use Rattle.clauses.specs.LogFields.{log_of, IsLog};

    ghost view = { log_of };

    ghost invariant = { IsLog };
}

// Written out, so that a caller's proof sees one call where a value is dropped.
impl Drop for Log {
    fn drop(self) {
        let Log {
            literals: _,
            hints: _,
            shapes: _,
            lemmas: _,
        } = self;
    }
}

impl Log {
    /// The empty log. It takes no memory.
    pub fn new(alloc: Global) -> Log
        ensures { result ≡ [] }
    {
        Log {
            literals: Vec::new(alloc),
            hints: Vec::new(alloc),
            shapes: Vec::new(alloc),
            lemmas: 0,
        }
    }

    /// How many lemmas it has.
    pub fn lemmas(&self) -> usize
        ensures { result ≡ lemma_count self.now }
    {
        self.lemmas
    }

    /// Its words: the literals and the hints of each lemma, and two.
    pub fn words(&self) -> usize
        ensures is { result ≡ log_words self.now }
        ensures few { result ≤ MOST_LOG_WORDS }
    {
        self.literals.len() + self.hints.len() + 2 * self.lemmas
    }

    /// Its entries in order.
    pub fn entries(&self) -> Entries<'_>
        ensures { result ≡ self.now }
    {
        Entries {
            literals: self.literals.as_slice(),
            hints: self.hints.as_slice(),
            shapes: self.shapes.as_slice(),
        }
    }

    /// Adds an entry at the end. Where memory is refused, the log stays.
    pub fn push(&mut self, entry: Entry<'_>) -> Result<(), NoMemory>
        requires entry { IsTrue (is_entry (entry_of entry)) }
        requires few { log_words self.old + entry_words (entry_of entry) ≤ MOST_LOG_WORDS }
        ensures ok { OnOk result (self.new ≡ self.old ++ entry_of entry.entry ∷ []) }
        ensures err { OnErr result (self.new ≡ self.old) }
    {
        match entry {
            Entry::Lemma { literals, hints } => self.push_lemma(literals, hints),
            Entry::Forget(number) => {
                self.shapes.push(Shape::Forget(number))?;
                Ok(())
            }
        }
    }

    fn push_lemma(&mut self, literals: &[i32], hints: &[u32]) -> Result<(), NoMemory>
        requires entry { IsTrue (is_entry (Lemma literals.now hints.now)) }
        requires few { log_words self.old + entry_words (Lemma literals.now hints.now) ≤ MOST_LOG_WORDS }
        ensures ok { OnOk result (self.new ≡ self.old ++ Lemma literals.now hints.now ∷ []) }
        ensures err { OnErr result (self.new ≡ self.old) }
    {
        self.literals.reserve(literals.len())?;
        self.hints.reserve(hints.len())?;
        self.shapes.push(Shape::Lemma {
            literals: literals.len() as u32,
            hints: hints.len() as u32,
        })?;
        let (Ok(()), Ok(())) = (
            self.literals.extend_from_slice(literals),
            self.hints.extend_from_slice(hints),
        ) else {
            unreachable!()
        };
        self.lemmas += 1;
        Ok(())
    }
}

/// The entries that are left of a log. Contracts see them as a list.
#[derive(Drop)]
pub struct Entries<'a> {
    literals: &'a [i32],
    hints: &'a [u32],
    shapes: &'a [Shape],
}

impl<'a> Model for Entries<'a> {
    ghost use Rattle.std.specs.Prelude.{List};
    ghost use Rattle.clauses.specs.Logs.{LogEntry};
    ghost use Rattle.clauses.specs.Entries.{entries_of, IsPacked};

    ghost Value = { List LogEntry };

    ghost view = { λ left. entries_of left.literals.now left.hints.now left.shapes.now };

    ghost invariant = { λ left. IsPacked left.literals.now left.hints.now left.shapes.now };
}

impl<'a> Entries<'a> {
    /// The first of the entries that are left, which is then left no more.
    pub fn next(&mut self) -> Option<Entry<'a>>
        ensures next { IsNext result self.old self.new }
        ensures entry { IfSome result (λ entry. IsTrue (is_entry (entry_of entry))) }
    {
        let [shape, rest @ ..] = self.shapes else {
            return None;
        };
        self.shapes = rest;
        match *shape {
            Shape::Lemma { literals, hints } => {
                let (literals, literals_left) = self.literals.split_at(literals as usize);
                let (hints, hints_left) = self.hints.split_at(hints as usize);
                self.literals = literals_left;
                self.hints = hints_left;
                Some(Entry::Lemma { literals, hints })
            }
            Shape::Forget(number) => Some(Entry::Forget(number)),
        }
    }
}
