// Clauses in one block of memory.
ghost use Rattle.std.specs.Prelude.{◌≡◌, [], ◌∷◌, ◌++◌, ◌+◌, ◌-◌, ◌<◌, ◌≤◌, length, take, drop, slice_get, Some, IsTrue, OnOk, OnErr};
ghost use Rattle.clauses.specs.Flat as spec;
ghost use Rattle.clauses.specs.Literals.{clause_within, clause_words, words_with};

use psl_base::NoMemory;
use std::alloc::{AllocError, Global};
use std::marker::Model;
use thiserror::Error;

/// The highest variable there may be, and the highest number of a clause.
pub const MOST_VARIABLES: u32 = 2_147_483_647;

/// The most words that clauses have, where a clause counts its literals and one more.
pub const MOST_WORDS: usize = 400_000_000;

/// Why clauses are not there.
#[derive(Clone, Copy, Debug, PartialEq, Eq, Drop, Error)]
pub enum CnfFault {
    /// They would have more words or variables than there may be.
    #[error("too large")]
    TooLarge,
    /// The allocator refused memory.
    #[error("out of memory")]
    NoMemory,
}

impl From<NoMemory> for CnfFault {
    ghost use Rattle.std.specs.Prelude.{◌≡◌};
    ghost use Rattle.clauses.specs.declared.flat.CnfFault.{CnfFault};

    ghost from_gives = { λ refused fault. fault ≡ CnfFault.NoMemory };

    fn from(_refused: NoMemory) -> CnfFault {
        CnfFault::NoMemory
    }
}

impl From<AllocError> for CnfFault {
    ghost use Rattle.std.specs.Prelude.{◌≡◌};
    ghost use Rattle.clauses.specs.declared.flat.CnfFault.{CnfFault};

    ghost from_gives = { λ refused fault. fault ≡ CnfFault.NoMemory };

    fn from(_refused: AllocError) -> CnfFault {
        CnfFault::NoMemory
    }
}

/// Clauses, each of them a list of literals: the variable n, counted from 1, is the number n, and its
/// negation -n.
///
/// They lie one behind another, four bytes for a literal and four for a clause.
#[derive(Debug, Drop)]
pub struct Clauses {
    literals: Vec<i32>,
    // Where each clause ends.
    ends: Vec<u32>,
}

impl Model for Clauses {
    ghost use Rattle.std.specs.Prelude.{List, ℤ};

    ghost Value = { List (List ℤ) };

    ghost use Rattle.clauses.specs.Flat.{clauses_of, IsFlat};

    ghost view = { clauses_of };

    ghost invariant = { IsFlat };
}

impl Clauses {
    /// No clause. It takes no memory.
    pub fn new(alloc: Global) -> Clauses
        ensures { result ≡ [] }
    {
        Clauses {
            literals: Vec::new(alloc),
            ends: Vec::new(alloc),
        }
    }

    /// How many clauses there are.
    pub fn len(&self) -> usize
        ensures { result ≡ length self.now }
    {
        self.ends.len()
    }

    /// Their words: the literals of each clause, and one more.
    pub fn words(&self) -> usize
        ensures is { result ≡ clause_words self.now }
        ensures few { result ≤ MOST_WORDS }
    {
        self.literals.len() + self.ends.len()
    }

    /// The literals of the clause at a place, counted from 0.
    pub fn at(&self, place: usize) -> &[i32]
        requires { place < length self.now }
        ensures is { slice_get self.now place ≡ Some result.now }
        ensures literals { IsTrue (clause_within MOST_VARIABLES result.now) }
    {
        between(
            &self.literals,
            begin_of(&self.ends, place),
            begin_of(&self.ends, place + 1),
        )
    }

    /// Adds a clause at the end.
    ///
    /// # Errors
    ///
    /// `TooLarge` exactly where the words would be too many, and `NoMemory` if memory is refused. The clauses are
    /// then as they were.
    pub fn push(&mut self, clause: &[i32]) -> Result<(), CnfFault>
        requires { IsTrue (clause_within MOST_VARIABLES clause.now) }
        ensures ok { OnOk result (self.new ≡ self.old ++ clause.now ∷ []) }
        ensures fits { OnOk result (words_with self.old clause.now ≤ MOST_WORDS) }
        ensures too_large { result ≡ Err CnfFault.TooLarge → MOST_WORDS < words_with self.old clause.now }
        ensures err { OnErr result (self.new ≡ self.old) }
    {
        if clause.len() >= MOST_WORDS - self.words() {
            return Err(CnfFault::TooLarge);
        }
        self.ends.reserve(1)?;
        self.literals.extend_from_slice(clause)?;
        let end = self.literals.len() as u32;
        let Ok(()) = self.ends.push(end) else {
            unreachable!()
        };
        Ok(())
    }

    /// Keeps the first so many clauses.
    pub fn truncate(&mut self, count: usize)
        ensures { self.new ≡ take count self.old }
    {
        if count < self.ends.len() {
            self.literals.truncate(begin_of(&self.ends, count));
            self.ends.truncate(count);
        }
    }
}

/// Where the list at a place begins, whose end is at that place of the ends.
fn begin_of(ends: &[u32], place: usize) -> usize
    requires { place ≤ length ends.now }
    ensures { result ≡ spec.begin_of 0 ends.now place }
{
    if place == 0 {
        0
    } else {
        ends[place - 1] as usize
    }
}

/// The literals from one place to another.
fn between(literals: &[i32], start: usize, end: usize) -> &[i32]
    requires order { start ≤ end }
    requires within { end ≤ length literals.now }
    ensures { result.now ≡ take (end - start) (drop start literals.now) }
{
    &literals[start..end]
}
