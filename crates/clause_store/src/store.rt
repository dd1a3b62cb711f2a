ghost use Rattle.std.specs.Prelude.{◌≡◌, [], ◌∷◌, ◌++◌, ◌+◌, ◌-◌, ◌^◌, ◌<◌, ◌≤◌, length, slice_index_or, slice_set, Some, None, IsSome, IfSome, IfNone, OnOk, OnErr};
ghost use Rattle.clause_store.specs.Stored.{stored_words, live_clauses};
ghost use Rattle.clause_store.specs.declared.region.TheConstants.{MOST_WORDS};

use crate::region::{clause_at, compact, make_room, take_out};
use psl_base::NoMemory;
use std::alloc::Global;
use std::marker::Model;

/// Clauses by place, counted from 0. Each clause gets the next place, and keeps it until it is taken out; a place is
/// never used again. A clause is a list of words, such as the codes of its literals.
///
/// The words lie in one region, in the order of the places. Words of clauses that were taken out are used again.
#[derive(Drop)]
pub struct Store {
    // The words of the clauses, and between them those of clauses that were taken out.
    words: Vec<u32>,
    // By place: twice where its words end, and one more if the clause was taken out. The words begin where those of
    // the place before end.
    ends: Vec<u32>,
    // The words of the clauses that are there.
    used: u32,
    // How many clauses are there.
    live: u32,
}

impl Model for Store {
    ghost use Rattle.std.specs.Prelude.{List, Option, ℕ};
    ghost use Rattle.clause_store.specs.Fields.{clauses_of, IsStore};

    ghost Value = { List (Option (List ℕ)) };

    ghost view = { λ store. clauses_of store.words.items store.ends.items };

    ghost invariant = { IsStore };
}

impl Store {
    /// No clause. It takes no memory.
    pub fn new(alloc: Global) -> Store
        ensures { result ≡ [] }
    {
        Store {
            words: Vec::new(alloc),
            ends: Vec::new(alloc),
            used: 0,
            live: 0,
        }
    }

    /// How many places were given.
    pub fn len(&self) -> usize
        ensures { result ≡ length self.now }
    {
        self.ends.len()
    }

    /// How many clauses there are.
    pub fn live(&self) -> u32
        ensures { result ≡ live_clauses self.now }
    {
        self.live
    }

    /// The words of all clauses together.
    pub fn words(&self) -> u32
        ensures { result ≡ stored_words self.now }
    {
        self.used
    }

    /// The clause at a place. None where it was taken out, or none was put there yet.
    pub fn get(&self, place: usize) -> Option<&[u32]>
        ensures some { IfSome result (λ words. slice_index_or self.now place None ≡ Some words.now) }
        ensures none { IfNone result (slice_index_or self.now place None ≡ None) }
    {
        clause_at(&self.words, &self.ends, place)
    }

    /// Adds a clause, at the next place. Where memory is refused, the clauses stay.
    pub fn push(&mut self, words: &[u32]) -> Result<(), NoMemory>
        requires words { stored_words self.old + length words.now ≤ MOST_WORDS }
        requires live { live_clauses self.old < 2 ^ 32 - 1 }
        ensures ok { OnOk result (self.new ≡ self.old ++ Some words.now ∷ []) }
        ensures err { OnErr result (self.new ≡ self.old) }
    {
        make_room(&mut self.words, &mut self.ends, words.len());
        self.ends.reserve(1)?;
        self.words.extend_from_slice(words)?;
        self.ends.push_reserved(2 * self.words.len() as u32);
        self.used += words.len() as u32;
        self.live += 1;
        Ok(())
    }

    /// Takes out the clause at a place. It takes no memory.
    pub fn remove(&mut self, place: usize)
        requires { IsSome (slice_index_or self.old place None) }
        ensures { self.new ≡ slice_set self.old place None }
    {
        self.used -= take_out(&mut self.ends, place);
        self.live -= 1;
        self.compact_seldom();
    }

    /// Moves the clauses together where that is less work than was done since the last time.
    fn compact_seldom(&mut self)
        ensures { self.new ≡ self.old }
    {
        let used = self.used as usize;
        if self.words.len() > 2 * used + self.ends.len() {
            self.compact();
        }
    }

    /// Moves the clauses together, so that words of clauses that were taken out can be used again.
    pub fn compact(&mut self)
        ensures { self.new ≡ self.old }
    {
        compact(&mut self.words, &mut self.ends);
    }
}
