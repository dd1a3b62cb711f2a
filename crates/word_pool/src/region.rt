// The pool: its table of ids, its room and its public calls.
ghost use Rattle.std.specs.Prelude.{◌≡◌, ◌≢◌, ℕ, ◌+◌, ◌-◌, ◌<◌, ◌≤◌, ◌^◌, ◌↔◌};
ghost use Rattle.std.specs.Prelude.{length, IsTrue, IfOk, OnOk, OnErr, IfSome, IfNone, Some, None};
ghost use Rattle.std.specs.FinMap.{empty, insert, remove};
ghost use Rattle.word_pool.specs.Region.{used_words, live_ids, filled_words, list_of, IsLive, IsBounded, KeepsRoom};

use crate::free::{LONGEST_LISTED, NO_RUN, add_lengths, first_run, list_run, use_run};
use crate::runs::{Run, close_gaps, has_run, live_run};
use psl_base::NoMemory;
use std::alloc::Global;
use std::marker::Model;

/// The most words that the region of a pool has, those of its lists and the free ones together.
pub const MOST_WORDS: u32 = 1_000_000_000;

/// The name of a list in a pool, which stays the same until the list is given back.
///
/// Contracts see it as a number. After `give_back` the pool may hand the same id out again.
#[derive(Clone, Copy, Debug, PartialEq, Eq, PartialOrd, Ord, Hash)]
pub struct Id {
    index: u32,
}

impl Model for Id {
    ghost use Rattle.std.specs.Prelude.{ℕ};

    ghost Value = { ℕ };

    ghost view = { λ id. id.index };

    ghost inverse = { λ n. record { index = n } };
}

/// Lists of words under stable ids, in one region.
///
/// Contracts see a map from the live ids to their lists, and three numbers. Words and ids that are
/// spare can be put with no more memory, and free words are those of the region that no list has.
/// Words given back are free at once: `put` gives them to a list of just their length, and they are
/// spare when the pool is compacted. An id given back is spare at once.
#[derive(Debug, Drop)]
pub struct Pool {
    // The region: the runs of the live ids, and between them words that were given back.
    words: Vec<u32>,
    // By id, where its words lie. None for an id that is not live.
    slots: Vec<Option<Run>>,
    // The ids of the table that are not live. The last one is handed out next.
    vacant: Vec<u32>,
    // By length, where the first free run of so many words begins, or `NO_RUN`.
    firsts: Vec<u32>,
    // The words of all runs together.
    used: usize,
    // How long the region may become with no more memory.
    room: usize,
}

impl Model for Pool {
    ghost use Rattle.word_pool.specs.Region.{Region, region_code};

    ghost Value = { Region };

    ghost coded = { region_code };

    ghost use Rattle.word_pool.specs.Inside.{region_of, IsSound};

    ghost view = { region_of };

    ghost invariant = { IsSound };
}

impl Pool {
    /// A pool with no list. It takes no memory.
    pub fn new(alloc: Global) -> Pool
        ensures lists { result.lists ≡ empty }
        ensures used { used_words result ≡ 0 }
        ensures live { live_ids result ≡ 0 }
        ensures spare_words { result.spare_words ≡ 0 }
        ensures spare_ids { result.spare_ids ≡ 0 }
        ensures free_words { result.free_words ≡ 0 }
        ensures bounded { IsBounded result }
    {
        Pool {
            words: Vec::new(alloc),
            slots: Vec::new(alloc),
            vacant: Vec::new(alloc),
            firsts: Vec::new(alloc),
            used: 0,
            room: 0,
        }
    }

    /// Stores a copy of the words under an id that was not live, and answers the id.
    ///
    /// # Errors
    ///
    /// `NoMemory` if memory is refused. The lists stay.
    pub fn put(&mut self, words: &[u32]) -> Result<Id, NoMemory>
        requires words { used_words self.old + length words.now ≤ MOST_WORDS }
        requires ids { live_ids self.old < 2 ^ 32 - 1 }

        ensures new_id { IfOk result (λ id. list_of self.old id ≡ None) }
        ensures lists { IfOk result (λ id. self.new.lists ≡ insert self.old.lists id words.now) }
        ensures stored { IfOk result (λ id. list_of self.new id ≡ Some words.now) }
        ensures others { IfOk result (λ id. (other : ℕ) → other ≢ id
            → list_of self.new other ≡ list_of self.old other) }
        ensures used { OnOk result (used_words self.new ≡ used_words self.old + length words.now) }
        ensures live { OnOk result (live_ids self.new ≡ live_ids self.old + 1) }

        // What it may take of the three numbers.
        ensures spare_words { self.old.spare_words ≤ self.new.spare_words + length words.now }
        ensures spare_ids { self.old.spare_ids ≤ self.new.spare_ids + 1 }
        ensures free_words { self.old.free_words ≤ self.new.free_words + length words.now }
        ensures bounded { IsBounded self.new }

        ensures refused { OnErr result (self.new.lists ≡ self.old.lists) }
        ensures refused_room { OnErr result (KeepsRoom self.old self.new) }
    {
        self.reserve_ids(1)?;
        if let Some(id) = self.put_again(words) {
            return Ok(id);
        }
        self.list_length(words.len())?;
        self.reserve_words(words.len())?;
        Ok(self.put_reserved(words))
    }

    // Stores a copy of the words in a free run of just their length, if one is listed.
    fn put_again(&mut self, words: &[u32]) -> Option<Id>
        requires ids { 1 ≤ self.old.spare_ids }

        ensures new_id { IfSome result (λ id. list_of self.old id ≡ None) }
        ensures lists { IfSome result (λ id. self.new.lists ≡ insert self.old.lists id words.now) }
        ensures stored { IfSome result (λ id. list_of self.new id ≡ Some words.now) }
        ensures others { IfSome result (λ id. (other : ℕ) → other ≢ id
            → list_of self.new other ≡ list_of self.old other) }
        ensures used { IfSome result (λ _. used_words self.new ≡ used_words self.old + length words.now) }
        ensures live { IfSome result (λ _. live_ids self.new ≡ live_ids self.old + 1) }
        ensures spare_words { self.new.spare_words ≡ self.old.spare_words }
        ensures spare_ids { IfSome result (λ _. self.new.spare_ids + 1 ≡ self.old.spare_ids) }
        ensures free_words { IfSome result (λ _. self.new.free_words + length words.now ≡ self.old.free_words) }
        ensures bounded { IsBounded self.new }
        ensures none { IfNone result (self.new ≡ self.old) }
    {
        let offset = first_run(&self.firsts, words.len())?;
        let Some(index) = self.vacant.pop() else {
            unreachable!()
        };
        use_run(&mut self.words, &mut self.firsts, offset, words);
        self.slots[index as usize] = Some(Run {
            offset,
            length: words.len() as u32,
            head: 0,
        });
        self.used += words.len();
        Some(Id { index })
    }

    // Sees to it that runs of a length are listed once they are free.
    fn list_length(&mut self, size: usize) -> Result<(), NoMemory>
        ensures { self.new ≡ self.old }
    {
        if size <= LONGEST_LISTED && self.firsts.len() <= size {
            add_lengths(&mut self.firsts, size)?;
        }
        Ok(())
    }

    /// The words of a live id.
    pub fn get(&self, id: Id) -> &[u32]
        requires live { IsLive self.now id }
        ensures list { list_of self.now id ≡ Some result.now }
    {
        let run = live_run(&self.slots, id.index);
        &self.words[run.offset as usize..][..run.length as usize]
    }

    /// Takes a live id out, in constant time. Its words are free from then on, and the id is spare.
    pub fn give_back(&mut self, id: Id)
        requires live { IsLive self.old id }

        ensures lists { self.new.lists ≡ remove self.old.lists id }
        ensures gone { list_of self.new id ≡ None }
        ensures others { (other : ℕ) → other ≢ id → list_of self.new other ≡ list_of self.old other }
        ensures used { IfSome (list_of self.old id) (λ words.
            used_words self.old ≡ used_words self.new + length words) }
        ensures live_ids { live_ids self.old ≡ live_ids self.new + 1 }

        ensures spare_ids { self.new.spare_ids ≡ self.old.spare_ids + 1 }
        ensures free_words { IfSome (list_of self.old id) (λ words.
            self.new.free_words ≡ self.old.free_words + length words) }
        ensures spare_words { self.old.spare_words ≤ self.new.spare_words }
        ensures bounded { IsBounded self.new }
    {
        let run = live_run(&self.slots, id.index);
        self.slots[id.index as usize] = None;
        self.used -= run.length as usize;
        list_run(&mut self.words, &mut self.firsts, run);
        let Ok(()) = self.vacant.push(id.index) else {
            unreachable!()
        };
    }

    /// Makes room: afterwards so many words and ids can be put with no more memory.
    ///
    /// # Errors
    ///
    /// `NoMemory` if memory is refused. The lists stay, and there is no less room than before.
    pub fn reserve(&mut self, words: u32, ids: u32) -> Result<(), NoMemory>
        requires words { used_words self.old + words ≤ MOST_WORDS }
        requires ids { live_ids self.old + ids < 2 ^ 32 }

        ensures spare_words { OnOk result (words ≤ self.new.spare_words) }
        ensures spare_ids { OnOk result (ids ≤ self.new.spare_ids) }

        // Whatever the answer.
        ensures lists { self.new.lists ≡ self.old.lists }
        ensures room { KeepsRoom self.old self.new }
        ensures bounded { IsBounded self.new }
    {
        self.reserve_words(words as usize)?;
        self.reserve_ids(ids as usize)
    }

    // Makes the spare words at least so many.
    fn reserve_words(&mut self, count: usize) -> Result<(), NoMemory>
        requires words { used_words self.old + count ≤ MOST_WORDS }
        ensures spare_words { OnOk result (count ≤ self.new.spare_words) }
        ensures spare_ids { self.new.spare_ids ≡ self.old.spare_ids }
        ensures lists { self.new.lists ≡ self.old.lists }
        ensures room { KeepsRoom self.old self.new }
        ensures bounded { IsBounded self.new }
    {
        if count <= self.room - self.words.len() {
            return Ok(());
        }
        if self.words.len() + count > MOST_WORDS as usize {
            self.compact();
        }
        self.grow(count)
    }

    // Makes the spare words at least so many, behind the words that are there.
    fn grow(&mut self, count: usize) -> Result<(), NoMemory>
        requires words { filled_words self.old + count ≤ MOST_WORDS }
        ensures spare_words { OnOk result (count ≤ self.new.spare_words) }
        ensures spare_ids { self.new.spare_ids ≡ self.old.spare_ids }
        ensures lists { self.new.lists ≡ self.old.lists }
        ensures room { KeepsRoom self.old self.new }
        ensures bounded { IsBounded self.new }
    {
        self.words.reserve(count)?;
        self.room = self.room.max(self.words.len() + count);
        Ok(())
    }

    // Makes the spare ids at least so many.
    fn reserve_ids(&mut self, count: usize) -> Result<(), NoMemory>
        requires ids { live_ids self.old + count < 2 ^ 32 }
        ensures ok { OnOk result (count ≤ self.new.spare_ids) }
        ensures spare_ids { self.old.spare_ids ≤ self.new.spare_ids }
        ensures lists { self.new.lists ≡ self.old.lists }
        ensures spare_words { self.new.spare_words ≡ self.old.spare_words }
        ensures free_words { self.new.free_words ≡ self.old.free_words }
        ensures bounded { IsBounded self.new }
    {
        for _ in self.vacant.len()..count {
            self.add_vacant()?;
        }
        Ok(())
    }

    // Adds an id to the table that is not live.
    fn add_vacant(&mut self) -> Result<(), NoMemory>
        requires ids { live_ids self.old + self.old.spare_ids < 2 ^ 32 - 1 }
        ensures spare_ids { OnOk result (self.new.spare_ids ≡ self.old.spare_ids + 1) }
        ensures refused { OnErr result (self.new.spare_ids ≡ self.old.spare_ids) }
        ensures lists { self.new.lists ≡ self.old.lists }
        ensures spare_words { self.new.spare_words ≡ self.old.spare_words }
        ensures free_words { self.new.free_words ≡ self.old.free_words }
        ensures bounded { IsBounded self.new }
    {
        let id = self.slots.len();
        // Room for every id of the table, so that each can be given back with no more memory.
        self.vacant.reserve(id + 1 - self.vacant.len())?;
        self.slots.push(None)?;
        let Ok(()) = self.vacant.push(id as u32) else {
            unreachable!()
        };
        Ok(())
    }

    /// Stores a copy of the words under an id that was not live, in room that was reserved.
    pub fn put_reserved(&mut self, words: &[u32]) -> Id
        requires words { length words.now ≤ self.old.spare_words }
        requires ids { 1 ≤ self.old.spare_ids }

        ensures new_id { list_of self.old result ≡ None }
        ensures lists { self.new.lists ≡ insert self.old.lists result words.now }
        ensures stored { list_of self.new result ≡ Some words.now }
        ensures others { (other : ℕ) → other ≢ result → list_of self.new other ≡ list_of self.old other }
        ensures used { used_words self.new ≡ used_words self.old + length words.now }
        ensures live { live_ids self.new ≡ live_ids self.old + 1 }

        ensures spare_words { self.new.spare_words + length words.now ≡ self.old.spare_words }
        ensures spare_ids { self.new.spare_ids + 1 ≡ self.old.spare_ids }
        ensures free_words { self.old.free_words ≤ self.new.free_words + length words.now }
        ensures bounded { IsBounded self.new }
    {
        let Some(index) = self.vacant.pop() else {
            unreachable!()
        };
        let offset = self.words.len();
        let Ok(()) = self.words.extend_from_slice(words) else {
            unreachable!()
        };
        self.slots[index as usize] = Some(Run {
            offset: offset as u32,
            length: words.len() as u32,
            head: 0,
        });
        self.used += words.len();
        Id { index }
    }

    /// Moves the lists together, so that every free word becomes spare.
    ///
    /// It takes no memory, and walks once over the table and once over the region. No free run is listed then.
    pub fn compact(&mut self)
        ensures lists { self.new.lists ≡ self.old.lists }
        ensures spare_ids { self.new.spare_ids ≡ self.old.spare_ids }
        ensures free_words { self.new.free_words ≡ self.old.free_words }
        ensures spare_words { self.old.free_words ≤ self.new.spare_words }
        ensures bounded { IsBounded self.new }
    {
        if self.used < self.words.len() {
            let end = close_gaps(&mut self.words, &mut self.slots);
            self.words.truncate(end);
            self.firsts.fill(NO_RUN);
        }
    }

    /// Whether the id is live.
    pub fn is_live(&self, id: Id) -> bool
        ensures live { IsTrue result ↔ IsLive self.now id }
    {
        has_run(&self.slots, id.index)
    }

    /// The words of all lists together.
    pub fn used_words(&self) -> u32
        ensures used { result ≡ used_words self.now }
        ensures bounded { IsBounded self.now }
    {
        self.used as u32
    }

    /// The words of the region that no list has: those given back, and those reserved and not yet put.
    pub fn free_words(&self) -> u32
        ensures free { result ≡ self.now.free_words }
        ensures bounded { IsBounded self.now }
    {
        (self.room - self.used) as u32
    }

    /// How many ids are live.
    pub fn live_ids(&self) -> u32
        ensures live { result ≡ live_ids self.now }
    {
        (self.slots.len() - self.vacant.len()) as u32
    }
}
