// The frames of a search.
ghost use Rattle.std.specs.Prelude.{◌≡◌, ◌<◌, ◌≤◌, ◌+◌, ◌-◌, ◌^◌, [], ◌∷◌, ◌++◌};
ghost use Rattle.std.specs.Prelude.{length, slice_get, slice_index_or, slice_set, Some, IsTrue, IfOk, OnOk, OnErr};
ghost use Rattle.std.specs.List.{remove};
ghost use Rattle.clauses.specs.declared.flat.TheConstants.{MOST_VARIABLES};
ghost use Rattle.clauses.specs.Literals.{clauses_within};
ghost use Rattle.word_pool.specs.Region.{list_of, live_ids, used_words, IsLive};
ghost use Rattle.reach_frames.specs.Levels.{clauses_of};
ghost use Rattle.reach_frames.specs.Pooled.{clause_in, literals_of as literals, TakesOut};
ghost use Rattle.reach_frames.specs.Searches.{frame_in, frame_before};
ghost use Rattle.reach_frames.specs.declared.level.KeptClause.{KeptClause};

use crate::level::{KeptClause, Level, Pooled};
use crate::words::{add_clause, literals_of, words_of};
use crate::{Entry, Literals};
use clauses::Clauses;
use psl_base::NoMemory;
use std::alloc::Global;
use std::marker::Model;
use word_pool::{MOST_WORDS, Pool};

/// The frames of a search: frame i is the clauses of level i, and then those of the levels above it.
///
/// The literals of all clauses lie in one pool. A clause that moves to another level keeps its place there, and the
/// words of one that is dropped are used again.
#[derive(Debug, Drop)]
pub struct Frames {
    // A list for each clause.
    pool: Pool,
    levels: Vec<Level>,
}

impl Model for Frames {
    ghost use Rattle.std.specs.Prelude.{List};
    ghost use Rattle.reach_frames.specs.declared.level.KeptClause.{KeptClause};

    ghost Value = { List (List KeptClause) };

    ghost use Rattle.reach_frames.specs.Inside.{levels_in, ArePooled};

    ghost view = { levels_in };

    ghost invariant = { ArePooled };
}

impl Frames {
    /// No frame. It takes no memory.
    pub fn new(alloc: Global) -> Frames
        ensures { result ≡ [] }
    {
        Frames {
            pool: Pool::new(alloc),
            levels: Vec::new(alloc),
        }
    }

    /// How many frames there are.
    pub fn len(&self) -> usize
        ensures { result ≡ length self.now }
    {
        self.levels.len()
    }

    /// How many clauses the last frame has.
    pub fn last_len(&self) -> usize
        requires { 0 < length self.now }
        ensures { result ≡ length (frame_in self.now (length self.now - 1)) }
    {
        self.count_at(self.len() - 1)
    }

    /// Adds a frame behind the others, without clauses.
    pub fn open(&mut self, alloc: Global) -> Result<(), NoMemory>
        ensures ok { OnOk result (self.new ≡ self.old ++ [] ∷ []) }
        ensures err { OnErr result (self.new ≡ self.old) }
    {
        self.pool.compact();
        self.levels.push(Level::new(alloc))?;
        Ok(())
    }

    /// The clauses of a frame. Behind the last one there are none.
    ///
    /// # Errors
    ///
    /// `NoMemory` if memory is refused, or if the clauses have more words than there may be: that is want of memory for a
    /// frame.
    pub fn frame(&self, alloc: Global, place: usize) -> Result<Clauses, NoMemory>
        requires { IsTrue (clauses_within MOST_VARIABLES (frame_in self.now place)) }
        ensures { IfOk result (λ clauses. clauses ≡ frame_in self.now place) }
    {
        let mut clauses = Clauses::new(alloc);
        let mut space = Vec::new(alloc);
        for at in place..self.len() {
            self.add_level(&mut clauses, &mut space, at)?;
        }
        Ok(clauses)
    }

    /// The clauses of the frame before one. Before the first there are none.
    pub(crate) fn before(&self, alloc: Global, place: usize) -> Result<Clauses, NoMemory>
        requires { IsTrue (clauses_within MOST_VARIABLES (frame_before self.now place)) }
        ensures { IfOk result (λ clauses. clauses ≡ frame_before self.now place) }
    {
        if place == 0 {
            return Ok(Clauses::new(alloc));
        }
        self.frame(alloc, place - 1)
    }

    /// Adds the clauses of a level at the end.
    fn add_level(
        &self,
        clauses: &mut Clauses,
        space: &mut Vec<i32>,
        place: usize,
    ) -> Result<(), NoMemory>
        requires place { place < length self.now }
        requires within { IsTrue (clauses_within MOST_VARIABLES (clauses_of (slice_index_or self.now place []))) }
        ensures { OnOk result (clauses.new ≡ clauses.old ++ clauses_of (slice_index_or self.now place [])) }
    {
        for index in 0..self.count_at(place) {
            add_clause(clauses, space, self.words_at(place, index))?;
        }
        Ok(())
    }

    /// How many clauses are kept at a level.
    pub(crate) fn count_at(&self, place: usize) -> usize
        requires { place < length self.now }
        ensures { result ≡ length (slice_index_or self.now place []) }
    {
        self.levels[place].as_slice().len()
    }

    /// The words of a clause of a level.
    pub(crate) fn words_at(&self, place: usize, index: usize) -> &[u32]
        requires place { place < length self.now }
        requires index { index < length (slice_index_or self.now place []) }
        ensures { literals result.now ≡ clause_in self.now place index }
    {
        let pooled = &self.levels[place].as_slice()[index];
        self.pool.get(pooled.id)
    }

    /// A clause of a level.
    pub(crate) fn clause_at(
        &self,
        alloc: Global,
        place: usize,
        index: usize,
    ) -> Result<Literals, NoMemory>
        requires place { place < length self.now }
        requires index { index < length (slice_index_or self.now place []) }
        ensures { IfOk result (λ clause. clause ≡ clause_in self.now place index) }
    {
        literals_of(alloc, self.words_at(place, index))
    }

    /// The witness of a clause of a level.
    pub(crate) fn witness_at(&self, place: usize, index: usize) -> &Option<Entry>
        requires place { place < length self.now }
        requires index { index < length (slice_index_or self.now place []) }
        ensures { (kept : KeptClause) × (slice_get (slice_index_or self.now place []) index ≡ Some kept)
            × (kept.witness ≡ result.now) }
    {
        &self.levels[place].as_slice()[index].witness
    }

    /// Notes the witness of a clause.
    pub(crate) fn note(&mut self, place: usize, index: usize, witness: Entry)
        requires place { place < length self.old }
        requires index { index < length (slice_index_or self.old place []) }
        ensures { (kept : KeptClause) × (slice_get (slice_index_or self.old place []) index ≡ Some kept)
            × (self.new ≡ slice_set self.old place
            (slice_set (slice_index_or self.old place []) index (record kept { witness = Some witness }))) }
    {
        self.levels[place].note(index, witness);
    }

    /// Keeps a clause at the end of a level.
    ///
    /// # Errors
    ///
    /// `NoMemory` if memory is refused, or if the clauses have more words than a pool may have.
    pub(crate) fn keep(
        &mut self,
        alloc: Global,
        place: usize,
        kept: KeptClause,
    ) -> Result<(), NoMemory>
        requires { place < length self.old }
        ensures { OnOk result (self.new ≡ slice_set self.old place (slice_index_or self.old place [] ++ kept ∷ [])) }
    {
        let KeptClause { clause, witness } = kept;
        let words = words_of(alloc, clause.as_slice())?;
        if !has_room(&self.pool, words.len()) {
            return Err(NoMemory);
        }
        let id = self.pool.put(&words)?;
        let pooled = Pooled { id, witness };
        push(&mut self.pool, &mut self.levels[place], pooled)?;
        Ok(())
    }

    /// Drops a clause of a level.
    pub(crate) fn drop_at(&mut self, place: usize, index: usize)
        requires place { place < length self.old }
        requires index { index < length (slice_index_or self.old place []) }
        ensures { self.new ≡ slice_set self.old place (remove (slice_index_or self.old place []) index) }
    {
        let pooled = self.levels[place].remove(index);
        self.pool.give_back(pooled.id);
    }

    /// Moves a clause to the next level, unchanged.
    pub(crate) fn advance(&mut self, place: usize, index: usize) -> Result<(), NoMemory>
        requires place { place + 1 < length self.old }
        requires index { index < length (slice_index_or self.old place []) }
        ensures { OnOk result ((kept : KeptClause) × (slice_get (slice_index_or self.old place []) index ≡ Some kept)
            × (self.new ≡ slice_set (slice_set self.old place (remove (slice_index_or self.old place []) index))
            (place + 1) (slice_index_or self.old (place + 1) [] ++ kept ∷ []))) }
    {
        let pooled = self.levels[place].remove(index);
        push(&mut self.pool, &mut self.levels[place + 1], pooled)?;
        Ok(())
    }
}

/// Whether a pool can take a list of so many words more.
fn has_room(pool: &Pool, words: usize) -> bool
    ensures words { IsTrue result → used_words pool.now + words ≤ MOST_WORDS }
    ensures ids { IsTrue result → live_ids pool.now < 2 ^ 32 - 1 }
{
    words <= (MOST_WORDS - pool.used_words()) as usize && pool.live_ids() < u32::MAX
}

/// Adds a clause at the end of a level. Where memory is refused, its words are given back.
fn push(pool: &mut Pool, level: &mut Level, pooled: Pooled) -> Result<(), NoMemory>
    requires { IsLive pool.old pooled.id }
    ensures ok { OnOk result ((pool.new ≡ pool.old) × (level.new ≡ level.old ++ pooled ∷ [])) }
    ensures err { OnErr result (TakesOut (list_of pool.old) (list_of pool.new) pooled.id × (level.new ≡ level.old)) }
{
    let id = pooled.id;
    match level.push(pooled) {
        Ok(()) => Ok(()),
        Err(refused) => {
            pool.give_back(id);
            Err(refused)
        }
    }
}
