// The clauses that are kept at one level.
ghost use Rattle.std.specs.Prelude.{◌≡◌, [], ◌∷◌, ◌++◌, ◌<◌};
ghost use Rattle.std.specs.Prelude.{length, slice_get, slice_index_or, slice_set, Some, OnOk, OnErr};
ghost use Rattle.std.specs.List.{remove};
ghost use Rattle.reach_frames.specs.declared.level.Pooled.{Pooled};

use crate::{Entry, Literals};
use psl_base::NoMemory;
use std::alloc::Global;
use std::marker::Model;
use word_pool::Id;

/// A clause of a frame.
///
/// The witness, where there is one, is two neighbouring states, of which the second misses the clause. As long as the
/// first meets the frame, the clause does not hold one frame on.
#[derive(Debug, Drop)]
pub struct KeptClause {
    pub clause: Literals,
    pub witness: Option<Entry>,
}

/// A clause of a frame whose literals lie in a pool, under its id.
#[derive(Debug, Drop)]
pub(crate) struct Pooled {
    pub(crate) id: Id,
    pub(crate) witness: Option<Entry>,
}

/// The clauses that are kept at one level, in order.
#[derive(Debug, Drop)]
pub(crate) struct Level {
    kept: Vec<Pooled>,
}

impl Model for Level {
    ghost use Rattle.std.specs.Prelude.{List};
    ghost use Rattle.reach_frames.specs.declared.level.Pooled.{Pooled};

    ghost Value = { List Pooled };

    ghost view = { λ level. level.kept.items };
}

impl Level {
    /// No clause. It takes no memory.
    pub(crate) fn new(alloc: Global) -> Level
        ensures { result ≡ [] }
    {
        Level {
            kept: Vec::new(alloc),
        }
    }

    /// The clauses in order.
    pub(crate) fn as_slice(&self) -> &[Pooled]
        ensures { result.now ≡ self.now }
    {
        self.kept.as_slice()
    }

    /// Adds a clause at the end.
    pub(crate) fn push(&mut self, kept: Pooled) -> Result<(), NoMemory>
        ensures ok { OnOk result (self.new ≡ self.old ++ kept ∷ []) }
        ensures err { OnErr result (self.new ≡ self.old) }
    {
        self.kept.push(kept)?;
        Ok(())
    }

    /// Takes a clause out.
    pub(crate) fn remove(&mut self, place: usize) -> Pooled
        requires { place < length self.old }
        ensures value { result ≡ slice_index_or self.old place result }
        ensures rest { self.new ≡ remove self.old place }
    {
        self.kept.remove(place)
    }

    /// Notes the witness of a clause.
    pub(crate) fn note(&mut self, place: usize, witness: Entry)
        requires { place < length self.old }
        ensures { (kept : Pooled) × (slice_get self.old place ≡ Some kept)
            × (self.new ≡ slice_set self.old place (record kept { witness = Some witness })) }
    {
        self.kept[place].witness = Some(witness);
    }
}
