// A clause more in the frames.
ghost use Rattle.std.specs.Prelude.{◌≡◌, ◌<◌, ◌+◌, [], ◌∷◌, ◌++◌, true, false, None, length, map, take, drop};
ghost use Rattle.std.specs.Prelude.{slice_index_or, slice_set, OnOk};
ghost use Rattle.reach_frames.specs.Levels.{clauses_of};
ghost use Rattle.reach_frames.specs.Marks.{has_part as part_in, without_weaker};
ghost use Rattle.reach_frames.specs.Searches.{frame_in};

use crate::level::KeptClause;
use crate::words::{are_part, have_part};
use crate::{Frames, Literals};
use psl_base::NoMemory;
use std::alloc::Global;

impl Frames {
    /// Whether some clause of a frame is a part of this one.
    pub(crate) fn has_part(&self, place: usize, clause: &[i32]) -> bool
        ensures { result ≡ part_in (frame_in self.now place) clause.now }
    {
        for at in place..self.len() {
            if self.level_has_part(at, clause) {
                return true;
            }
        }
        false
    }

    /// Whether some clause of a level is a part of this one.
    fn level_has_part(&self, place: usize, clause: &[i32]) -> bool
        requires { place < length self.now }
        ensures { result ≡ part_in (clauses_of (slice_index_or self.now place [])) clause.now }
    {
        for index in 0..self.count_at(place) {
            if are_part(self.words_at(place, index), clause) {
                return true;
            }
        }
        false
    }

    /// Drops the clauses of which this one is a part, from the levels up to one.
    fn drop_weaker(&mut self, level: usize, clause: &[i32])
        requires { level < length self.old }
        ensures { self.new ≡ map (without_weaker clause.now) (take (level + 1) self.old) ++ drop (level + 1) self.old }
    {
        for at in 0..self.len() {
            if at > level {
                return;
            }
            self.drop_weaker_at(at, clause);
        }
    }

    /// Drops the clauses of which this one is a part, from one level.
    fn drop_weaker_at(&mut self, place: usize, clause: &[i32])
        requires { place < length self.old }
        ensures { self.new ≡ slice_set self.old place (without_weaker clause.now (slice_index_or self.old place [])) }
    {
        let mut index = 0;
        while index < self.count_at(place) {
            if have_part(self.words_at(place, index), clause) {
                self.drop_at(place, index);
            } else {
                index += 1;
            }
        }
    }

    /// Adds a clause at a level, unless it says no more than one that is there or above. What says no more than it is
    /// dropped from the levels up to this one.
    pub(crate) fn add(
        &mut self,
        alloc: Global,
        level: usize,
        clause: Literals,
    ) -> Result<(), NoMemory>
        requires { level < length self.old }
        ensures stays { OnOk result (part_in (frame_in self.old level) clause ≡ true → self.new ≡ self.old) }
        ensures grows { OnOk result (part_in (frame_in self.old level) clause ≡ false → self.new
            ≡ slice_set (map (without_weaker clause) (take (level + 1) self.old) ++ drop (level + 1) self.old) level
            (without_weaker clause (slice_index_or self.old level []) ++ record { clause = clause; witness = None } ∷ [])) }
    {
        if self.has_part(level, clause.as_slice()) {
            return Ok(());
        }
        self.drop_weaker(level, clause.as_slice());
        let kept = KeptClause {
            clause,
            witness: None,
        };
        self.keep(alloc, level, kept)?;
        Ok(())
    }
}
