// The analysis of a conflict.
ghost use Rattle.std.specs.Prelude.{◌≡◌, ◌≤◌, ◌<◌, ℕ, length, slice_index, OnOk, IfOk};
ghost use Rattle.cdcl_conflict_theory.specs.Trails.{size_of, IsTrail, IsConflict, KnowsPlaces, HasEnded};
ghost use Rattle.cdcl_conflict.specs.Views.{steps_of};
ghost use Rattle.cdcl_conflict_theory.specs.Lemmas.{IsLearned, IsRefuted};

use crate::collect::Lemma;
use crate::implied::Memory;
use crate::search::search_and_clear;
use crate::standing::Standing;
use crate::view::TrailView;
use clause_store::Store;
use psl_base::NoMemory;
use std::alloc::Global;
use std::marker::Model;

/// What the analysis of conflicts needs beside the trail, for trails of up to so many places. It is used again and
/// again. Contracts see it as that number.
#[derive(Drop)]
pub struct Analyzer {
    // By place.
    standings: Vec<Standing>,
    // The places of which something is known.
    reached: Vec<u32>,
    memory: Memory,
}

impl Model for Analyzer {
    ghost use Rattle.std.specs.Prelude.{ℕ, length};

    ghost Value = { ℕ };

    ghost use Rattle.cdcl_conflict.specs.Standings.{IsClear};

    ghost view = { λ analyzer. length analyzer.standings.items };

    ghost invariant = { λ analyzer. IsClear analyzer.standings.items };
}

impl Analyzer {
    /// An analyzer for trails of up to so many places.
    pub fn new(alloc: Global, places: usize) -> Result<Analyzer, NoMemory>
        ensures { IfOk result (λ analyzer. analyzer ≡ places) }
    {
        Ok(Analyzer {
            standings: vec![in alloc; Standing::Untouched; places]?,
            reached: Vec::new(alloc),
            memory: Memory::new(alloc, places)?,
        })
    }

    /// Learns from a conflict: a live clause that is false on the trail, given by its number. What `lemma` has is
    /// overwritten.
    ///
    /// Above level 0, where propagation had ended below the current level, that is a lemma with the hints that it
    /// passes by, in the order of propagation. Its first literal is the negation of the first unique implication
    /// point, which the lemma asserts; the second, where there is one, is of the highest level of the others. At
    /// level 0 it is the empty lemma with its hints.
    ///
    /// It reads the conflict, the reasons of the places that it explains or might explain, and the places of the
    /// current level; beside that it sorts the places that it reached.
    ///
    /// # Errors
    ///
    /// `NoMemory` if memory is refused. The lemma is then of no use.
    pub fn analyze(
        &mut self,
        conflict: u32,
        trail: &TrailView<'_>,
        clauses: &Store,
        lemma: &mut Lemma,
    ) -> Result<(), NoMemory>
        requires trail { IsTrail clauses.now (steps_of trail.now) }
        requires places { KnowsPlaces (steps_of trail.now) trail.now.places.now }
        requires conflict { IsConflict clauses.now (steps_of trail.now) conflict }
        requires room { size_of (steps_of trail.now) ≤ self.old }
        ensures learned { OnOk result (HasEnded clauses.now (steps_of trail.now)
            → IsLearned clauses.now (steps_of trail.now) lemma.new.literals.items lemma.new.hints.items) }
        ensures refuted { OnOk result (trail.now.fixed ≡ size_of (steps_of trail.now)
            → IsRefuted clauses.now lemma.new.literals.items lemma.new.hints.items) }
        ensures room { self.new ≡ self.old }
    {
        search_and_clear(
            conflict,
            trail,
            clauses,
            self.standings.as_mut_slice(),
            &mut self.reached,
            &mut self.memory,
            lemma,
        )
    }

    /// The places that the last analysis reached. It is of use to heuristics alone, and no clause speaks of it.
    pub fn reached(&self) -> &[u32] {
        &self.reached
    }
}
