// The clauses, the trail and what is watched.
ghost use Rattle.std.specs.Prelude.{IsSomeAnd, ◌⊎◌, ◌-◌, OnErr, ◌≡◌, ◌≢◌, ℕ, [], ◌∷◌, ◌++◌, ◌+◌, ◌*◌, ◌^◌, ◌<◌, ◌≤◌, length, take, slice_index, slice_set, Some, None, IsSome, IfOk, OnOk, IfSome, IfNone};
ghost use Rattle.std.specs.List.{All, Contains};
ghost use Rattle.clauses.specs.Live.{clause_of};
ghost use Rattle.cdcl_trail.specs.Literals.{opposite};
ghost use Rattle.cdcl_trail.specs.Path.{Path, pushed, decided, undone, literals_to, start_of};
ghost use Rattle.cdcl_propagation.specs.State.{State, Extends, IsConflict, IsSettled, CanWatch, CanLearn};
ghost use Rattle.cdcl_propagation.specs.Adding.{KeepsClauses};
ghost use Rattle.cdcl_propagation.specs.Visits.{StopsFor};
ghost use Rattle.clause_store.specs.Stored.{stored_words};
ghost use Rattle.clause_store.specs.declared.region.TheConstants.{MOST_WORDS};

use crate::adding::{add, empty_lists, store};
use crate::others::others_of;
use crate::visit::clause_at;
use crate::watch::{NO_PAIR, Packed, Pair, Stop, WatchList, close_gap};
use crate::work::visit_list;
use cdcl_trail::{Trail, opposite};
use clause_store::Store;
use psl_base::NoMemory;
use std::alloc::Global;
use std::marker::Model;

/// Clauses by number, a trail, and the means to find what the clauses make true along it.
///
/// Literals are numbers: 2v for the variable v, counted from 0, and 2v + 1 for its negation. Clauses are numbered from
/// 1, in the order in which they come, and keep their numbers.
pub struct Propagator {
    clauses: Store,
    trail: Trail,
    // By clause number; nothing has the number 0.
    pairs: Vec<Pair>,
    // By literal.
    lists: Vec<WatchList>,
    // The list that is worked on.
    working: Vec<Packed>,
    // How many literals of the trail were propagated.
    head: usize,
}

impl Model for Propagator {
    ghost use Rattle.cdcl_propagation.specs.State.{State};

    ghost Value = { State };

    ghost use Rattle.cdcl_propagation.specs.Fields.{state_of, IsPropagator};

    ghost view = { state_of };

    ghost invariant = { IsPropagator };
}

// Written out, so that a caller's proof sees one call where a value is dropped.
impl Drop for Propagator {
    fn drop(self) {
        let Propagator {
            clauses: _,
            trail: _,
            pairs: _,
            lists: _,
            working: _,
            head: _,
        } = self;
    }
}

impl Propagator {
    /// No clause, and the trail of so many variables on which no literal is true.
    pub fn new(alloc: Global, variables: u32) -> Result<Propagator, NoMemory>
        requires { variables < 2 ^ 31 }
        ensures { IfOk result (λ propagator. propagator ≡ record {
          clauses = [];
          path = record { variables = variables; literals = []; reasons = []; limits = [] };
          head = 0;
        }) }
    {
        let mut pairs = Vec::new(alloc);
        pairs.push(NO_PAIR)?;
        Ok(Propagator {
            clauses: Store::new(alloc),
            trail: Trail::new(alloc, variables)?,
            pairs,
            lists: empty_lists(alloc, 2 * variables as usize)?,
            working: Vec::new(alloc),
            head: 0,
        })
    }

    /// The trail, and what holds at every moment: reasons, and where propagation has ended.
    pub fn trail(&self) -> &Trail
        ensures is { result.now ≡ self.now.path }
        ensures settled { IsSettled self.now }
    {
        let _on_trail = self.trail.literals();
        &self.trail
    }

    /// The clauses, of which that with the number n stands at the place n - 1.
    pub fn clauses(&self) -> &Store
        ensures { result.now ≡ self.now.clauses }
    {
        &self.clauses
    }

    /// The live clause of a number.
    pub fn clause(&self, number: u32) -> Option<&[u32]>
        ensures some { IfSome result (λ clause. clause_of self.now.clauses number ≡ Some clause.now) }
        ensures none { IfNone result (clause_of self.now.clauses number ≡ None) }
    {
        clause_at(&self.clauses, number)
    }

    /// Makes true what the clauses make true along the trail, in turn, up to the first clause of which all literals are
    /// false. It gives the number of that clause.
    ///
    /// # Errors
    ///
    /// `NoMemory` if memory is refused.
    pub fn propagate(&mut self) -> Result<Option<u32>, NoMemory>
        ensures clauses { self.new.clauses ≡ self.old.clauses }
        ensures grown { Extends self.old.path self.new.path }
        ensures ended { IfOk result (λ conflict. IfNone conflict (self.new.head ≡ length self.new.path.literals)) }
        ensures conflict { IfOk result (λ conflict. IfSome conflict (IsConflict self.new.clauses self.new.path)) }
    {
        while self.head < self.trail.literals().len() {
            match self.propagate_next() {
                None => {}
                Some(Stop::Conflict(number)) => return Ok(Some(number)),
                Some(Stop::NoMemory) => return Err(NoMemory),
            }
        }
        Ok(None)
    }

    /// Propagates the next literal of the trail.
    fn propagate_next(&mut self) -> Option<Stop>
        requires { self.old.head < length self.old.path.literals }
        ensures clauses { self.new.clauses ≡ self.old.clauses }
        ensures grown { Extends self.old.path self.new.path }
        ensures ended { IfNone result (self.new.head ≡ self.old.head + 1) }
        ensures stopped { IfSome result (StopsFor self.new.clauses self.new.path) }
    {
        let literal = opposite(self.trail.literals()[self.head]);
        self.lists[literal as usize].swap(&mut self.working);
        let gap = visit_list(
            &self.clauses,
            &mut self.pairs,
            &mut self.lists,
            &mut self.trail,
            &mut self.working,
            self.head,
        );
        close_gap(&mut self.working, gap.kept, gap.next);
        self.lists[literal as usize].swap(&mut self.working);
        if gap.stop.is_none() {
            self.head += 1;
        }
        gap.stop
    }

    /// Begins a level with a literal that is neither true nor false, where all of the trail was propagated.
    pub fn decide(&mut self, literal: u32)
        requires within { literal < 2 * self.old.path.variables }
        requires not_true { Contains self.old.path.literals literal → ⊥ }
        requires not_false { Contains self.old.path.literals (opposite literal) → ⊥ }
        requires propagated { self.old.head ≡ length self.old.path.literals }
        ensures { self.new ≡ record self.old { path = decided self.old.path literal } }
    {
        self.trail.decide(literal);
    }

    /// Takes back all above a level.
    pub fn undo_to(&mut self, level: usize)
        requires { level < length self.old.path.limits }
        ensures { self.new ≡ record self.old { path = undone self.old.path level; head = start_of self.old.path level } }
    {
        self.head = self.trail.limits()[level] as usize;
        self.trail.undo_to(level);
    }

    /// Drops a clause of more than two literals that is the reason of none of the trail. It takes no memory.
    pub fn remove(&mut self, number: u32)
        requires long { IsSomeAnd (clause_of self.old.clauses number) (λ clause. 2 < length clause) }
        requires unused { All (λ reason. reason ≢ number) self.old.path.reasons }
        ensures { self.new ≡ record self.old { clauses = slice_set self.old.clauses (number - 1) None } }
    {
        self.clauses.remove(number as usize - 1);
    }

    /// Adds a clause, of which two literals are to be watched. It gets the next number.
    ///
    /// # Errors
    ///
    /// `NoMemory` if memory is refused. The trail, and the clauses that there are, then stay.
    pub fn attach(&mut self, clause: &[u32], first: u32, second: u32) -> Result<(), NoMemory>
        requires within { All (λ literal. literal < 2 * self.old.path.variables) clause.now }
        requires first { Contains clause.now first }
        requires second { Contains clause.now second }
        requires differ { first ≢ second }
        requires first_watch { CanWatch self.old first }
        requires second_watch { CanWatch self.old second }
        requires words { stored_words self.old.clauses + length clause.now ≤ MOST_WORDS }
        requires numbers { length self.old.clauses < 2 ^ 31 - 1 }
        ensures ok { OnOk result (self.new ≡ record self.old { clauses = self.old.clauses ++ Some clause.now ∷ [] }) }
        ensures err_clauses { OnErr result (KeepsClauses self.old.clauses self.new.clauses) }
        ensures err { OnErr result ((self.new.path ≡ self.old.path) × (self.new.head ≡ self.old.head)) }
    {
        let others = others_of(clause, first, second);
        add(
            &mut self.clauses,
            &mut self.pairs,
            &mut self.lists,
            clause,
            Pair {
                first,
                second,
                others,
            },
        )?;
        Ok(())
    }

    /// Adds a clause, of which all literals are false but the first, and makes that one true because of it.
    ///
    /// # Errors
    ///
    /// `NoMemory` if memory is refused. The trail, and the clauses that there are, then stay.
    pub fn learn(&mut self, clause: &[u32], first: u32, second: u32) -> Result<(), NoMemory>
        requires within { All (λ literal. literal < 2 * self.old.path.variables) clause.now }
        requires learn { CanLearn self.old.path clause.now first second }
        requires words { stored_words self.old.clauses + length clause.now ≤ MOST_WORDS }
        requires numbers { length self.old.clauses < 2 ^ 31 - 1 }
        ensures ok { OnOk result (self.new ≡ record self.old {
          clauses = self.old.clauses ++ Some clause.now ∷ [];
          path = pushed self.old.path first (length self.old.clauses + 1);
        }) }
        ensures err_clauses { OnErr result (KeepsClauses self.old.clauses self.new.clauses) }
        ensures err { OnErr result ((self.new.path ≡ self.old.path) × (self.new.head ≡ self.old.head)) }
    {
        let others = others_of(clause, first, second);
        let number = add(
            &mut self.clauses,
            &mut self.pairs,
            &mut self.lists,
            clause,
            Pair {
                first,
                second,
                others,
            },
        )?;
        self.trail.push(first, number);
        Ok(())
    }

    /// Adds a clause of one literal, however often it stands there, and makes that one true because of it. There is
    /// no level but the lowest.
    ///
    /// # Errors
    ///
    /// `NoMemory` if memory is refused. The trail, and the clauses that there are, then stay.
    pub fn attach_unit(&mut self, clause: &[u32], literal: u32) -> Result<(), NoMemory>
        requires within { All (λ literal. literal < 2 * self.old.path.variables) clause.now }
        requires has { Contains clause.now literal }
        requires alone { All (λ other. other ≡ literal) clause.now }
        requires lowest { self.old.path.limits ≡ [] }
        requires not_false { Contains self.old.path.literals (opposite literal) → ⊥ }
        requires words { stored_words self.old.clauses + length clause.now ≤ MOST_WORDS }
        requires numbers { length self.old.clauses < 2 ^ 31 - 1 }
        ensures clauses { OnOk result (self.new.clauses ≡ self.old.clauses ++ Some clause.now ∷ []) }
        ensures was_true { OnOk result (Contains self.old.path.literals literal → self.new.path ≡ self.old.path) }
        ensures asserted { OnOk result ((Contains self.old.path.literals literal → ⊥)
            → self.new.path ≡ pushed self.old.path literal (length self.old.clauses + 1)) }
        ensures variables { self.new.path.variables ≡ self.old.path.variables }
        ensures limits { self.new.path.limits ≡ self.old.path.limits }
        ensures head { self.new.head ≡ self.old.head }
        ensures err_clauses { OnErr result (KeepsClauses self.old.clauses self.new.clauses) }
        ensures err { OnErr result (self.new.path ≡ self.old.path) }
    {
        let pair = Pair {
            first: literal,
            second: literal,
            others: others_of(clause, literal, literal),
        };
        let number = store(&mut self.clauses, &mut self.pairs, clause, pair)?;
        if !self.trail.is_true(literal) {
            self.trail.push(literal, number);
        }
        Ok(())
    }
}
