// A solver that is asked again and again, while its formula grows.
ghost use Rattle.std.specs.Prelude.{◌≡◌, ◌≢◌, ℕ, [], ◌∷◌, ◌++◌, suc, ◌+◌, ◌*◌, ◌<◌, ◌≤◌, length, map, take, false, true, slice_index_or, slice_index, IsTrue, IsSomeAnd, IfOk, OnOk, OnErr, IfSome, IfNone, Err, List, ℤ};
ghost use Rattle.std.specs.Bool.{OnTrue, OnFalse};
ghost use Rattle.std.specs.List.{All, Contains};
ghost use Rattle.clauses.specs.declared.flat.TheConstants.{MOST_VARIABLES, MOST_WORDS};
ghost use Rattle.clauses.specs.declared.flat.CnfFault.{CnfFault};
ghost use Rattle.clauses.specs.Literals.{clause_within, words_with};
ghost use Rattle.clauses.specs.Live.{clause_of};
ghost use Rattle.cdcl_trail.specs.Literals.{opposite as opposite_of, signed};
ghost use Rattle.cdcl_propagation.specs.State.{IsConflict};
ghost use Rattle.cdcl_incremental.specs.Questions.{IsAsked};
ghost use Rattle.cdcl.specs.Turns.{IsSolved};
ghost use Rattle.cdcl_incremental.specs.Standing.{IsGrown, Continues, KeepsAll, IsAdded, IsFound, CanKeep, formula_of};

use crate::asked::Asked;
use crate::assuming::{are_true, first_open, shared_levels};
use crate::back::go_back_to;
use crate::final_core::final_core;
use crate::storing::{Stored, has_room, store};
use cdcl::{Heuristics, analyze, attach_lemma, is_reason, values};
use cdcl_conflict::{Analyzer, Lemma};
use cdcl_propagation::Propagator;
use cdcl_trail::opposite;
use clauses::{Clauses, CnfFault};
use psl_base::{Items, NoMemory};
use std::alloc::Global;

/// What is found on the way to a model in which all assumed literals are true.
pub(crate) enum Found {
    /// The number of a clause that is false.
    Conflict(u32),
    /// An assumed literal that is false by those before it.
    Failed(u32),
    /// Each variable has a value.
    Done,
}

/// What the solver works with.
pub(crate) struct Incremental {
    pub(crate) formula: Clauses,
    pub(crate) variables: u32,
    propagator: Propagator,
    analyzer: Analyzer,
    lemma: Lemma,
    heuristics: Heuristics,
    // By clause number: whether it is a lemma, which may be dropped.
    is_lemma: Vec<bool>,
    // How many lemmas there are.
    lemmas: usize,
    // Whether it is known that the formula has no model.
    is_refuted: bool,
    // Whether a clause of the formula found no room in the propagator.
    is_full: bool,
}

// Written out, so that a caller's proof sees one call where a value is dropped.
impl Drop for Incremental {
    fn drop(self) {
        let Incremental {
            formula: _,
            variables: _,
            propagator: _,
            analyzer: _,
            lemma: _,
            heuristics: _,
            is_lemma: _,
            lemmas: _,
            is_refuted: _,
            is_full: _,
        } = self;
    }
}

impl Incremental {
    /// A solver of no clause over so many variables, with room for more of these.
    pub(crate) fn new(alloc: Global, variables: u32, room: u32) -> Result<Incremental, NoMemory>
        requires { variables + room ≤ MOST_VARIABLES }
        ensures grown { IfOk result IsGrown }
        ensures is { IfOk result (λ solver. formula_of solver ≡ record { variables = variables; clauses = [] }) }
    {
        let most = variables + room;
        Ok(Incremental {
            formula: Clauses::new(alloc),
            variables,
            propagator: Propagator::new(alloc, most)?,
            analyzer: Analyzer::new(alloc, most as usize)?,
            lemma: Lemma {
                literals: Vec::new(alloc),
                hints: Vec::new(alloc),
            },
            heuristics: Heuristics::new(alloc, most)?,
            is_lemma: Vec::new(alloc),
            lemmas: 0,
            is_refuted: false,
            is_full: false,
        })
    }

    /// One variable more: whether there was room for it.
    pub(crate) fn open(&mut self) -> bool
        requires { IsGrown self.old }
        ensures grown { IsGrown self.new }
        ensures yes { OnTrue result (formula_of self.new ≡ record (formula_of self.old) { variables = suc self.old.variables }) }
        ensures no { OnFalse result (formula_of self.new ≡ formula_of self.old) }
    {
        if self.variables as usize >= self.propagator.trail().places().len() {
            return false;
        }
        self.heuristics.decider.put(self.variables);
        self.variables += 1;
        true
    }

    /// Adds a clause. Where that fails, all stays.
    pub(crate) fn add(&mut self, alloc: Global, clause: &[i32]) -> Result<(), CnfFault>
        requires grown { IsGrown self.old }
        requires within { IsTrue (clause_within self.old.variables clause.now) }
        ensures ok { OnOk result (IsAdded self.old clause.now self.new) }
        ensures too_large { result ≡ Err CnfFault.TooLarge → MOST_WORDS < words_with self.old.formula clause.now }
        ensures err { OnErr result (Continues self.old self.new) }
    {
        let count = self.formula.len();
        self.formula.push(clause)?;
        match store(
            alloc,
            &mut self.propagator,
            &mut self.heuristics.decider,
            clause,
        ) {
            Ok(Stored::Clause) => {
                unmark(&mut self.is_lemma, self.propagator.clauses().len());
                Ok(())
            }
            Ok(Stored::Refuted) => {
                self.is_refuted = true;
                Ok(())
            }
            Ok(Stored::Full) => {
                self.is_full = true;
                Ok(())
            }
            Err(NoMemory) => {
                self.formula.truncate(count);
                Err(CnfFault::NoMemory)
            }
        }
    }

    /// Asks for a model in which some literals are true, with at most so many conflicts.
    pub(crate) fn ask(
        &mut self,
        alloc: Global,
        assumed: &[u32],
        steps: u64,
    ) -> Result<Asked, NoMemory>
        requires grown { IsGrown self.old }
        requires within { All (λ literal. literal < 2 * self.old.variables) assumed.now }
        ensures continues { Continues self.old self.new }
        ensures asked { IfOk result (IsAsked (formula_of self.old) (map signed assumed.now)) }
    {
        if self.is_refuted {
            return Ok(Asked::Refuted(Items::new(alloc)));
        }
        self.go_back_to_shared(assumed);
        let asked = self.search(alloc, assumed, steps)?;
        self.prefer_others(assumed);
        Ok(asked)
    }

    /// Goes back to the levels that are decided by literals that are assumed again.
    fn go_back_to_shared(&mut self, assumed: &[u32])
        ensures { KeepsAll self.old self.new }
    {
        let level = shared_levels(self.propagator.trail(), assumed);
        go_back_to(&mut self.propagator, &mut self.heuristics.decider, level);
    }

    /// Prefers the negations of literals, so that what was asked only where they are true is let go first.
    fn prefer_others(&mut self, assumed: &[u32])
        ensures { KeepsAll self.old self.new }
    {
        for literal in assumed {
            self.heuristics.decider.prefer(opposite(*literal));
        }
    }

    /// Learns a lemma in each turn, until the answer is found or the conflicts are spent.
    fn search(&mut self, alloc: Global, assumed: &[u32], steps: u64) -> Result<Asked, NoMemory>
        requires grown { IsGrown self.old }
        requires not_refuted { self.old.is_refuted ≡ false }
        requires within { All (λ literal. literal < 2 * self.old.variables) assumed.now }
        ensures continues { Continues self.old self.new }
        ensures asked { IfOk result (IsAsked (formula_of self.old) (map signed assumed.now)) }
    {
        let mut left = steps;
        loop {
            match self.find(assumed)? {
                Found::Done => return self.model(alloc, assumed),
                Found::Failed(literal) => return self.core(alloc, assumed, literal),
                Found::Conflict(number) => match self.resolve(alloc, number, left)? {
                    Some(asked) => return Ok(asked),
                    None => left -= 1,
                },
            }
        }
    }

    /// Learns from a conflict, where so many are left: the answer, where the search ends with it.
    fn resolve(
        &mut self,
        alloc: Global,
        conflict: u32,
        left: u64,
    ) -> Result<Option<Asked>, NoMemory>
        requires grown { IsGrown self.old }
        requires not_refuted { self.old.is_refuted ≡ false }
        requires conflict { IsConflict self.old.propagator.clauses self.old.propagator.path conflict }
        ensures continues { Continues self.old self.new }
        ensures ends { IfOk result (λ asked. IfSome asked (λ answer.
            (assumed : List ℤ) → IsAsked (formula_of self.old) assumed answer)) }
        ensures goes_on { IfOk result (λ asked. IfNone asked ((0 < left) × (self.new.is_refuted ≡ false))) }
    {
        if self.propagator.trail().limits().is_empty() {
            self.is_refuted = true;
            return Ok(Some(Asked::Refuted(Items::new(alloc))));
        }
        if left == 0 {
            return Ok(Some(Asked::Spent));
        }
        if !self.learn(conflict)? {
            return Ok(Some(Asked::Spent));
        }
        self.reduce(alloc)?;
        Ok(None)
    }

    /// Propagates and decides in turn, the assumed literals first.
    fn find(&mut self, assumed: &[u32]) -> Result<Found, NoMemory>
        requires few { self.old.variables ≤ self.old.propagator.path.variables }
        requires most { self.old.propagator.path.variables ≤ MOST_VARIABLES }
        requires within { All (λ literal. literal < 2 * self.old.variables) assumed.now }
        ensures keeps { KeepsAll self.old self.new }
        ensures found { IfOk result (IsFound self.new.propagator self.new.variables assumed.now) }
    {
        let mut from = 0;
        loop {
            if let Some(conflict) = self.propagator.propagate()? {
                return Ok(Found::Conflict(conflict));
            }
            let trail = self.propagator.trail();
            if let Some(place) = first_open(trail, assumed, from) {
                let literal = assumed[place];
                if trail.is_true(opposite(literal)) {
                    return Ok(Found::Failed(literal));
                }
                self.propagator.decide(literal);
                from = place;
            } else {
                let Some(literal) = self.heuristics.decider.next(trail, self.variables) else {
                    return Ok(Found::Done);
                };
                self.propagator.decide(literal);
                from = assumed.len();
            }
        }
    }

    /// The model, where each variable has a value.
    fn model(&self, alloc: Global, assumed: &[u32]) -> Result<Asked, NoMemory>
        requires grown { IsGrown self.now }
        requires not_refuted { self.now.is_refuted ≡ false }
        requires within { All (λ literal. literal < 2 * self.now.variables) assumed.now }
        requires done { IsSolved self.now.propagator self.now.variables }
        ensures { IfOk result (IsAsked (formula_of self.now) (map signed assumed.now)) }
    {
        let trail = self.propagator.trail();
        if self.is_full {
            return Ok(Asked::Spent);
        }
        if !are_true(trail, assumed) {
            return Ok(Asked::Spent);
        }
        Ok(Asked::Model(values(alloc, trail, self.variables)?))
    }

    /// The assumed literals by which one of them is false.
    fn core(&self, alloc: Global, assumed: &[u32], failed: u32) -> Result<Asked, NoMemory>
        requires grown { IsGrown self.now }
        requires within { All (λ literal. literal < 2 * self.now.variables) assumed.now }
        requires failed { IsFound self.now.propagator self.now.variables assumed.now (Found.Failed failed) }
        ensures { IfOk result (IsAsked (formula_of self.now) (map signed assumed.now)) }
    {
        match final_core(alloc, &self.propagator, assumed, failed)? {
            Some(core) => Ok(Asked::Refuted(core)),
            None => Ok(Asked::Spent),
        }
    }

    /// Learns a lemma from a conflict, and goes back to the level where it asserts a literal: whether there was room for it.
    fn learn(&mut self, conflict: u32) -> Result<bool, NoMemory>
        requires grown { IsGrown self.old }
        requires conflict { IsConflict self.old.propagator.clauses self.old.propagator.path conflict }
        requires levels { 0 < length self.old.propagator.path.limits }
        ensures continues { Continues self.old self.new }
        ensures is_refuted { self.new.is_refuted ≡ self.old.is_refuted }
    {
        let has_room = self.study(conflict)?;
        if has_room {
            self.keep()?;
        }
        Ok(has_room)
    }

    /// Finds a lemma by a conflict: whether there is room for it.
    fn study(&mut self, conflict: u32) -> Result<bool, NoMemory>
        requires grown { IsGrown self.old }
        requires conflict { IsConflict self.old.propagator.clauses self.old.propagator.path conflict }
        requires levels { 0 < length self.old.propagator.path.limits }
        ensures keeps { KeepsAll self.old self.new }
        ensures can { IfOk result (λ has_room. OnTrue has_room (CanKeep self.new)) }
    {
        analyze(
            &self.propagator,
            &mut self.analyzer,
            conflict,
            &mut self.lemma,
        )?;
        let clauses = self.propagator.clauses();
        self.heuristics.count_at(
            self.propagator.trail(),
            self.analyzer.reached(),
            &self.lemma,
            clauses.len(),
        )?;
        Ok(has_room(clauses, self.lemma.literals.len()))
    }

    /// Adds the lemma, and goes back to the level where it asserts a literal.
    fn keep(&mut self) -> Result<(), NoMemory>
        requires grown { IsGrown self.old }
        requires can { CanKeep self.old }
        ensures continues { Continues self.old self.new }
        ensures is_refuted { self.new.is_refuted ≡ self.old.is_refuted }
    {
        attach_lemma(
            &mut self.propagator,
            &mut self.heuristics.decider,
            &self.lemma.literals,
            false,
        )?;
        self.lemmas = self.lemmas.saturating_add(1);
        mark(&mut self.is_lemma, self.propagator.clauses().len())
    }

    /// Drops lemmas of little use, where it is time for that.
    fn reduce(&mut self, alloc: Global) -> Result<(), NoMemory>
        requires { IsGrown self.old }
        ensures continues { Continues self.old self.new }
        ensures is_refuted { self.new.is_refuted ≡ self.old.is_refuted }
    {
        let candidates = self
            .heuristics
            .least_useful(alloc, &self.propagator, self.lemmas)?;
        for candidate in &candidates {
            self.drop_lemma(candidate.number);
        }
        Ok(())
    }

    /// Drops a lemma, if it may be dropped.
    fn drop_lemma(&mut self, number: u32)
        requires { IsGrown self.old }
        ensures continues { Continues self.old self.new }
        ensures is_refuted { self.new.is_refuted ≡ self.old.is_refuted }
    {
        if self.can_drop(number) {
            self.propagator.remove(number);
            self.lemmas = self.lemmas.saturating_sub(1);
        }
    }

    /// Whether a number names a lemma of more than two literals that is no reason.
    fn can_drop(&self, number: u32) -> bool
        ensures lemma { OnTrue result (slice_index_or self.now.is_lemma.items number false ≡ true) }
        ensures long { OnTrue result (IsSomeAnd (clause_of self.now.propagator.clauses number) (λ clause. 2 < length clause)) }
        ensures unused { OnTrue result (All (λ reason. reason ≢ number) self.now.propagator.path.reasons) }
    {
        if number as usize >= self.is_lemma.len() || !self.is_lemma[number as usize] {
            return false;
        }
        match self.propagator.clause(number) {
            Some(clause) => clause.len() > 2 && !is_reason(self.propagator.trail(), clause, number),
            None => false,
        }
    }
}

/// Marks the clause of a number as a lemma, where none of a higher number is marked.
fn mark(is_lemma: &mut Vec<bool>, number: usize) -> Result<(), NoMemory>
    ensures { (other : ℕ) → other ≢ number
        → slice_index_or is_lemma.new.items other false ≡ slice_index_or is_lemma.old.items other false }
{
    for _ in is_lemma.len()..number {
        is_lemma.push(false)?;
    }
    if number == is_lemma.len() {
        is_lemma.push(true)?;
    }
    Ok(())
}

/// Takes the mark of a number away, if it has one.
fn unmark(is_lemma: &mut [bool], number: usize)
    ensures gone { slice_index_or is_lemma.new number false ≡ false }
    ensures others { (other : ℕ) → other ≢ number
        → slice_index_or is_lemma.new other false ≡ slice_index_or is_lemma.old other false }
{
    if number < is_lemma.len() {
        is_lemma[number] = false;
    }
}
