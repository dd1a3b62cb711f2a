// The solver, step by step.
ghost use Rattle.std.specs.Prelude.{◌≡◌, ◌+◌, ◌*◌, ◌≤◌, ℕ, length, [], OnOk, IfOk, IfSome, IfNone};
ghost use Rattle.std.specs.Bool.{OnTrue};
ghost use Rattle.clauses.specs.declared.flat.TheConstants.{MOST_WORDS};
ghost use Rattle.clauses.specs.declared.log.TheConstants.{MOST_LOG_WORDS};
ghost use Rattle.clauses.specs.Logs.{log_words, lemmas};
ghost use Rattle.cdcl.specs.declared.answer.TheConstants.{FULL_LOG_WORDS};
ghost use Rattle.cdcl_propagation.specs.State.{IsConflict};
ghost use Rattle.cdcl.specs.Turns.{IsFree, IsComplete, IsSolved};
ghost use Rattle.cdcl.specs.Stepping.{IsStep};
ghost use Rattle.cdcl.specs.Reducing.{CanDrop, IsReduced};
ghost use Rattle.cdcl.specs.Answers.{IsModelOf};
ghost use Rattle.cdcl.specs.Solving.{IsReady, IsLogged, KeepsLog};

use crate::attach::attach_lemma;
use crate::drop::is_reason;
use crate::heuristics::Heuristics;
use crate::learn::{analyze, log_lemma};
use crate::valuation::values;
use cdcl_conflict::{Analyzer, Lemma};
use cdcl_propagation::Propagator;
use clauses::{Cnf, Entry, Log};
use psl_base::{Bits, NoMemory};
use std::alloc::Global;

/// What the solver works with.
pub(crate) struct Solver<'a> {
    pub(crate) formula: &'a Cnf,
    pub(crate) propagator: Propagator,
    pub(crate) log: Log,
    analyzer: Analyzer,
    // The lemma that is learned, and its literals as the log has them.
    lemma: Lemma,
    signed: Vec<i32>,
    heuristics: Heuristics,
}

// Written out, so that a caller's proof sees one call where a value is dropped.
impl Drop for Solver<'_> {
    fn drop(self) {
        let Solver {
            formula: _,
            propagator: _,
            log: _,
            analyzer: _,
            lemma: _,
            signed: _,
            heuristics: _,
        } = self;
    }
}

impl<'a> Solver<'a> {
    /// A solver of a formula whose clauses are there, with an empty log. Some literals are decided before all others.
    pub(crate) fn new(
        alloc: Global,
        formula: &'a Cnf,
        propagator: Propagator,
        first: &[i32],
    ) -> Result<Solver<'a>, NoMemory>
        ensures formula { IfOk result (λ solver. solver.formula.now ≡ formula.now) }
        ensures propagator { IfOk result (λ solver. solver.propagator ≡ propagator) }
        ensures log { IfOk result (λ solver. solver.log ≡ []) }
        ensures room { IfOk result (λ solver. solver.analyzer ≡ formula.now.variables) }
    {
        Ok(Solver {
            formula,
            propagator,
            log: Log::new(alloc),
            analyzer: Analyzer::new(alloc, formula.variables as usize)?,
            lemma: Lemma {
                literals: Vec::new(alloc),
                hints: Vec::new(alloc),
            },
            signed: Vec::new(alloc),
            heuristics: Heuristics::with_first(alloc, formula.variables, first)?,
        })
    }

    /// Propagates and decides in turn, up to a conflict. Without one, each variable has a value in the end.
    pub(crate) fn find_conflict(&mut self) -> Result<Option<u32>, NoMemory>
        requires { self.old.propagator.path.variables ≡ self.old.formula.now.variables }
        ensures keeps { KeepsLog self.old self.new }
        ensures conflict { IfOk result
            (λ conflict. IfSome conflict (IsConflict self.new.propagator.clauses self.new.propagator.path)) }
        ensures solved { IfOk result (λ conflict. IfNone conflict (IsSolved self.new.propagator self.new.formula.now.variables)) }
    {
        loop {
            if let Some(conflict) = self.propagator.propagate()? {
                return Ok(Some(conflict));
            }
            let trail = self.propagator.trail();
            let decider = &mut self.heuristics.decider;
            let Some(literal) = decider.next(trail, self.formula.variables) else {
                return Ok(None);
            };
            self.propagator.decide(literal);
        }
    }

    /// Learns from a conflict, and goes back to the level where the lemma asserts a literal: whether the lemma is
    /// empty, with which the search ends.
    pub(crate) fn learn(&mut self, conflict: u32) -> Result<bool, NoMemory>
        requires ready { IsReady self.old }
        requires few { log_words self.old.log ≤ FULL_LOG_WORDS }
        requires conflict { IsConflict self.old.propagator.clauses self.old.propagator.path conflict }
        ensures { IfOk result (λ ends. IsStep self.old ends self.new) }
    {
        let _few = self.formula.clauses.words();
        let is_lowest = self.propagator.trail().limits().is_empty();
        analyze(
            &self.propagator,
            &mut self.analyzer,
            conflict,
            &mut self.lemma,
        )?;
        log_lemma(&mut self.log, &mut self.signed, &self.lemma)?;
        if is_lowest {
            return Ok(true);
        }
        let restarts = self.heuristics.count(
            self.propagator.trail(),
            self.analyzer.reached(),
            &self.lemma,
            self.formula.clauses.len(),
        )?;
        attach_lemma(
            &mut self.propagator,
            &mut self.heuristics.decider,
            &self.lemma.literals,
            restarts,
        )?;
        Ok(false)
    }

    /// Drops lemmas of little use, where it is time for that, while half of them stay live.
    pub(crate) fn reduce(&mut self, alloc: Global) -> Result<(), NoMemory>
        requires ready { IsReady self.old }
        requires few { log_words self.old.log ≤ FULL_LOG_WORDS }
        ensures { OnOk result (IsReduced self.old self.new) }
    {
        let candidates = self.heuristics.candidates(
            alloc,
            &self.propagator,
            self.log.lemmas(),
            self.formula.clauses.len(),
        )?;
        for candidate in &candidates {
            self.drop_lemma(candidate.number)?;
        }
        Ok(())
    }

    /// Drops a lemma, if it may be dropped.
    fn drop_lemma(&mut self, number: u32) -> Result<(), NoMemory>
        requires ready { IsReady self.old }
        requires few { log_words self.old.log ≤ FULL_LOG_WORDS }
        ensures { OnOk result (IsReduced self.old self.new) }
    {
        let _few = self.formula.clauses.words();
        if self.can_drop(number) {
            self.log.push(Entry::Forget(number))?;
            self.propagator.remove(number);
        }
        Ok(())
    }

    /// Whether a number names a lemma of more than two literals that is no reason, and half of the lemmas stay live
    /// without it.
    fn can_drop(&self, number: u32) -> bool
        requires ready { IsReady self.now }
        requires few { log_words self.now.log ≤ FULL_LOG_WORDS }
        ensures { OnTrue result (CanDrop self.now number) }
    {
        let _few = self.formula.clauses.words();
        let clauses = self.formula.clauses.len();
        if number as usize <= clauses {
            return false;
        }
        let Some(clause) = self.propagator.clause(number) else {
            return false;
        };
        if clause.len() <= 2 {
            return false;
        }
        let live = self.propagator.clauses().live();
        if !stays_half(self.log.lemmas(), live, clauses) {
            return false;
        }
        !is_reason(self.propagator.trail(), clause, number)
    }

    /// The model, where each variable has a value.
    pub(crate) fn model(&self, alloc: Global) -> Result<Bits, NoMemory>
        requires ready { IsReady self.now }
        requires solved { IsSolved self.now.propagator self.now.formula.now.variables }
        ensures { IfOk result (IsModelOf self.now.formula.now) }
    {
        values(alloc, self.propagator.trail(), self.formula.variables)
    }

    /// The log.
    pub(crate) fn into_log(self) -> Log
        ensures { result ≡ self.entry.log }
    {
        let Solver {
            formula: _,
            propagator: _,
            log,
            analyzer: _,
            lemma: _,
            signed: _,
            heuristics: _,
        } = self;
        log
    }
}

/// Whether half of so many lemmas stay live where one more is dropped, of so many clauses that are live.
fn stays_half(lemmas: usize, live: u32, clauses: usize) -> bool
    requires lemmas { lemmas ≤ MOST_LOG_WORDS }
    requires clauses { clauses ≤ MOST_WORDS }
    ensures { OnTrue result (lemmas + 2 + 2 * clauses ≤ 2 * live) }
{
    lemmas + 2 + 2 * clauses <= 2 * live as usize
}
