// A formula, and clauses with selectors.
ghost use Rattle.std.specs.Prelude.{◌≡◌, suc, ◌+◌, ◌≤◌, ◌<◌, [], ◌∷◌, ◌++◌, pos, negsuc, length, slice_get, Some, IsTrue, IfOk, IfSome, OnOk};
ghost use Rattle.clauses.specs.Literals.{clause_within, clauses_within};
ghost use Rattle.clauses.specs.declared.flat.TheConstants.{MOST_VARIABLES};
ghost use Rattle.reach_solver.specs.Solvers.{AreSelected, Excludes, Grows, IsMore, IsOver, IsSelected};
ghost use Rattle.reach_solver.specs.Texts.{text_of as text_is};

use crate::fingerprint::fingerprint;
use crate::text::{append, text_of};
use cdcl_incremental::{Asked, Growing};
use clauses::{Clauses, Cnf, CnfFault, MOST_VARIABLES};
use psl_base::{Bits, Items, NoMemory};
use std::alloc::Global;
use std::collections::HashMap;
use std::marker::Model;

/// Literals: the variable n, counted from 1, is the number n, and its negation -n.
pub type Literals = Items<i32>;

// A solver has room for so many selectors, and for four more for each clause that was asked before it.
const LEAST_ROOM: u32 = 1000;

// To begin anew costs about as much, for each clause of the formula, as a question where so many clauses have selectors
// and are not asked.
const RENEWAL: usize = 4;

/// What a solver tells.
#[derive(Debug, Drop)]
pub enum Told {
    /// A value for each variable of the formula, under which it and all that was asked holds. It is a hint, and nothing
    /// is promised of it.
    Model(Bits),
    /// There is none; these of the literals, and some selectors, are enough for that.
    Refuted(Literals),
    /// Nothing: the steps were spent, or there is no room for more clauses.
    Nothing,
}

/// A formula, and clauses with selectors: variables behind those of the formula.
pub struct ReachSolver {
    growing: Growing,
    // The variables of the formula, and how many clauses it has.
    variables: u32,
    count: usize,
    // The clauses that have selectors, in the order of these.
    chosen: Clauses,
    // By fingerprint, the place of such a clause.
    places: HashMap<u64, u32>,
    // The clauses of the formula as one list.
    text: Literals,
    // For so many clauses there is room, and so many were asked last.
    room: u32,
    asked: usize,
    // The clauses that were not asked, summed over all questions.
    wear: usize,
}

impl Model for ReachSolver {
    ghost use Rattle.reach_solver.specs.Solvers.{Selecting};

    ghost Value = { Selecting };

    ghost use Rattle.reach_solver.specs.Fields.{selecting_of, IsReachSolver};

    ghost view = { selecting_of };

    ghost invariant = { IsReachSolver };
}

// Written out, so that a caller's proof sees one call where a value is dropped.
impl Drop for ReachSolver {
    fn drop(self) {
        let ReachSolver {
            growing: _,
            variables: _,
            count: _,
            chosen: _,
            places: _,
            text: _,
            room: _,
            asked: _,
            wear: _,
        } = self;
    }
}

impl ReachSolver {
    /// A solver over a formula, without a further clause.
    ///
    /// # Errors
    ///
    /// `NoMemory` if memory is refused.
    pub fn new(alloc: Global, formula: &Cnf) -> Result<ReachSolver, NoMemory>
        ensures { IfOk result (λ solver. IsOver solver formula.now.variables formula.now.clauses) }
    {
        ReachSolver::for_asked(alloc, formula, 0)
    }

    /// A solver over a formula, without a further clause, that is to follow on this one: it has room for the clauses that
    /// were asked last.
    ///
    /// # Errors
    ///
    /// `NoMemory` if memory is refused.
    pub fn anew(&self, alloc: Global, formula: &Cnf) -> Result<ReachSolver, NoMemory>
        ensures { IfOk result (λ solver. IsOver solver formula.now.variables formula.now.clauses) }
    {
        ReachSolver::for_asked(alloc, formula, self.asked)
    }

    /// A solver over a formula, with room for questions with so many clauses.
    fn for_asked(alloc: Global, formula: &Cnf, asked: usize) -> Result<ReachSolver, NoMemory>
        ensures { IfOk result (λ solver. IsOver solver formula.now.variables formula.now.clauses) }
    {
        let room = room_for(asked).min(MOST_VARIABLES - formula.variables);
        Ok(ReachSolver {
            growing: Growing::new(alloc, formula, room)?,
            variables: formula.variables,
            count: formula.clauses.len(),
            chosen: Clauses::new(alloc),
            places: HashMap::new(alloc),
            text: text_of(alloc, formula)?,
            room,
            asked,
            wear: 0,
        })
    }

    /// Whether the solver is over a formula, whose clauses are given as one list too. It is true only where it is.
    pub fn is_over(&self, formula: &Cnf, text: &[i32]) -> bool
        requires { text.now ≡ text_is formula.now.clauses }
        ensures { IsTrue result → IsOver self.now formula.now.variables formula.now.clauses }
    {
        if self.variables != formula.variables {
            return false;
        }
        self.text.as_slice() == text
    }

    /// Whether a solver over the same formula had better begin anew: for want of room, or where the clauses that are asked
    /// no longer cost more than that.
    pub fn is_full(&self) -> bool {
        self.chosen.len() >= self.room as usize || self.wear / RENEWAL > self.count
    }

    /// Notes with how many clauses a question comes.
    fn note_asked(&mut self, count: usize)
        ensures { self.new ≡ self.old }
    {
        self.asked = count;
        self.wear = self
            .wear
            .saturating_add(self.chosen.len().saturating_sub(count));
    }

    /// The place of a clause among those that have selectors, if it is found there.
    fn find(&self, clause: &[i32]) -> Option<u32>
        ensures { IfSome result (λ place. slice_get self.now.chosen place ≡ Some clause.now) }
    {
        let place = self.places.get(&fingerprint(clause)).copied()?;
        if (place as usize) < self.chosen.len() && self.chosen.at(place as usize) == clause {
            Some(place)
        } else {
            None
        }
    }

    /// Gives a clause the next selector, if there is room for it: the place of the clause.
    fn choose(&mut self, alloc: Global, clause: &[i32]) -> Result<Option<u32>, CnfFault>
        requires { IsTrue (clause_within self.old.variables clause.now) }
        ensures grows { OnOk result (Grows self.old self.new) }
        ensures chosen { IfOk result (λ found. IfSome found (λ place. slice_get self.new.chosen place ≡ Some clause.now)) }
    {
        let _few = self.growing.variables();
        let place = self.chosen.len();
        let before = self.variables + place as u32;
        if !open_to(&mut self.growing, before) {
            return Ok(None);
        }
        let _fewer = self.growing.variables();
        let guarded = guarded(alloc, clause, before)?;
        self.chosen.push(clause)?;
        if let Err(fault) = self.growing.add(alloc, guarded.as_slice()) {
            self.chosen.truncate(place);
            return Err(fault);
        }
        Ok(Some(place as u32))
    }

    /// The selector of a clause, if there is room for one.
    fn select(&mut self, alloc: Global, clause: &[i32]) -> Result<Option<i32>, CnfFault>
        requires { IsTrue (clause_within self.old.variables clause.now) }
        ensures grows { OnOk result (Grows self.old self.new) }
        ensures selected { IfOk result (λ found. IfSome found (IsSelected self.new clause.now)) }
    {
        if let Some(place) = self.find(clause) {
            return Ok(Some(self.selector(place)));
        }
        let Some(place) = self.choose(alloc, clause)? else {
            return Ok(None);
        };
        self.note(clause, place)?;
        Ok(Some(self.selector(place)))
    }

    /// The selector of a clause by its place.
    fn selector(&self, place: u32) -> i32
        requires { place < length self.now.chosen }
        ensures { result ≡ pos (suc (self.now.variables + place)) }
    {
        let _few = self.growing.variables();
        (self.variables + place + 1) as i32
    }

    /// Notes the place of a clause.
    fn note(&mut self, clause: &[i32], place: u32) -> Result<(), NoMemory>
        ensures { self.new ≡ self.old }
    {
        match self.places.insert(fingerprint(clause), place) {
            Ok(_) => Ok(()),
            Err(_) => Err(NoMemory),
        }
    }
}

impl ReachSolver {
    /// Adds the selector of a clause to others: whether there was room for one.
    fn add_selector(
        &mut self,
        alloc: Global,
        selectors: &mut Literals,
        clause: &[i32],
    ) -> Result<bool, CnfFault>
        requires { IsTrue (clause_within self.old.variables clause.now) }
        ensures grows { OnOk result (Grows self.old self.new) }
        ensures added { IfOk result (λ added. IsTrue added → IsMore self.new clause.now selectors.old selectors.new) }
    {
        let Some(selector) = self.select(alloc, clause)? else {
            return Ok(false);
        };
        selectors.push(selector)?;
        Ok(true)
    }

    /// Selectors of clauses, that of the last one first, and then that of one more, if there is room for all.
    fn select_all(
        &mut self,
        alloc: Global,
        clauses: &Clauses,
        clause: &[i32],
    ) -> Result<Option<Literals>, CnfFault>
        requires within { IsTrue (clauses_within self.old.variables clauses.now) }
        requires also { IsTrue (clause_within self.old.variables clause.now) }
        ensures grows { OnOk result (Grows self.old self.new) }
        ensures selected { IfOk result (λ found. IfSome found (AreSelected self.new (clauses.now ++ clause.now ∷ []))) }
    {
        let mut selectors = Literals::new(alloc);
        for back in 0..clauses.len() {
            if !self.add_selector(alloc, &mut selectors, clauses.at(clauses.len() - 1 - back))? {
                return Ok(None);
            }
        }
        if !self.add_selector(alloc, &mut selectors, clause)? {
            return Ok(None);
        }
        Ok(Some(selectors))
    }

    /// Asks for a model of the formula that meets clauses and one clause more, and in which literals are true, with at most
    /// so many conflicts.
    ///
    /// # Errors
    ///
    /// `NoMemory` if memory is refused.
    pub fn ask(
        &mut self,
        alloc: Global,
        clauses: &Clauses,
        clause: &[i32],
        literals: &[i32],
        steps: u64,
    ) -> Result<Told, NoMemory>
        requires within { IsTrue (clauses_within self.old.variables clauses.now) }
        requires also { IsTrue (clause_within self.old.variables clause.now) }
        requires literals { IsTrue (clause_within self.old.variables literals.now) }
        ensures { IfOk result (Excludes self.old (clauses.now ++ clause.now ∷ []) literals.now) }
    {
        self.note_asked(clauses.len());
        self.ask_selected(alloc, clauses, clause, literals, steps)
    }

    /// The same, by selectors of the clauses.
    fn ask_selected(
        &mut self,
        alloc: Global,
        clauses: &Clauses,
        clause: &[i32],
        literals: &[i32],
        steps: u64,
    ) -> Result<Told, NoMemory>
        requires within { IsTrue (clauses_within self.old.variables clauses.now) }
        requires also { IsTrue (clause_within self.old.variables clause.now) }
        requires literals { IsTrue (clause_within self.old.variables literals.now) }
        ensures { IfOk result (Excludes self.old (clauses.now ++ clause.now ∷ []) literals.now) }
    {
        let mut assumed = match self.select_all(alloc, clauses, clause) {
            Ok(Some(selectors)) => selectors,
            Ok(None) | Err(CnfFault::TooLarge) => return Ok(Told::Nothing),
            Err(CnfFault::NoMemory) => return Err(NoMemory),
        };
        append(&mut assumed, literals)?;
        match self.growing.ask(alloc, assumed.as_slice(), steps)? {
            Asked::Model(values) => Ok(Told::Model(values)),
            Asked::Refuted(core) => Ok(Told::Refuted(core)),
            Asked::Spent => Ok(Told::Nothing),
        }
    }
}

/// Whether there is a variable behind so many, which is opened where there is room for it.
fn open_to(growing: &mut Growing, before: u32) -> bool
    requires { before ≤ growing.old.variables }
    ensures yes { IsTrue result → before < growing.new.variables }
    ensures clauses { growing.new.clauses ≡ growing.old.clauses }
    ensures more { growing.old.variables ≤ growing.new.variables }
{
    if before < growing.variables() {
        return true;
    }
    growing.open().is_some()
}

/// A clause that holds where the variable behind so many is false, or the clause does.
fn guarded(alloc: Global, clause: &[i32], before: u32) -> Result<Literals, NoMemory>
    requires { before < MOST_VARIABLES }
    ensures { IfOk result (λ guarded. guarded ≡ clause.now ++ negsuc before ∷ []) }
{
    let mut guarded = Literals::from_slice(alloc, clause)?;
    guarded.push(-(before as i32) - 1)?;
    Ok(guarded)
}

/// How many selectors there is to be room for, where so many clauses are asked.
fn room_for(asked: usize) -> u32 {
    let asked = u32::try_from(asked).unwrap_or(u32::MAX);
    asked.saturating_mul(4).saturating_add(LEAST_ROOM)
}
