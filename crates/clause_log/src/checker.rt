// A checker that takes a log entry by entry.
ghost use Rattle.std.specs.Prelude.{◌≡◌, ◌+◌, ◌-◌, ◌<◌, ◌≤◌, ◌∷◌, [], map, length, suc, true, IsTrue, IfOk, OnOk, OnErr, IfSome, IfNone, IsSome, None, slice_index_or};
ghost use Rattle.clauses.specs.Literals.{clause_within, is_within};
ghost use Rattle.clauses.specs.Logs.{entry_words};
ghost use Rattle.clauses.specs.Logs.LogEntry.{Lemma, Forget};
ghost use Rattle.clauses.specs.Entries.{entry_of};
ghost use Rattle.clauses.specs.declared.flat.TheConstants.{MOST_VARIABLES};
ghost use Rattle.clauses.specs.declared.log.TheConstants.{MOST_LOG_WORDS};
ghost use Rattle.clause_log.specs.Codes.{code_of};
ghost use Rattle.clause_log.specs.Checking.{Answers, begun, held as held_by, live_literals, lemma_place, IsLiveLemma};

use crate::Step;
use crate::codes::code;
use crate::hints::lemma_passes;
use crate::literal_set::LiteralSet;
use crate::live::Live;
use clause_store::Store;
use clauses::{Cnf, Entry};
use psl_base::NoMemory;
use std::alloc::Global;
use std::marker::Model;

/// How many lemmas a checker takes at most.
pub const MOST_LEMMAS: usize = 1_000_000_000;

/// A checker that takes the entries of a log one after another, and holds the lemmas that are live.
///
/// Contracts see the formula, how many lemmas may be live at once, and the lemmas that were taken.
pub struct LogChecker<'a> {
    formula: &'a Cnf,
    limit: u32,
    // Each literal by its code.
    lemmas: Store,
    // The literals that count as false while a lemma is checked.
    falsified: LiteralSet,
    // The codes of a lemma that is taken.
    codes: Vec<u32>,
}

impl<'a> Model for LogChecker<'a> {
    ghost use Rattle.clause_log.specs.Checking.{Checking};

    ghost Value = { Checking };

    ghost use Rattle.clause_log.specs.CheckerFields.{state_of, IsChecker};

    ghost view = { state_of };

    ghost invariant = { IsChecker };
}

// Written out, so that a caller's proof sees one call where a value is dropped.
impl Drop for LogChecker<'_> {
    fn drop(self) {
        let LogChecker {
            formula: _,
            limit: _,
            lemmas: _,
            falsified: _,
            codes: _,
        } = self;
    }
}

impl<'a> LogChecker<'a> {
    /// A checker of a formula's logs that has taken nothing, where so many lemmas may be live at once.
    pub fn new(alloc: Global, formula: &'a Cnf, limit: u32) -> Result<LogChecker<'a>, NoMemory>
        ensures { IfOk result (λ checker. checker ≡ begun formula.now limit) }
    {
        Ok(LogChecker {
            formula,
            limit,
            lemmas: Store::new(alloc),
            falsified: LiteralSet::new(alloc, formula.variables)?,
            codes: Vec::new(alloc),
        })
    }

    /// How many lemmas are live. It takes no memory.
    pub fn held(&self) -> u32
        ensures is { result ≡ held_by self.now }
        ensures few { result ≤ self.now.limit }
    {
        self.lemmas.live()
    }

    /// Takes an entry: checks a lemma, which is then live, or drops one. After an answer other than `Passes`, and where
    /// memory is refused, nothing has changed.
    ///
    /// Behind the empty lemma no lemma of a log passes: that is left to the caller, who has seen it.
    pub fn take(&mut self, entry: Entry<'_>) -> Result<Step, NoMemory>
        requires words { live_literals self.old.lemmas + entry_words (entry_of entry) ≤ MOST_LOG_WORDS }
        requires lemmas { length self.old.lemmas < MOST_LEMMAS }
        ensures ok { IfOk result (λ step. Answers self.old (entry_of entry.entry) step self.new) }
        ensures err { OnErr result (self.new ≡ self.old) }
    {
        match entry {
            Entry::Lemma { literals, hints } => self.take_lemma(literals, hints),
            Entry::Forget(number) => Ok(self.take_drop(number)),
        }
    }

    fn take_lemma(&mut self, literals: &[i32], hints: &[u32]) -> Result<Step, NoMemory>
        requires words { live_literals self.old.lemmas + length literals.now ≤ MOST_LOG_WORDS }
        requires lemmas { length self.old.lemmas < MOST_LEMMAS }
        ensures ok { IfOk result (λ step. Answers self.old (Lemma literals.now hints.now) step self.new) }
        ensures err { OnErr result (self.new ≡ self.old) }
    {
        let live = Live {
            formula: self.formula,
            lemmas: &self.lemmas,
        };
        if !lemma_passes(&live, &mut self.falsified, literals, hints)? {
            return Ok(Step::Fails);
        }
        if self.lemmas.live() >= self.limit {
            return Ok(Step::TooManyLive);
        }
        self.codes.clear();
        add_codes(&mut self.codes, literals)?;
        self.lemmas.push(&self.codes)?;
        Ok(Step::Passes)
    }

    fn take_drop(&mut self, number: u32) -> Step
        ensures { Answers self.old (Forget number) result self.new }
    {
        match self.place_of(number) {
            Some(place) => {
                self.lemmas.remove(place);
                Step::Passes
            }
            None => Step::BadDrop,
        }
    }

    /// Which of the lemmas a number names, counted from 0, if that is live.
    fn place_of(&self, number: u32) -> Option<usize>
        ensures some { IfSome result (λ place. IsLiveLemma self.now number × (place ≡ lemma_place self.now number)) }
        ensures none { IfNone result (IsLiveLemma self.now number → ⊥) }
    {
        let behind = (number as usize).checked_sub(1)?;
        let place = behind.checked_sub(self.formula.clauses.len())?;
        match self.lemmas.get(place) {
            Some(_) => Some(place),
            None => None,
        }
    }
}

/// Adds the codes of literals.
fn add_codes(codes: &mut Vec<u32>, literals: &[i32]) -> Result<(), NoMemory>
    requires empty { codes.old.items ≡ [] }
    requires within { IsTrue (clause_within MOST_VARIABLES literals.now) }
    ensures { OnOk result (codes.new.items ≡ map code_of literals.now) }
{
    for literal in literals {
        codes.push(code(*literal))?;
    }
    Ok(())
}
