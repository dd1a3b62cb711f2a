// Whether a log refutes a formula.
ghost use Rattle.std.specs.Prelude.{◌≡◌, ◌+◌, ◌<◌, ◌≤◌, length, IfOk, Ok, if◌then◌else◌, ◌||◌};
ghost use Rattle.clauses.specs.Logs.{entry_words, is_lemma, is_empty_lemma};
ghost use Rattle.clauses.specs.Entries.{entry_of};
ghost use Rattle.clauses.specs.Models.{Assignment, IsModel};
ghost use Rattle.clauses.specs.declared.log.TheConstants.{MOST_LOG_WORDS};
ghost use Rattle.clause_log.specs.declared.checker.TheConstants.{MOST_LEMMAS};
ghost use Rattle.clause_log.specs.Checking.{live_literals};
ghost use Rattle.clause_log.specs.Checked.{IsAnswer, GoesOn};
ghost use Rattle.clause_log.specs.declared.answer.LogAnswer.{LogAnswer};

use crate::{LogAnswer, LogChecker, Step};
use clauses::{Cnf, Entry, Log};
use psl_base::NoMemory;
use std::alloc::Global;

/// Whether a log refutes a formula, which then has no model. It takes time in proportion to the variables and to
/// the words of the log and of the clauses that its hints name.
pub fn check_log(alloc: Global, cnf: &Cnf, log: &Log) -> Result<LogAnswer, NoMemory>
    ensures answer { IfOk result (IsAnswer cnf.now log.now) }
    ensures no_model { result ≡ Ok LogAnswer.Refutes → (values : Assignment) → IsModel values cnf.now.clauses → ⊥ }
{
    let mut checker = LogChecker::new(alloc, cnf, u32::MAX)?;
    let _few = log.words();
    let mut entries = log.entries();
    let mut lemma: u32 = 0;
    let mut ended = false;
    while let Some(entry) = entries.next() {
        lemma += lemmas_in(entry);
        if !goes_on(&mut checker, ended, entry)? {
            return Ok(LogAnswer::Fails(lemma));
        }
        ended = ends(ended, entry);
    }
    Ok(last_answer(ended))
}

/// What is shown where every lemma passes, by whether the last is empty.
fn last_answer(ended: bool) -> LogAnswer
    ensures { result ≡ (if ended then LogAnswer.Refutes else LogAnswer.NoEmpty) }
{
    if ended {
        LogAnswer::Refutes
    } else {
        LogAnswer::NoEmpty
    }
}

/// How many lemmas an entry is.
fn lemmas_in(entry: Entry<'_>) -> u32
    ensures { result ≡ (if is_lemma (entry_of entry.entry) then 1 else 0) }
{
    match entry {
        Entry::Lemma { .. } => 1,
        Entry::Forget(_) => 0,
    }
}

/// Whether an empty lemma stands before or is this entry.
fn ends(ended: bool, entry: Entry<'_>) -> bool
    ensures { result ≡ (ended || is_empty_lemma (entry_of entry.entry)) }
{
    ended
        || match entry {
            Entry::Lemma { literals, .. } => literals.is_empty(),
            Entry::Forget(_) => false,
        }
}

/// Takes an entry, behind an empty lemma or not. A lemma that does not pass stops the check; a drop of what is not live
/// changes nothing.
fn goes_on(checker: &mut LogChecker<'_>, ended: bool, entry: Entry<'_>) -> Result<bool, NoMemory>
    requires words { live_literals checker.old.lemmas + entry_words (entry_of entry) ≤ MOST_LOG_WORDS }
    requires lemmas { length checker.old.lemmas < MOST_LEMMAS }
    requires limit { checker.old.limit ≡ 4294967295 }
    ensures { IfOk result (λ passes. GoesOn ended checker.old (entry_of entry.entry) passes checker.new) }
{
    if ended && matches!(entry, Entry::Lemma { .. }) {
        return Ok(false);
    }
    match checker.take(entry)? {
        Step::Passes | Step::BadDrop => Ok(true),
        Step::Fails | Step::TooManyLive => Ok(false),
    }
}
