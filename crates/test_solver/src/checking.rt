// What no clause says: that calls succeed with ample memory. The answers are those of a table of four clauses.
ghost use Rattle.std.specs.Prelude.{◌≡◌, ◌≤◌, IfOk};
ghost use Rattle.clauses.specs.Logs.{entry_words};
ghost use Rattle.clauses.specs.Entries.{entry_of};
ghost use Rattle.clauses.specs.declared.log.TheConstants.{MOST_LOG_WORDS};

use clause_log::{LogAnswer, LogChecker, Step, check_log};
use clauses::{Cnf, Entry, Log};
use std::alloc::Global;
use std::test::Fail;

// Two variables, and each of the four clauses that has both.
fn four_clauses(alloc: Global) -> Result<Cnf, Fail>
    ensures { IfOk result (λ cnf. cnf.variables ≡ 2) }
{
    let mut cnf = Cnf::new(alloc, 2);
    cnf.push(&[1, 2])?;
    cnf.push(&[1, -2])?;
    cnf.push(&[-1, 2])?;
    cnf.push(&[-1, -2])?;
    Ok(cnf)
}

// What a log is to the four clauses.
fn answer_to(alloc: Global, log: &Log) -> Result<LogAnswer, Fail> {
    let cnf = four_clauses(alloc)?;
    Ok(check_log(alloc, &cnf, log)?)
}

// A lemma of one literal, and then the empty clause.
fn refutation(alloc: Global) -> Result<Log, Fail> {
    let mut log = Log::new(alloc);
    log.push(Entry::Lemma {
        literals: &[1],
        hints: &[1, 2],
    })?;
    log.push(Entry::Lemma {
        literals: &[],
        hints: &[5, 3, 4],
    })?;
    Ok(log)
}

// The same without the hint of the lemma.
fn refutation_without_a_hint(alloc: Global) -> Result<Log, Fail> {
    let mut log = Log::new(alloc);
    log.push(Entry::Lemma {
        literals: &[1],
        hints: &[1, 2],
    })?;
    log.push(Entry::Lemma {
        literals: &[],
        hints: &[3, 4],
    })?;
    Ok(log)
}

// The lemma alone.
fn lemma(alloc: Global) -> Result<Log, Fail> {
    let mut log = Log::new(alloc);
    log.push(Entry::Lemma {
        literals: &[1],
        hints: &[1, 2],
    })?;
    Ok(log)
}

#[test]
fn logs_of_four_clauses(rt: HostRuntime) -> Result<(), Fail> {
    let none = Log::new(rt.alloc());
    assert_eq!(rt; answer_to(rt.alloc(), &none)?, LogAnswer::NoEmpty);
    let lemma = lemma(rt.alloc())?;
    assert_eq!(rt; answer_to(rt.alloc(), &lemma)?, LogAnswer::NoEmpty);
    let refutation = refutation(rt.alloc())?;
    assert_eq!(rt; answer_to(rt.alloc(), &refutation)?, LogAnswer::Refutes);
    Ok(())
}

#[test]
fn a_hint_is_left_out(rt: HostRuntime) -> Result<(), Fail> {
    let wrong = refutation_without_a_hint(rt.alloc())?;
    assert_eq!(rt; answer_to(rt.alloc(), &wrong)?, LogAnswer::Fails(2));
    Ok(())
}

// What a checker that has taken nothing answers to an entry, and how many lemmas are live then.
fn first_step(alloc: Global, cnf: &Cnf, limit: u32, entry: Entry<'_>) -> Result<(Step, u32), Fail>
    requires { entry_words (entry_of entry) ≤ MOST_LOG_WORDS }
{
    let mut checker = LogChecker::new(alloc, cnf, limit)?;
    let step = checker.take(entry)?;
    Ok((step, checker.held()))
}

// What a checker of the four clauses that has taken nothing answers to an entry, and how many lemmas are live then.
fn first_of_four(alloc: Global, limit: u32, entry: Entry<'_>) -> Result<(Step, u32), Fail>
    requires { entry_words (entry_of entry) ≤ MOST_LOG_WORDS }
{
    let cnf = four_clauses(alloc)?;
    first_step(alloc, &cnf, limit, entry)
}

#[test]
fn entries_one_by_one(rt: HostRuntime) -> Result<(), Fail> {
    let unit = Entry::Lemma {
        literals: &[1],
        hints: &[1, 2],
    };
    let wrong = Entry::Lemma {
        literals: &[1],
        hints: &[1, 3],
    };
    assert_eq!(rt; first_of_four(rt.alloc(), 1, unit)?, (Step::Passes, 1));
    assert_eq!(rt; first_of_four(rt.alloc(), 1, wrong)?, (Step::Fails, 0));
    assert_eq!(rt; first_of_four(rt.alloc(), 0, unit)?, (Step::TooManyLive, 0));
    assert_eq!(rt;
        first_of_four(rt.alloc(), 1, Entry::Forget(5))?,
        (Step::BadDrop, 0)
    );
    Ok(())
}

// The lemma, which is dropped before the empty clause names it.
fn dropped(alloc: Global) -> Result<Log, Fail> {
    let mut log = Log::new(alloc);
    log.push(Entry::Lemma {
        literals: &[1],
        hints: &[1, 2],
    })?;
    log.push(Entry::Forget(5))?;
    log.push(Entry::Lemma {
        literals: &[],
        hints: &[5, 3, 4],
    })?;
    Ok(log)
}

#[test]
fn dropped_lemmas_are_no_hints(rt: HostRuntime) -> Result<(), Fail> {
    let dropped = dropped(rt.alloc())?;
    assert_eq!(rt; answer_to(rt.alloc(), &dropped)?, LogAnswer::Fails(2));
    Ok(())
}
