// The search for a model or a refutation.
ghost use Rattle.std.specs.Prelude.{◌≡◌, [], IfOk};
ghost use Rattle.cdcl.specs.Answers.{IsAnswer};
ghost use Rattle.cdcl.specs.Solving.{IsReady};

use crate::answer::{Answer, FULL_LOG_WORDS};
use crate::load::load;
use crate::refute::refute;
use crate::solver::Solver;
use cdcl_propagation::Propagator;
use clauses::{Cnf, Log};
use psl_base::NoMemory;
use std::alloc::Global;

/// Decides whether a formula has a model, in at most so many steps, each of which learns a lemma. The empty lemma
/// counts as one.
///
/// Each answer comes with its evidence. Where the formula stays undecided, the log holds just the lemmas that were
/// learned, and each of them is work: no lemma is a copy of a clause, or one that propagation gave already.
///
/// # Errors
///
/// `NoMemory` if memory is refused.
pub fn solve(alloc: Global, cnf: &Cnf, steps: u64) -> Result<Answer, NoMemory>
    ensures { IfOk result (IsAnswer cnf.now steps) }
{
    solve_first(alloc, cnf, steps, &[])
}

/// The same, where some literals are decided before all others, in this order, as long as their variables have no value.
/// Where a formula asks one question after another, so the answer to each is learned before the next one comes up.
/// Literals of variables that the formula does not have are left out, and after 200 conflicts for each literal all are decided
/// as others are.
///
/// # Errors
///
/// `NoMemory` if memory is refused.
pub fn solve_first(alloc: Global, cnf: &Cnf, steps: u64, first: &[i32]) -> Result<Answer, NoMemory>
    ensures { IfOk result (IsAnswer cnf.now steps) }
{
    if steps == 0 {
        return Ok(Answer::Spent(Log::new(alloc)));
    }
    let mut propagator = Propagator::new(alloc, cnf.variables)?;
    match load(alloc, cnf, &mut propagator)? {
        Some(place) => Ok(Answer::Refuted(refute(alloc, cnf, &propagator, place)?)),
        None => search(alloc, Solver::new(alloc, cnf, propagator, first)?, steps),
    }
}

/// Learns a lemma in each turn, until the formula is decided, the steps are spent or the log is full.
fn search(alloc: Global, mut solver: Solver<'_>, steps: u64) -> Result<Answer, NoMemory>
    requires ready { IsReady solver }
    requires log { solver.log ≡ [] }
    ensures { IfOk result (IsAnswer solver.entry.formula.now steps) }
{
    while (solver.log.lemmas() as u64) < steps {
        let Some(conflict) = solver.find_conflict()? else {
            return Ok(Answer::Model(solver.model(alloc)?));
        };
        if solver.learn(conflict)? {
            return Ok(Answer::Refuted(solver.into_log()));
        }
        if solver.log.words() > FULL_LOG_WORDS {
            return Ok(Answer::LogFull(solver.into_log()));
        }
        solver.reduce(alloc)?;
    }
    Ok(Answer::Spent(solver.into_log()))
}
