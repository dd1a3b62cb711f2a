// What the solver answers to a query.
ghost use Rattle.std.specs.Prelude.{IfOk, IfErr, IfSome};
ghost use Rattle.reach.specs.Formulas.{IsWithin};
ghost use Rattle.reach.specs.Plain.{IsPlain};
ghost use Rattle.reach.specs.Questions.{query_of, IsStop, IsTold};

use crate::question::Question;
use cdcl::{Answer, solve};
use clauses::{CnfFault, Log};
use joint::Joint;
use psl_base::{Bits, NoMemory, boxed};
use reach_frames::Stop;
use std::alloc::Global;

/// What is told of the formula of a query.
#[derive(Debug, Drop)]
pub(crate) enum Told {
    /// It has a model: a value for each variable.
    Model(Bits),
    /// It has none, as the log shows. Behind it comes how many clauses the formula has.
    Refuted(Log, usize),
}

/// Asks the solver about a query.
///
/// # Errors
///
/// What ends a search there: the formula is too large, or the solver does not decide it.
pub(crate) fn ask(
    alloc: Global,
    joint: &Joint,
    steps: u64,
    question: Question<'_>,
) -> Result<Told, Stop>
    requires { IsPlain joint.now (query_of question) }
    ensures told { IfOk result (IsTold joint.now steps (query_of question.entry)) }
    ensures stopped { IfErr result (IsStop joint.now steps) }
{
    let formula = match question.formula(alloc, joint) {
        Ok(formula) => formula,
        Err(CnfFault::NoMemory) => return Err(Stop::NoMemory),
        Err(CnfFault::TooLarge) => {
            return Err(Stop::Large(boxed(alloc, question.query(alloc)?)?));
        }
    };
    let _words = formula.clauses.words();
    match solve(alloc, &formula, steps)? {
        Answer::Model(values) => Ok(Told::Model(values)),
        Answer::Refuted(log) => Ok(Told::Refuted(log, formula.clauses.len())),
        Answer::Spent(log) => {
            let query = boxed(alloc, question.query(alloc)?)?;
            Err(Stop::Spent(query, boxed(alloc, log)?))
        }
        Answer::LogFull(log) => {
            let query = boxed(alloc, question.query(alloc)?)?;
            Err(Stop::LogFull(query, boxed(alloc, log)?))
        }
    }
}

/// The same, where nothing is said of a query that is not decided.
///
/// # Errors
///
/// `NoMemory` if memory is refused.
pub(crate) fn ask_lightly(
    alloc: Global,
    joint: &Joint,
    steps: u64,
    question: Question<'_>,
) -> Result<Option<Told>, NoMemory>
    requires { IsWithin joint.now (query_of question) }
    ensures { IfOk result (λ found. IfSome found (IsTold joint.now steps (query_of question.entry))) }
{
    let formula = match question.formula(alloc, joint) {
        Ok(formula) => formula,
        Err(CnfFault::NoMemory) => return Err(NoMemory),
        Err(CnfFault::TooLarge) => return Ok(None),
    };
    let _words = formula.clauses.words();
    match solve(alloc, &formula, steps)? {
        Answer::Model(values) => Ok(Some(Told::Model(values))),
        Answer::Refuted(log) => Ok(Some(Told::Refuted(log, formula.clauses.len()))),
        Answer::Spent(_) | Answer::LogFull(_) => Ok(None),
    }
}
