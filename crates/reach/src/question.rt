// Queries as they are asked.
ghost use Rattle.std.specs.Prelude.{◌≡◌, IfOk, IfErr};
ghost use Rattle.gates_theory.specs.Sizes.{IsTooLarge};
ghost use Rattle.clauses.specs.declared.flat.CnfFault.{CnfFault};
ghost use Rattle.reach.specs.Formulas.{clauses_of, variables_of, IsFormulaOf, IsWithin};
ghost use Rattle.reach.specs.Questions.{query_of};

use clauses::{Clauses, Cnf, CnfFault};
use gates_theory::Literals;
use joint::Joint;
use psl_base::NoMemory;
use reach_frames::ReachQuery;
use std::alloc::Global;

/// A query whose clauses are borrowed.
#[derive(Clone, Copy)]
pub(crate) enum Question<'q> {
    Initial(&'q Clauses),
    Step(&'q Clauses),
    Bad(&'q Clauses),
    Relative(&'q Clauses, bool, &'q [i32]),
}

impl Question<'_> {
    /// Its formula, over joint states.
    pub fn formula(self, alloc: Global, joint: &Joint) -> Result<Cnf, CnfFault>
        requires { IsWithin joint.now (query_of self) }
        ensures formula { IfOk result (IsFormulaOf joint.now (query_of self.entry)) }
        ensures large { IfErr result (λ fault. fault ≡ CnfFault.TooLarge
            → IsTooLarge (variables_of joint.now (query_of self.entry)) (clauses_of joint.now (query_of self.entry))) }
    {
        match self {
            Question::Initial(clauses) => joint.query_initial(alloc, clauses),
            Question::Step(clauses) => joint.query_step(alloc, clauses),
            Question::Bad(clauses) => joint.query_bad(alloc, clauses),
            Question::Relative(frame, initial, cube) => {
                joint.query_relative(alloc, frame, initial, cube)
            }
        }
    }

    /// The query, with clauses of its own.
    pub fn query(self, alloc: Global) -> Result<ReachQuery, NoMemory>
        ensures { IfOk result (λ query. query ≡ query_of self.entry) }
    {
        match self {
            Question::Initial(clauses) => Ok(ReachQuery::Initial(copy_of(alloc, clauses)?)),
            Question::Step(clauses) => Ok(ReachQuery::Step(copy_of(alloc, clauses)?)),
            Question::Bad(clauses) => Ok(ReachQuery::Bad(copy_of(alloc, clauses)?)),
            Question::Relative(frame, initial, cube) => {
                let cube = Literals::from_slice(alloc, cube)?;
                Ok(ReachQuery::Relative(copy_of(alloc, frame)?, initial, cube))
            }
        }
    }
}

/// The same clauses. They are not too large, since they were there before.
fn copy_of(alloc: Global, clauses: &Clauses) -> Result<Clauses, NoMemory>
    ensures { IfOk result (λ new. new ≡ clauses.now) }
{
    let mut new = Clauses::new(alloc);
    for place in 0..clauses.len() {
        match new.push(clauses.at(place)) {
            Ok(()) => {}
            Err(_) => return Err(NoMemory),
        }
    }
    Ok(new)
}
