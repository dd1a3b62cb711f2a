// What the solver answers.
ghost use Rattle.std.specs.Prelude.{IfOk, IfSome};
ghost use Rattle.cdcl.specs.Answers.{IsModelOf};

use cdcl::{Answer, solve};
use clauses::Cnf;
use psl_base::Bits;
use std::alloc::Global;
use std::test::Fail;

/// A model of the formula, if it has one. An answer within few steps is wanted.
pub(crate) fn model(alloc: Global, formula: &Cnf) -> Result<Option<Bits>, Fail>
    ensures { IfOk result (λ answer. IfSome answer (IsModelOf formula.now)) }
{
    match solve(alloc, formula, 1000)? {
        Answer::Model(values) => Ok(Some(values)),
        Answer::Refuted(_) => Ok(None),
        Answer::Spent(_) | Answer::LogFull(_) => Err("undecided".into()),
    }
}
