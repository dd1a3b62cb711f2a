ghost use Rattle.std.specs.Prelude.{◌≡◌, IfOk};
ghost use Rattle.psl_tree.specs.Trees.{boolean_of};
ghost use Rattle.alternating_theory.specs.Literals.{is_unnegated, bare, negated};

use psl_base::{NoMemory, boxed};
use psl_tree::Bool;
use std::alloc::Global;

/// Whether the negations at the head of a Boolean cancel out.
pub(crate) fn is_unnegated(test: &Bool) -> bool
    ensures { result ≡ is_unnegated (boolean_of test.now) }
{
    match test {
        Bool::Not(part) => !is_unnegated(part),
        Bool::Const(_) | Bool::Test(_) | Bool::And(_, _) | Bool::Or(_, _) => true,
    }
}

/// What stands behind the negations at the head of a Boolean.
pub(crate) fn bare(test: &Bool) -> &Bool
    ensures { boolean_of result.now ≡ bare (boolean_of test.now) }
{
    match test {
        Bool::Not(part) => bare(part),
        Bool::Const(_) | Bool::Test(_) | Bool::And(_, _) | Bool::Or(_, _) => test,
    }
}

/// The negation of a Boolean, with at most one `Not` at its head: under nested negations a Boolean
/// would grow with each of them.
pub(crate) fn negated(alloc: Global, test: &Bool) -> Result<Bool, NoMemory>
    ensures { IfOk result (λ new. boolean_of new ≡ negated (boolean_of test.now)) }
{
    let part = bare(test).copy(alloc)?;
    if is_unnegated(test) {
        Ok(Bool::Not(boxed(alloc, part)?))
    } else {
        Ok(part)
    }
}
