// The clauses that a lemma is checked against.
ghost use Rattle.std.specs.Prelude.{◌≡◌, None, IfSome, IfNone};
ghost use Rattle.clause_log.specs.LiveClauses.{live_clause, Fits, Leaves};

use crate::left::{Left, left_in, left_in_codes};
use crate::literal_set::LiteralSet;
use clause_store::Store;
use clauses::Cnf;

/// The clauses that are live: those of a formula, numbered from 1, and the lemmas that follow on.
#[derive(Clone, Copy, Drop)]
pub(crate) struct Live<'a> {
    pub(crate) formula: &'a Cnf,
    /// Each literal by its code.
    pub(crate) lemmas: &'a Store,
}

/// What is left of the clause of a number without the literals of a set. None where no such clause is live.
pub(crate) fn left_of(live: &Live<'_>, set: &LiteralSet, number: u32) -> Option<Left>
    requires { Fits live.now set.now }
    ensures some { IfSome result (Leaves live.now set.now number) }
    ensures none { IfNone result (live_clause live.now number ≡ None) }
{
    let place = (number as usize).checked_sub(1)?;
    let size = live.formula.clauses.len();
    if place < size {
        return Some(left_in(set, live.formula.clauses.at(place)));
    }
    let codes = live.lemmas.get(place - size)?;
    Some(left_in_codes(set, codes))
}
