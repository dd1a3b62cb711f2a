// Clauses that are put behind others.
ghost use Rattle.std.specs.Prelude.{◌≡◌, ◌∷◌, [], neg_ℤ, IsTrue};
ghost use Rattle.clauses.specs.declared.flat.TheConstants.{MOST_VARIABLES};
ghost use Rattle.clauses.specs.Literals.{clause_within, is_literal};
ghost use Rattle.bounded.specs.Adding.{Puts};
ghost use Rattle.bounded.specs.Searches.{same_under};

use clauses::{Clauses, CnfFault};
use gates_builder::negated;

/// One clause.
pub(crate) fn put(clauses: &mut Clauses, clause: &[i32]) -> Result<(), CnfFault>
    requires { IsTrue (clause_within MOST_VARIABLES clause.now) }
    ensures { Puts clauses.old clauses.new (clause.now ∷ []) result }
{
    clauses.push(clause)
}

/// A literal implies another one.
pub(crate) fn put_implication(
    clauses: &mut Clauses,
    literal: i32,
    asked: i32,
) -> Result<(), CnfFault>
    requires literal { IsTrue (is_literal literal) }
    requires asked { IsTrue (is_literal asked) }
    ensures { Puts clauses.old clauses.new ((neg_ℤ literal ∷ asked ∷ []) ∷ []) result }
{
    put(clauses, &[negated(literal), asked])
}

// One of three literals is true.
fn put_three(clauses: &mut Clauses, first: i32, second: i32, third: i32) -> Result<(), CnfFault>
    requires first { IsTrue (is_literal first) }
    requires second { IsTrue (is_literal second) }
    requires third { IsTrue (is_literal third) }
    ensures { Puts clauses.old clauses.new ((first ∷ second ∷ third ∷ []) ∷ []) result }
{
    put(clauses, &[first, second, third])
}

// Where a literal is true, so is a third one if a second one is.
fn put_follows(clauses: &mut Clauses, guard: i32, first: i32, second: i32) -> Result<(), CnfFault>
    requires guard { IsTrue (is_literal guard) }
    requires first { IsTrue (is_literal first) }
    requires second { IsTrue (is_literal second) }
    ensures { Puts clauses.old clauses.new ((neg_ℤ guard ∷ neg_ℤ first ∷ second ∷ []) ∷ []) result }
{
    put_three(clauses, negated(guard), negated(first), second)
}

// Where a literal is true, so is a second one if a third one is.
fn put_precedes(clauses: &mut Clauses, guard: i32, first: i32, second: i32) -> Result<(), CnfFault>
    requires guard { IsTrue (is_literal guard) }
    requires first { IsTrue (is_literal first) }
    requires second { IsTrue (is_literal second) }
    ensures { Puts clauses.old clauses.new ((neg_ℤ guard ∷ first ∷ neg_ℤ second ∷ []) ∷ []) result }
{
    put_three(clauses, negated(guard), first, negated(second))
}

/// Two literals have one value where a third one is true.
pub(crate) fn put_same(
    clauses: &mut Clauses,
    guard: i32,
    first: i32,
    second: i32,
) -> Result<(), CnfFault>
    requires guard { IsTrue (is_literal guard) }
    requires first { IsTrue (is_literal first) }
    requires second { IsTrue (is_literal second) }
    ensures { Puts clauses.old clauses.new (same_under guard first second) result }
{
    put_follows(clauses, guard, first, second)?;
    put_precedes(clauses, guard, first, second)
}
