// What is left of a clause without the literals of a set.
ghost use Rattle.std.specs.Prelude.{◌≡◌, ℤ, List, [], ◌∷◌, ◌++◌, ◌≤◌, true, IsTrue};
ghost use Rattle.clauses.specs.declared.flat.TheConstants.{MOST_VARIABLES};
ghost use Rattle.clauses.specs.Literals.{is_within, clause_within};
ghost use Rattle.clause_log.specs.Codes.{clause_of_codes};
ghost use Rattle.clause_log.specs.Lefts.{LeavesOf, LeavesWith, is_nothing, only_of};

use crate::codes::literal as literal_of;
use crate::literal_set::LiteralSet;

/// What is left of a clause.
#[derive(Clone, Copy, Drop)]
pub(crate) enum Left {
    Nothing,
    /// One literal, however often it stands in the clause.
    One(i32),
    /// Two different literals, or more.
    Several,
}

impl Left {
    pub(crate) fn is_nothing(self) -> bool
        ensures { result ≡ is_nothing self }
    {
        match self {
            Left::Nothing => true,
            Left::One(_) => false,
            Left::Several => false,
        }
    }

    /// The literal, where it is one.
    pub(crate) fn only(self) -> Option<i32>
        ensures { result ≡ only_of self }
    {
        match self {
            Left::Nothing => None,
            Left::One(literal) => Some(literal),
            Left::Several => None,
        }
    }
}

/// What is left with one literal more in the clause.
fn with_literal(set: &LiteralSet, left: Left, literal: i32) -> Left
    requires { is_within set.now.variables literal ≡ true }
    ensures { LeavesWith set.now.members left literal result }
{
    if set.contains(literal) {
        return left;
    }
    match left {
        Left::Nothing => Left::One(literal),
        Left::One(other) => {
            if other == literal {
                left
            } else {
                Left::Several
            }
        }
        Left::Several => Left::Several,
    }
}

/// What is left of a clause without the literals of a set.
pub(crate) fn left_in(set: &LiteralSet, clause: &[i32]) -> Left
    requires { IsTrue (clause_within set.now.variables clause.now) }
    ensures { LeavesOf set.now.members clause.now result }
{
    let mut left = Left::Nothing;
    for literal in clause {
        left = with_literal(set, left, *literal);
    }
    left
}

/// The same of a clause of codes.
pub(crate) fn left_in_codes(set: &LiteralSet, codes: &[u32]) -> Left
    requires few { set.now.variables ≤ MOST_VARIABLES }
    requires within { IsTrue (clause_within set.now.variables (clause_of_codes codes.now)) }
    ensures { LeavesOf set.now.members (clause_of_codes codes.now) result }
{
    let mut left = Left::Nothing;
    for code in codes {
        left = with_literal(set, left, literal_of(*code));
    }
    left
}
