// Clauses of a few literals, added to others for which there is room.
ghost use Rattle.std.specs.Prelude.{◌≡◌, [], ◌∷◌, IsTrue};
ghost use Rattle.clauses.specs.declared.flat.TheConstants.{MOST_VARIABLES};
ghost use Rattle.clauses.specs.Literals.{clause_within, is_within};
ghost use Rattle.gates.specs.Adding.{Adds, FitsWith};

use clauses::{Clauses, CnfFault};

/// Adds a clause.
pub fn add(clauses: &mut Clauses, clause: &[i32]) -> Result<(), CnfFault>
    requires within { IsTrue (clause_within MOST_VARIABLES clause.now) }
    requires fits { FitsWith clauses.old (clause.now ∷ []) }
    ensures { Adds clauses.old clauses.new (clause.now ∷ []) result }
{
    clauses.push(clause)
}

/// Adds a clause of one literal.
pub fn add_1(clauses: &mut Clauses, literal: i32) -> Result<(), CnfFault>
    requires within { IsTrue (is_within MOST_VARIABLES literal) }
    requires fits { FitsWith clauses.old ((literal ∷ []) ∷ []) }
    ensures { Adds clauses.old clauses.new ((literal ∷ []) ∷ []) result }
{
    add(clauses, &[literal])
}

/// Adds a clause of two literals.
pub fn add_2(clauses: &mut Clauses, first: i32, second: i32) -> Result<(), CnfFault>
    requires first { IsTrue (is_within MOST_VARIABLES first) }
    requires second { IsTrue (is_within MOST_VARIABLES second) }
    requires fits { FitsWith clauses.old ((first ∷ second ∷ []) ∷ []) }
    ensures { Adds clauses.old clauses.new ((first ∷ second ∷ []) ∷ []) result }
{
    add(clauses, &[first, second])
}

/// Adds a clause of three literals.
pub fn add_3(clauses: &mut Clauses, first: i32, second: i32, third: i32) -> Result<(), CnfFault>
    requires first { IsTrue (is_within MOST_VARIABLES first) }
    requires second { IsTrue (is_within MOST_VARIABLES second) }
    requires third { IsTrue (is_within MOST_VARIABLES third) }
    requires fits { FitsWith clauses.old ((first ∷ second ∷ third ∷ []) ∷ []) }
    ensures { Adds clauses.old clauses.new ((first ∷ second ∷ third ∷ []) ∷ []) result }
{
    add(clauses, &[first, second, third])
}
