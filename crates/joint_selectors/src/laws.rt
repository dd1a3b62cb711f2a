// What follows from the definitions alone.
ghost use Rattle.std.specs.Prelude.{◌≡◌, ◌+◌, ◌≤◌, ℕ, ℤ, List, ◌++◌, length, IsTrue};
ghost use Rattle.clauses.specs.Literals.{clause_words, clauses_within};
ghost use Rattle.clauses.specs.Models.{Assignment, IsModel};
ghost use Rattle.gates_theory.specs.Circuits.{AreSame};
ghost use Rattle.joint_selectors.specs.Missed.{missed_words, some_missed, MissesSome};

/// A law: with the clauses that some clause of a list is missed, the models of a formula are those that miss one of them,
/// with some values of the further variables. These clauses name no others, and have so many words.
pub fn missed_law()
    ensures models { (size base before : ℕ) (formula clauses : List (List ℤ)) (values : Assignment)
        → IsTrue (clauses_within size clauses) → IsModel values (formula ++ some_missed base before clauses)
        → IsModel values formula × MissesSome base values clauses }
    ensures extends { (size base before : ℕ) (formula clauses : List (List ℤ)) (values : Assignment)
        → IsTrue (clauses_within size clauses) → base + size ≤ before → IsTrue (clauses_within before formula)
        → IsModel values formula → MissesSome base values clauses
        → (further : Assignment) × IsModel further (formula ++ some_missed base before clauses)
        × AreSame before further values }
    ensures within { (size base before : ℕ) (clauses : List (List ℤ)) → base + size ≤ before
        → IsTrue (clauses_within size clauses)
        → IsTrue (clauses_within (before + length clauses) (some_missed base before clauses)) }
    ensures words { (base before : ℕ) (clauses : List (List ℤ))
        → clause_words (some_missed base before clauses) ≡ missed_words clauses }
{}
