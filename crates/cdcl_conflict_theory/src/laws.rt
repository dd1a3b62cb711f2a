// What follows from the definitions alone.
ghost use Rattle.std.specs.Prelude.{ℕ, ◌<◌, ◌≤◌, List, [], take};
ghost use Rattle.std.specs.List.{All, Contains};
ghost use Rattle.clauses.specs.Live.{Numbered};
ghost use Rattle.cdcl_trail.specs.Literals.{opposite};
ghost use Rattle.cdcl_conflict_theory.specs.Trails.{Steps, IsTrail, HasEnded, size_of};
ghost use Rattle.cdcl_conflict_theory.specs.Lemmas.{IsAsserting, IsLearned, IsRefuted, IsUnit};
ghost use Rattle.cdcl_conflict_theory.specs.Closing.{negation_at, lemma_of, hints_of, IsClosed, IsKeeping};

/// A law: where the places of a trail are closed from a conflict, and one of those that are kept is of the current
/// level, the kept ones give a lemma that passes, by the reasons of the explained ones and the conflict in the order of
/// propagation, and that adds a propagation.
pub fn learning_law()
    ensures { (clauses : Numbered ℕ) (steps : Steps) (number : ℕ) (kept explained : List ℕ) (top : ℕ)
        → IsTrail clauses steps → HasEnded clauses steps → IsClosed clauses steps number kept explained → IsKeeping steps kept top
        → IsLearned clauses steps (lemma_of steps kept) (hints_of steps explained number) }
{}

/// A law: where they are closed and none is kept, the empty lemma passes.
pub fn refuting_law()
    ensures { (clauses : Numbered ℕ) (steps : Steps) (number : ℕ) (explained : List ℕ)
        → IsTrail clauses steps → IsClosed clauses steps number [] explained
        → IsRefuted clauses [] (hints_of steps explained number) }
{}

/// A law on going back to a lower level, where all literals of a lemma but the first are false still: the first is the
/// one left, which the lemma asserts there. And a literal of the lemma is not false at a level that ends before its
/// place, so that the second, which has the highest place of the others, can be watched beside the first.
pub fn returning_law()
    ensures asserted { (clauses : Numbered ℕ) (steps : Steps) (literals : List ℕ) (end : ℕ)
        → IsTrail clauses steps → (asserting : IsAsserting steps literals) → end ≤ steps.start
        → All (λ place. place < end) asserting.others
        → IsUnit (take end steps.literals) literals (negation_at steps asserting.first) }
    ensures not_false { (clauses : Numbered ℕ) (steps : Steps) (place : ℕ) (end : ℕ)
        → IsTrail clauses steps → place < size_of steps → end ≤ place
        → Contains (take end steps.literals) (opposite (negation_at steps place)) → ⊥ }
{}
