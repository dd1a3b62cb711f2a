// What follows from the definitions alone.
ghost use Rattle.std.specs.Prelude.{◌<◌, ◌≡◌, ℕ, suc, Bool as Truth, length};
ghost use Rattle.alternating_theory.specs.Obligations.{Automaton};
ghost use Rattle.alternating_theory.specs.Acceptance.{Accepts};
ghost use Rattle.alternating_theory.specs.Courses.{letter_at, places};
ghost use Rattle.psl_tree.specs.declared.letter.Word.{Word};
ghost use Rattle.run_terms.specs.Automata.{IsSound};
ghost use Rattle.bounded_theory.specs.Numbers.{AreSmall, IsSearched};

/// A law: an automaton accepts a word with a loop where numbers along its places say so, and then some numbers do of
/// which none is larger than there are obligations.
pub fn numbers_law()
    ensures accepts { (automaton : Automaton) (word : Word) (last : ℕ) (owed : ℕ → ℕ → Truth) (number : ℕ → ℕ → ℕ)
        → IsSound automaton → 0 < length word.looped → places word ≡ suc last
        → IsSearched automaton last (length word.stem) (letter_at word) owed number → Accepts automaton word }
    ensures numbers { (automaton : Automaton) (word : Word) (last : ℕ)
        → IsSound automaton → 0 < length word.looped → places word ≡ suc last → Accepts automaton word
        → ((owed : ℕ → ℕ → Truth) (number : ℕ → ℕ → ℕ)
        → IsSearched automaton last (length word.stem) (letter_at word) owed number → AreSmall automaton number → ⊥) → ⊥ }
{}
