// What follows from the definitions alone.
ghost use Rattle.std.specs.Prelude.{◌≡◌, ◌↔◌, ◌*◌, ◌≤◌, ℕ, suc, ℤ, Bool as Truth, true, false, [], ◌∷◌, List, length, IsTrue};
ghost use Rattle.alternating_theory.specs.Obligations.{Automaton};
ghost use Rattle.bounded_theory.specs.Found.{IsFound, SomeFound};
ghost use Rattle.clauses.specs.Literals.{clause_words, clauses_within};
ghost use Rattle.clauses.specs.Models.{Assignment, IsModel};
ghost use Rattle.gates_frames.specs.Examples.{toggle};
ghost use Rattle.gates_letters.specs.Extending.{Extends};
ghost use Rattle.netlist.specs.Design.{Design};
ghost use Rattle.netlist.specs.Sound as netlists;
ghost use Rattle.netlist.specs.Sound.{IsOrder};
ghost use Rattle.netlist.specs.Valuations.{IsFilled};
ghost use Rattle.psl_tree.specs.declared.counts.TheConstants.{MOST_OBLIGATIONS};
ghost use Rattle.run_terms.specs.Automata.{IsSound, TestsSignals};
ghost use Rattle.run_terms.specs.Formulas.{HasModel};
ghost use Rattle.run_terms.specs.Sizes.{formula_bulk as search_bulk};
ghost use Rattle.bounded.specs.Examples.{some_rise};
ghost use Rattle.bounded.specs.Found.{filled, run_of};
ghost use Rattle.bounded.specs.Obligations.{with_obligation, with_place, Asked};
ghost use Rattle.bounded.specs.Searches.{asked_of, placed_nodes, search_clauses, search_variables};

/// A law: the search for a run of so many valuations has a model exactly where there is such a run whose word the
/// automaton accepts, and each model gives one. The clauses are over the variables that they should have. It asks for
/// an order in which the tables can be computed, and whichever it is, the frames follow that of their depths.
pub fn search_law()
    ensures models { (design : Design) (automaton : Automaton) (order : List ℕ) (valuations : ℕ)
        → netlists.IsSound design → IsOrder design.tables order → IsSound automaton → TestsSignals design automaton
        → HasModel (search_variables design automaton valuations) (search_clauses design automaton valuations)
        ↔ SomeFound design automaton valuations }
    ensures runs { (design : Design) (automaton : Automaton) (order : List ℕ) (valuations : ℕ) (values : Assignment)
        → netlists.IsSound design → IsOrder design.tables order → IsSound automaton → TestsSignals design automaton
        → IsModel values (search_clauses design automaton valuations)
        → IsFound design automaton valuations (run_of design automaton valuations values) }
    ensures within { (design : Design) (automaton : Automaton) (order : List ℕ) (valuations : ℕ)
        → netlists.IsSound design → IsOrder design.tables order → IsSound automaton → TestsSignals design automaton
        → IsTrue (clauses_within (search_variables design automaton valuations)
        (search_clauses design automaton valuations)) }
{}

/// A law: of words and of variables there are at most 1,000 times the square of the places of the word times what the
/// netlist and the automaton have together.
pub fn search_size_law()
    ensures words { (design : Design) (automaton : Automaton) (valuations : ℕ) → netlists.IsSound design
        → length automaton.obligations ≤ MOST_OBLIGATIONS → clause_words (search_clauses design automaton valuations)
        ≤ 1000 * suc valuations * suc valuations * search_bulk design automaton }
    ensures variables { (design : Design) (automaton : Automaton) (valuations : ℕ) → netlists.IsSound design
        → length automaton.obligations ≤ MOST_OBLIGATIONS → search_variables design automaton valuations
        ≤ 1000 * suc valuations * suc valuations * search_bulk design automaton }
{}

/// A law: the valuations of the run that is read are those with the values that are read, since there is only one for
/// each choice of values of the signals that no table drives.
pub fn filled_law()
    ensures { (design : Design) (order : List ℕ) (free valuation : List Truth) → netlists.IsSound design
        → IsOrder design.tables order → IsFilled design free valuation → valuation ≡ filled design free }
{}

/// A law: nodes only become more from the frames on, obligation by obligation.
pub fn growing_law()
    ensures obligation { (automaton : Automaton) (frames : ℕ → List ℤ) (valuations before place : ℕ) (now : Asked)
        (number : ℕ) → Extends now.nodes (with_obligation automaton frames valuations before place now number).nodes }
    ensures place { (automaton : Automaton) (frames : ℕ → List ℤ) (valuations before : ℕ) (now : Asked) (place : ℕ)
        → Extends now.nodes (with_place automaton frames valuations before now place).nodes }
    ensures asked { (design : Design) (automaton : Automaton) (valuations : ℕ)
        → Extends (placed_nodes design automaton valuations) (asked_of design automaton valuations).nodes }
{}

/// A law of a worked example: in each frame of the latch all literals are constant, so the search for two valuations
/// has a true variable, eight bits of places, two of the loop, and ten conjunctions. Six of these are asked for, of ten
/// words each. The run goes to and fro for ever.
pub fn example_law()
    ensures variables { search_variables toggle some_rise 2 ≡ 21 }
    ensures words { clause_words (search_clauses toggle some_rise 2) ≡ 124 }
    ensures run { run_of toggle some_rise 2 (λ variable. true)
        ≡ record { stem = []; loop_part = (false ∷ true ∷ []) ∷ (true ∷ false ∷ []) ∷ [] } }
{}
