// What follows from the definitions alone.
ghost use Rattle.std.specs.Prelude.{ℕ, suc, ◌*◌, ◌≤◌, ◌↔◌, ℤ, Bool as Truth, true, false, List, IsTrue};
ghost use Rattle.alternating_theory.specs.Acceptance.{Accepts};
ghost use Rattle.alternating_theory.specs.Obligations.{Automaton};
ghost use Rattle.gates_theory.specs.Circuits as circuits;
ghost use Rattle.clauses.specs.Literals.{clause_within, clause_words, clauses_within};
ghost use Rattle.clauses.specs.Models.{Assignment, IsModel};
ghost use Rattle.joint_theory.specs.Bits.{joint_width};
ghost use Rattle.joint_theory.specs.Paths.{IsClosedAt, IsOpen, SomeOpen};
ghost use Rattle.joint_theory.specs.Queries.{joint_circuit, path_of, query, query_variables};
ghost use Rattle.joint_theory.specs.Reaching.{bad_variables, initial_variables, query_bad, query_initial, query_relative, query_step, relative_variables, step_variables};
ghost use Rattle.joint_theory.specs.Reaching.{AreRefuted, EntersBy, LeavesBy, MeetsBadly, MissesInitially, StandsForOne, StandsForTwo};
ghost use Rattle.joint_theory.specs.Sets.{IsInductive};
ghost use Rattle.joint_theory.specs.Sliced.{sliced_relative, sliced_variables, MissesNone};
ghost use Rattle.netlist.specs.Design.{Design};
ghost use Rattle.netlist.specs.Runs.{word, IsRun};
ghost use Rattle.netlist.specs.Sound as netlists;
ghost use Rattle.netlist.specs.declared.run.Run.{Run};
ghost use Rattle.run_terms.specs.Automata.{IsSound, TestsSignals};
ghost use Rattle.run_terms.specs.Formulas.{HasModel};
ghost use Rattle.run_terms.specs.Sizes.{formula_bulk};

/// A law: where there is no open path of either kind at one window, there is none at a greater one.
pub fn window_law()
    ensures { (design : Design) (automaton : Automaton) (visits window later : ℕ) → window ≤ later
        → IsClosedAt design automaton visits window → IsClosedAt design automaton visits later }
{}

/// A law: where there is no open path of either kind at some window, the automaton accepts the word of no run.
pub fn soundness_law()
    ensures { (design : Design) (automaton : Automaton) (visits window : ℕ)
        → IsClosedAt design automaton visits window → (run : Run) → IsRun design run
        → Accepts automaton (word design run) → ⊥ }
{}

/// A law: where some clauses are inductive, the automaton accepts the word of no run.
pub fn inductive_law()
    ensures { (design : Design) (automaton : Automaton) (visits : ℕ) (clauses : List (List ℤ))
        → IsInductive design automaton visits clauses → (run : Run) → IsRun design run
        → Accepts automaton (word design run) → ⊥ }
{}

/// A law: each of both queries has a model exactly where there is an open path of its kind, and each model stands for
/// one. So where neither has a model, the automaton accepts the word of no run.
pub fn query_law()
    ensures models { (design : Design) (automaton : Automaton) (visits window : ℕ) (initial : Truth)
        → netlists.IsSound design → IsSound automaton → TestsSignals design automaton
        → HasModel (query_variables design automaton visits window initial)
        (query design automaton visits window initial)
        ↔ SomeOpen design automaton visits window initial }
    ensures paths { (design : Design) (automaton : Automaton) (visits window : ℕ) (initial : Truth)
        (values : Assignment) → netlists.IsSound design → IsSound automaton → TestsSignals design automaton
        → IsModel values (query design automaton visits window initial)
        → IsOpen design automaton visits window initial (path_of design automaton visits window initial values) }
    ensures refuted { (design : Design) (automaton : Automaton) (visits window : ℕ)
        → netlists.IsSound design → IsSound automaton → TestsSignals design automaton
        → (HasModel (query_variables design automaton visits window true) (query design automaton visits window true) → ⊥)
        → (HasModel (query_variables design automaton visits window false) (query design automaton visits window false)
        → ⊥) → (run : Run) → IsRun design run → Accepts automaton (word design run) → ⊥ }
{}

/// A law: the circuit of the joint states is sound, the literals of both queries are of their variables, and with at most
/// 16 visits their words and variables are at most 1,000 times the square of one more than the window, times the bulk.
pub fn size_law()
    ensures sound { (design : Design) (automaton : Automaton) (visits : ℕ)
        → netlists.IsSound design → IsSound automaton → TestsSignals design automaton
        → circuits.IsSound (joint_circuit design automaton visits) }
    ensures within { (design : Design) (automaton : Automaton) (visits window : ℕ) (initial : Truth)
        → netlists.IsSound design → IsSound automaton → TestsSignals design automaton
        → IsTrue (clauses_within (query_variables design automaton visits window initial)
        (query design automaton visits window initial)) }
    ensures words { (design : Design) (automaton : Automaton) (visits window : ℕ) (initial : Truth)
        → netlists.IsSound design → IsSound automaton → TestsSignals design automaton → visits ≤ 16
        → clause_words (query design automaton visits window initial)
        ≤ 1000 * suc window * suc window * formula_bulk design automaton }
    ensures variables { (design : Design) (automaton : Automaton) (visits window : ℕ) (initial : Truth)
        → netlists.IsSound design → IsSound automaton → TestsSignals design automaton → visits ≤ 16
        → query_variables design automaton visits window initial
        ≤ 1000 * suc window * suc window * formula_bulk design automaton }
{}

/// A law: the formulas of reachability stand for the states and pairs of neighbours that they name, where the clauses and
/// the cube are about the state bits. So such a formula has a model exactly where there is such a state or pair, the
/// values of the state bits in its models are exactly the bits of these, and it names no variables but its own. Clauses are
/// inductive exactly where the first three have no model.
pub fn reach_law()
    ensures initial { (design : Design) (automaton : Automaton) (visits : ℕ) (clauses : List (List ℤ))
        → netlists.IsSound design → IsSound automaton → TestsSignals design automaton
        → IsTrue (clauses_within (joint_width design automaton visits) clauses)
        → StandsForOne design automaton visits (initial_variables design automaton visits clauses)
        (query_initial design automaton visits clauses) (MissesInitially design automaton visits clauses) }
    ensures step { (design : Design) (automaton : Automaton) (visits : ℕ) (clauses : List (List ℤ))
        → netlists.IsSound design → IsSound automaton → TestsSignals design automaton
        → IsTrue (clauses_within (joint_width design automaton visits) clauses)
        → StandsForTwo design automaton visits (step_variables design automaton visits clauses)
        (query_step design automaton visits clauses) (LeavesBy design automaton visits clauses) }
    ensures bad { (design : Design) (automaton : Automaton) (visits : ℕ) (clauses : List (List ℤ))
        → netlists.IsSound design → IsSound automaton → TestsSignals design automaton
        → IsTrue (clauses_within (joint_width design automaton visits) clauses)
        → StandsForOne design automaton visits (bad_variables design automaton visits)
        (query_bad design automaton visits clauses) (MeetsBadly design automaton visits clauses) }
    ensures relative { (design : Design) (automaton : Automaton) (visits : ℕ) (frame : List (List ℤ)) (initial : Truth)
        (cube : List ℤ) → netlists.IsSound design → IsSound automaton → TestsSignals design automaton
        → IsTrue (clauses_within (joint_width design automaton visits) frame)
        → IsTrue (clause_within (joint_width design automaton visits) cube)
        → StandsForTwo design automaton visits (relative_variables design automaton visits)
        (query_relative design automaton visits frame initial cube)
        (EntersBy design automaton visits frame initial cube) }
    ensures inductive { (design : Design) (automaton : Automaton) (visits : ℕ) (clauses : List (List ℤ))
        → netlists.IsSound design → IsSound automaton → TestsSignals design automaton
        → IsTrue (clauses_within (joint_width design automaton visits) clauses)
        → IsInductive design automaton visits clauses ↔ AreRefuted design automaton visits clauses }
{}

/// A law: over a slice of the signals, whatever it keeps, the formula for a pair of neighbours into a cube misses none. So
/// where it has no model, there is no such pair; and it names no variables but its own.
pub fn slice_law()
    ensures { (design : Design) (automaton : Automaton) (visits : ℕ) (now before : ℕ → Truth) (frame : List (List ℤ))
        (initial : Truth) (cube : List ℤ) → netlists.IsSound design → IsSound automaton → TestsSignals design automaton
        → IsTrue (clauses_within (joint_width design automaton visits) frame)
        → IsTrue (clause_within (joint_width design automaton visits) cube)
        → MissesNone design automaton visits (sliced_variables design automaton visits now before)
        (sliced_relative design automaton visits now before frame initial cube)
        (EntersBy design automaton visits frame initial cube) }
{}
