// What follows from the definitions alone.
ghost use Rattle.std.specs.Prelude.{◌≡◌, ℕ, ◌<◌, Bool as Truth, true, List};
ghost use Rattle.alternating_theory.specs.Acceptance.{Accepts};
ghost use Rattle.alternating_theory.specs.Obligations.{Automaton};
ghost use Rattle.gates_frames.specs.Paths.{IsPath};
ghost use Rattle.netlist.specs.Design.{Design};
ghost use Rattle.netlist.specs.Runs.{word};
ghost use Rattle.netlist.specs.Sound.{IsOrder, IsSound};
ghost use Rattle.netlist.specs.declared.run.Run.{Run};
ghost use Rattle.psl_tree.specs.Trace.{trace_of};
ghost use Rattle.run_terms.specs.Automata as automata;
ghost use Rattle.run_terms.specs.Automata.{TestsSignals};
ghost use Rattle.prover_held.specs.Held.{IsHeldRun};
ghost use Rattle.prover_held.specs.Lasting.{IsMetWhenHeld};

/// A law: each path from an initial valuation begins a run that then holds its inputs, all such runs have one word,
/// and an automaton accepts this word where it is met when the inputs are held.
pub fn held_law()
    ensures some { (design : Design) (order : List ℕ) (path : List (List Truth)) → IsSound design
        → IsOrder design.tables order → IsPath design true path → (run : Run) × IsHeldRun design path run }
    ensures one { (design : Design) (order : List ℕ) (path : List (List Truth)) (first second : Run) (place : ℕ)
        → IsSound design → IsOrder design.tables order → IsPath design true path
        → IsHeldRun design path first → IsHeldRun design path second
        → trace_of (word design first) place ≡ trace_of (word design second) place }
    ensures accepts { (design : Design) (automaton : Automaton) (path : List (List Truth)) (run : Run) → IsSound design
        → automata.IsSound automaton → TestsSignals design automaton → IsPath design true path
        → IsMetWhenHeld design automaton path → IsHeldRun design path run → Accepts automaton (word design run) }
{}
