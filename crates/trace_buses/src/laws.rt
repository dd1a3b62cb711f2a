ghost use Rattle.std.specs.Prelude.{◌≡◌, ◌⊎◌, ◌≤◌, ℕ, Result, Ok, Err, IfErr, IfOk};
ghost use Rattle.netlist.specs.Design.{Design};
ghost use Rattle.netlist.specs.Runs.{IsMade, IsRun, word};
ghost use Rattle.netlist.specs.Sound.{IsSound};
ghost use Rattle.netlist.specs.declared.run.Run.{Run};
ghost use Rattle.psl_tree.specs.Trace.{first, trace_of};
ghost use Rattle.replay.specs.Answers.{IsMissing, IsReplay};
ghost use Rattle.replay.specs.Paths.{HasPlainNames};
ghost use Rattle.replay.specs.declared.answer.Replay.{Replay};
ghost use Rattle.replay.specs.declared.answer.ReplayFault.{ReplayFault};
ghost use Rattle.trace.specs.Trace.{count_of};
ghost use Rattle.trace.specs.Words.{HasWords};
ghost use Rattle.trace_buses.specs.Buses.{buses_sampled, buses_text};
ghost use Rattle.trace_buses.specs.Examples.{AreJoined};
ghost use Rattle.trace_buses.specs.Letters.{letters_found};
ghost use Rattle.vcd_reader.specs.Declarations.{bits_most};
ghost use Rattle.vcd_reader.specs.Meaning.{reading};
ghost use Rattle.vcd_reader.specs.Rules.{sample_limit};
ghost use Rattle.vcd_reader.specs.declared.unknown.Unknown.{Unknown};

use netlist::{Netlist, one_valuation_law, soundness_law};

/// A law of the definitions, which runs nothing: up to the limits on signals and samples of a recording, the trace
/// of a run with buses is read without a fault where first names are words, however unknown bits read, and says just
/// the values of the vectors' signals.
pub fn read_law()
    ensures { (unknown : Unknown) (design : Design) (run : Run) (loops : ℕ) → HasWords design → design.signals ≤ bits_most → count_of run loops ≤ sample_limit
        → reading unknown (buses_text design run loops) ≡ Ok (buses_sampled unknown design run loops) }
{}

/// A law of the definitions: through the bits at which `replay` finds the signals, what a trace with buses says are
/// the first letters of the word of its stem and loop, over the names of the netlist, where first names are
/// different and a trace declares them as they stand.
pub fn word_law()
    ensures { (design : Design) (run : Run) (loops : ℕ) → IsSound design → IsMade design run → HasPlainNames design
        → letters_found design (buses_sampled Unknown.Zero design run loops) ≡ first (count_of run loops) (trace_of (word design run)) }
{}

/// A law of netlists: where first names are different and a trace declares them as they stand, `replay` answers of
/// the trace of a run with buses that it is a path, unless memory is refused. What is said of its result is what
/// `replay` says of it.
pub fn path_law(netlist: &Netlist)
    ensures { (run : Run) (loops : ℕ) (result : Result Replay ReplayFault) → IsRun netlist.now run → HasPlainNames netlist.now
        → IfOk result (IsReplay netlist.now (buses_sampled Unknown.Zero netlist.now run loops)) → IfErr result (IsMissing netlist.now (buses_sampled Unknown.Zero netlist.now run loops))
        → (result ≡ Ok Replay.Path) ⊎ (result ≡ Err ReplayFault.NoMemory) }
{
    soundness_law(netlist);
    one_valuation_law(netlist);
}

/// Buses worked out by hand.
pub fn examples_law()
    ensures { AreJoined }
{}
