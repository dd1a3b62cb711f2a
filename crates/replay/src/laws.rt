ghost use Rattle.std.specs.Prelude.{◌≡◌, ◌⊎◌, ℕ, Bool as Truth, List, Option, Result, Ok, Err, IfOk, IfErr};
ghost use Rattle.netlist.specs.Design.{Design};
ghost use Rattle.netlist.specs.Runs.{IsRun};
ghost use Rattle.netlist.specs.declared.run.Run.{Run};
ghost use Rattle.replay.specs.Answers.{IsMissing, IsReplay};
ghost use Rattle.replay.specs.Examples.{AreReplayed};
ghost use Rattle.replay.specs.Leaving.{LeavesFirst, leaves};
ghost use Rattle.replay.specs.Paths.{HasPlainNames};
ghost use Rattle.replay.specs.declared.answer.Replay.{Replay};
ghost use Rattle.replay.specs.declared.answer.ReplayFault.{ReplayFault};
ghost use Rattle.trace.specs.Trace.{trace_sampled};
ghost use Rattle.vcd_reader.specs.Sampled.{Sampled};
ghost use Rattle.vcd_reader.specs.declared.unknown.Unknown.{Unknown};

use netlist::{Netlist, one_valuation_law, soundness_law};

/// A law of netlists: where the first names of signals are different and a trace declares them as they stand, `replay` answers
/// of the trace of a run that it is a path, unless memory is refused. What is said of its result is what `replay` says of it.
pub fn path_law(netlist: &Netlist)
    ensures { (run : Run) (loops : ℕ) (result : Result Replay ReplayFault) → IsRun netlist.now run → HasPlainNames netlist.now
        → IfOk result (IsReplay netlist.now (trace_sampled Unknown.Zero netlist.now run loops)) → IfErr result (IsMissing netlist.now (trace_sampled Unknown.Zero netlist.now run loops))
        → (result ≡ Ok Replay.Path) ⊎ (result ≡ Err ReplayFault.NoMemory) }
{
    soundness_law(netlist);
    one_valuation_law(netlist);
}

/// A law of the definitions: a recording leaves a netlist first at one sample and with one signal, or nowhere; `leaves`
/// computes which.
pub fn first_law()
    ensures is { (design : Design) (recording : Sampled) (valuations : ℕ → List Truth)
        → LeavesFirst design recording valuations (leaves design recording valuations) }
    ensures one { (design : Design) (recording : Sampled) (valuations : ℕ → List Truth) (one other : Option (ℕ × ℕ))
        → LeavesFirst design recording valuations one → LeavesFirst design recording valuations other → one ≡ other }
{}

/// Recordings compared by hand.
pub fn examples_law()
    ensures { AreReplayed }
{}
