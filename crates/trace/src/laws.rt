ghost use Rattle.std.specs.Prelude.{◌≡◌, ℕ, ◌≤◌, List, Ok, All};
ghost use Rattle.netlist.specs.Design.{Design};
ghost use Rattle.netlist.specs.Runs.{IsMade, word};
ghost use Rattle.netlist.specs.Sound.{IsSound};
ghost use Rattle.netlist.specs.declared.run.Run.{Run};
ghost use Rattle.psl_tree.specs.Trace.{first, trace_of};
ghost use Rattle.trace.specs.Examples.{AreTraced};
ghost use Rattle.trace.specs.Letters.{letters_over};
ghost use Rattle.trace.specs.Trace.{count_of, trace_sampled, trace_text};
ghost use Rattle.trace.specs.Vectors.{IsVector, bits_in, singles, vectors_sampled, vectors_text};
ghost use Rattle.trace.specs.Words.{HasWords};
ghost use Rattle.trace.specs.declared.vectors.Vector.{Vector};
ghost use Rattle.vcd_reader.specs.Declarations.{bits_most};
ghost use Rattle.vcd_reader.specs.Meaning.{reading};
ghost use Rattle.vcd_reader.specs.Rules.{sample_limit};
ghost use Rattle.vcd_reader.specs.declared.unknown.Unknown.{Unknown};

/// A law of the definitions, which runs nothing: up to the limits on signals and samples of a recording, the trace of a
/// stem and a loop of valuations, as of a run, is read without a fault where first names are words, however unknown bits
/// read, and says just their values.
pub fn read_law()
    ensures { (unknown : Unknown) (design : Design) (run : Run) (loops : ℕ) → IsMade design run → HasWords design → design.signals ≤ bits_most → count_of run loops ≤ sample_limit
        → reading unknown (trace_text design run loops) ≡ Ok (trace_sampled unknown design run loops) }
{}

/// A law of the definitions: what a trace says, where unknown bits read as 0, are the first letters of the word of its stem
/// and loop, over the names of the netlist.
pub fn word_law()
    ensures { (design : Design) (run : Run) (loops : ℕ) → IsSound design → IsMade design run
        → letters_over design.names (trace_sampled Unknown.Zero design run loops) ≡ first (count_of run loops) (trace_of (word design run)) }
{}

/// A law of the definitions: up to the limits on bits and samples of a recording, the trace of a run as vectors is read without
/// a fault, and says just the values of the vectors' signals.
pub fn vectors_law()
    ensures { (unknown : Unknown) (vectors : List Vector) (run : Run) (loops : ℕ) → All IsVector vectors → bits_in vectors ≤ bits_most → count_of run loops ≤ sample_limit
        → reading unknown (vectors_text vectors run loops) ≡ Ok (vectors_sampled unknown vectors run loops) }
{}

/// A law of the definitions: the trace of a run as vectors that are one signal each is its trace, and says the same.
pub fn singles_law()
    ensures text { (design : Design) (run : Run) (loops : ℕ) → IsMade design run → vectors_text (singles design) run loops ≡ trace_text design run loops }
    ensures says { (unknown : Unknown) (design : Design) (run : Run) (loops : ℕ) → IsMade design run
        → vectors_sampled unknown (singles design) run loops ≡ trace_sampled unknown design run loops }
{}

/// Traces worked out by hand.
pub fn examples_law()
    ensures { AreTraced }
{}
