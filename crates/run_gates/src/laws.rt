ghost use Rattle.std.specs.Prelude.{All};
ghost use Rattle.run_gates.specs.Marks.{IsSoundLatch, IsSoundTable};
ghost use Rattle.run_terms.specs.Automata.{IsSound};

use alternating::Alternating;
use netlist::{Netlist, soundness_law};

/// A law of netlists: what the gates of tables and latches ask of each of them.
pub fn netlist_law(netlist: &Netlist)
    ensures tables { All (IsSoundTable netlist.now.signals) netlist.now.tables }
    ensures latches { All (IsSoundLatch netlist.now.signals) netlist.now.latches }
{
    soundness_law(netlist);
}

/// A law of automata: the start is one of the obligations, and so is all that the obligations owe.
pub fn automaton_law(violation: &Alternating)
    ensures { IsSound violation.now }
{
    let _start = violation.start();
    for obligation in 0..violation.len() {
        let _asked = violation.delta(obligation);
    }
}
