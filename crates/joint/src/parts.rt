// What the joint states are made of.
ghost use Rattle.std.specs.Prelude.{◌≡◌, ◌≤◌, IfOk};
ghost use Rattle.joint_theory.specs.Queries as spec;
ghost use Rattle.netlist.specs.Sound as netlists;
ghost use Rattle.run_terms.specs.Automata as automata;
ghost use Rattle.run_terms.specs.Automata.{TestsSignals};

use crate::joined::Joint;
use crate::starts::start_literals;
use alternating::Alternating;
use gates_theory::Literals;
use netlist::{Netlist, soundness_law};
use psl_base::NoMemory;
use run_gates::automaton_law;
use std::alloc::Global;

impl<'a> Joint<'a> {
    /// The netlist.
    pub fn netlist(&self) -> &'a Netlist
        ensures { result.now ≡ self.now.design }
    {
        self.product.netlist
    }

    /// The automaton.
    pub fn violation(&self) -> &'a Alternating
        ensures { result.now ≡ self.now.automaton }
    {
        self.product.violation
    }

    /// The visits up to which a state counts.
    pub fn visits(&self) -> u32
        ensures { result ≡ self.now.visits }
    {
        self.product.visits
    }

    /// The literals that are true of the bits of an initial state.
    pub fn start_literals(&self, alloc: Global) -> Result<Literals, NoMemory>
        ensures { IfOk result (λ literals. literals
            ≡ spec.start_literals self.now.design self.now.automaton self.now.visits) }
    {
        start_literals(alloc, self.product)
    }

    /// A law: the netlist and the automaton are sound, the automaton tests signals of the netlist, and there are at most 16
    /// visits.
    pub fn facts(&self)
        ensures netlist { netlists.IsSound self.now.design }
        ensures automaton { automata.IsSound self.now.automaton }
        ensures tests { TestsSignals self.now.design self.now.automaton }
        ensures visits { self.now.visits ≤ 16 }
    {
        soundness_law(self.product.netlist);
        automaton_law(self.product.violation);
    }
}
