// What stays the same for all paths.
ghost use Rattle.std.specs.Prelude.{◌≡◌, IfOk};
ghost use Rattle.prover_bmc.specs.Plans.{IsPlan};

use crate::inputs_alone::lasting;
use crate::tested::tested;
use alternating::Alternating;
use gates_cone::cone_of;
use gates_order::order_of;
use netlist::{Netlist, Signals};
use psl_base::{Bits, NoMemory};
use std::alloc::Global;

/// A netlist and an automaton, with what is found of them before a path begins.
pub(crate) struct Plan<'a> {
    pub netlist: &'a Netlist,
    pub automaton: &'a Alternating,
    /// An order in which the tables can be computed.
    pub order: Signals,
    /// Of each signal whether it feeds one that the automaton tests.
    pub cone: Bits,
    /// Of each obligation whether it can last while the inputs are held.
    pub lasting: Bits,
}

// Written out, so that a caller's proof sees one call where a value is dropped.
impl Drop for Plan<'_> {
    fn drop(self) {
        let Plan {
            netlist: _,
            automaton: _,
            order: _,
            cone: _,
            lasting: _,
        } = self;
    }
}

impl<'a> Plan<'a> {
    /// The plan of a netlist and an automaton.
    pub fn new(
        alloc: Global,
        netlist: &'a Netlist,
        automaton: &'a Alternating,
    ) -> Result<Plan<'a>, NoMemory>
        ensures plan { IfOk result IsPlan }
        ensures netlist { IfOk result (λ plan. plan.netlist.now ≡ netlist.now) }
        ensures automaton { IfOk result (λ plan. plan.automaton.now ≡ automaton.now) }
    {
        let order = order_of(alloc, netlist)?;
        let tested = tested(alloc, automaton, netlist.signals())?;
        let cone = cone_of(alloc, netlist, &tested)?;
        let lasting = lasting(alloc, netlist, automaton)?;
        Ok(Plan {
            netlist,
            automaton,
            order,
            cone,
            lasting,
        })
    }
}
