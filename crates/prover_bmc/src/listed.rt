// The literals of all places of a chain of joint states.
ghost use Rattle.std.specs.Prelude.{◌≡◌, ◌<◌, suc, length, All, OnOk};
ghost use Rattle.prover_bmc.specs.Chains.{AreListed, HasFrame};

use crate::choices::values_of;
use crate::frames::{of_inputs, of_latches};
use crate::link::Link;
use gates_theory::Literals;
use netlist::{Netlist, soundness_law};
use psl_base::{Bits, Items, NoMemory};
use std::alloc::Global;

/// For each place the literals of the outputs of latches, of inputs, of what is owed, and of what is pending.
pub(crate) struct Listed {
    pub latches: Items<Literals>,
    pub inputs: Items<Literals>,
    pub owed: Items<Literals>,
    pub pending: Items<Literals>,
}

// Written out, so that a caller's proof sees one call where a value is dropped.
impl Drop for Listed {
    fn drop(self) {
        let Listed {
            latches: _,
            inputs: _,
            owed: _,
            pending: _,
        } = self;
    }
}

impl Listed {
    /// Those of no place.
    pub fn new(alloc: Global, netlist: &Netlist) -> Listed
        ensures { AreListed netlist.now result }
    {
        let _signals = netlist.signals();
        Listed {
            latches: Items::new(alloc),
            inputs: Items::new(alloc),
            owed: Items::new(alloc),
            pending: Items::new(alloc),
        }
    }

    /// Those of one place more.
    pub fn push(&mut self, alloc: Global, netlist: &Netlist, link: &Link) -> Result<(), NoMemory>
        requires link { HasFrame netlist.now link.now }
        requires listed { AreListed netlist.now self.old }
        ensures some { OnOk result (0 < length self.new.inputs) }
        ensures listed { OnOk result (AreListed netlist.now self.new) }
    {
        let frame = link.frame.as_slice();
        push_latches(alloc, netlist, frame, &mut self.latches)?;
        push_inputs(alloc, netlist, frame, &mut self.inputs)?;
        let owed = link.debts.copy(alloc)?;
        let pending = link.pending.copy(alloc)?;
        self.owed.push(owed)?;
        self.pending.push(pending)?;
        Ok(())
    }

    /// The values of all of them at each place, where variables from 1 on have values.
    pub fn values_along(&self, alloc: Global, values: &Bits) -> Result<Items<Bits>, NoMemory> {
        let mut along = Items::new(alloc);
        for place in 0..self.inputs.len() {
            let literals = self.literals_at(alloc, place)?;
            along.push(values_of(alloc, values, literals.as_slice())?)?;
        }
        Ok(along)
    }

    /// All of them at a place, counted from 0.
    pub fn literals_at(&self, alloc: Global, place: usize) -> Result<Literals, NoMemory> {
        let mut literals = Literals::new(alloc);
        add_at(&self.latches, place, &mut literals)?;
        add_at(&self.inputs, place, &mut literals)?;
        add_at(&self.owed, place, &mut literals)?;
        add_at(&self.pending, place, &mut literals)?;
        Ok(literals)
    }
}

// Notes the literals of the outputs of latches in a frame.
fn push_latches(
    alloc: Global,
    netlist: &Netlist,
    frame: &[i32],
    listed: &mut Items<Literals>,
) -> Result<(), NoMemory>
    requires frame { length frame.now ≡ netlist.now.signals }
    requires listed { All (λ literals. length literals ≡ length netlist.now.latches) listed.old }
    ensures size { OnOk result (length listed.new ≡ suc (length listed.old)) }
    ensures listed { OnOk result (All (λ literals. length literals ≡ length netlist.now.latches) listed.new) }
{
    soundness_law(netlist);
    let latches = of_latches(alloc, netlist.latches().as_slice(), frame)?;
    listed.push(latches)?;
    Ok(())
}

// Notes the literals of inputs in a frame.
fn push_inputs(
    alloc: Global,
    netlist: &Netlist,
    frame: &[i32],
    listed: &mut Items<Literals>,
) -> Result<(), NoMemory>
    requires frame { length frame.now ≡ netlist.now.signals }
    requires listed { All (λ literals. length literals ≡ length netlist.now.inputs) listed.old }
    ensures size { OnOk result (length listed.new ≡ suc (length listed.old)) }
    ensures listed { OnOk result (All (λ literals. length literals ≡ length netlist.now.inputs) listed.new) }
{
    soundness_law(netlist);
    let inputs = of_inputs(alloc, netlist.inputs().as_slice(), frame)?;
    listed.push(inputs)?;
    Ok(())
}

// The literals at a place, if there is one.
fn add_at(lists: &Items<Literals>, place: usize, literals: &mut Literals) -> Result<(), NoMemory> {
    if place < lists.len() {
        for literal in lists.at(place).as_slice() {
            literals.push(*literal)?;
        }
    }
    Ok(())
}
