// A path of valuations, and what is owed along it.
ghost use Rattle.std.specs.Prelude.{◌≡◌, ◌≤◌, ◌<◌, length, All, IfOk, OnOk};
ghost use Rattle.prover_bmc.specs.Hints.{IsHint};
ghost use Rattle.prover_bmc.specs.Plans.{IsPathOf, IsPlan, IsStep};

use crate::choices::choices_of;
use crate::debts::first_debts;
use crate::frames::{of_inputs, of_latches};
use crate::plan::Plan;
use crate::prefixes::Told;
use crate::solver::NodeSolver;
use crate::step::{Step, add_end, add_step};
use cdcl_incremental::Asked;
use clauses::{Clauses, CnfFault};
use gates_builder::Builder;
use gates_covers::covers_of;
use gates_theory::Literals;
use netlist::{Netlist, soundness_law};
use psl_base::{Items, NoMemory};
use std::alloc::Global;

/// A path so far.
pub(crate) struct Path {
    pub builder: Builder,
    pub solver: NodeSolver,
    /// The literals of latches in the first frame, and of inputs in each frame.
    pub latches: Literals,
    pub inputs: Items<Literals>,
    /// The last frame, if there is one, and what may be owed behind it.
    pub last: Option<Literals>,
    pub debts: Literals,
}

// Written out, so that a caller's proof sees one call where a value is dropped.
impl Drop for Path {
    fn drop(self) {
        let Path {
            builder: _,
            solver: _,
            latches: _,
            inputs: _,
            last: _,
            debts: _,
        } = self;
    }
}

impl Path {
    /// The path of no valuation.
    pub fn new(alloc: Global, plan: &Plan<'_>) -> Result<Path, CnfFault>
        ensures { IfOk result (IsPathOf plan.now) }
    {
        let covers = covers_of(alloc, plan.netlist.tables().as_slice())?;
        let builder = Builder::new(alloc, 0, covers);
        let debts = first_debts(alloc, &builder, plan.automaton)?;
        let latches = no_latches(alloc, plan.netlist, builder.no())?;
        let solver = NodeSolver::new(alloc)?;
        Ok(Path {
            builder,
            solver,
            latches,
            inputs: Items::new(alloc),
            last: None,
            debts,
        })
    }

    /// One valuation more, and what is told of the paths of so many.
    pub fn ask(&mut self, alloc: Global, plan: &Plan<'_>, steps: u64) -> Result<Told, CnfFault>
        requires plan { IsPlan plan.now }
        requires path { IsPathOf plan.now self.old }
        ensures path { OnOk result (IsPathOf plan.now self.new) }
        ensures hint { IfOk result (IsHint plan.now.netlist.now) }
    {
        let asked = self.extend(alloc, plan)?;
        match self.solver.ask(alloc, asked, steps)? {
            Asked::Model(values) => {
                let choices = choices_of(alloc, &values, &self.latches, &self.inputs)?;
                Ok(Told::Path(choices))
            }
            Asked::Refuted(_core) => {
                // Where nothing is owed, nothing has to last: so each path of so many owes something.
                self.solver.add(alloc, self.debts.as_slice())?;
                Ok(Told::None)
            }
            Asked::Spent => Ok(Told::Nothing),
        }
    }

    // One valuation more: the literal by which a path of so many is asked for.
    fn extend(&mut self, alloc: Global, plan: &Plan<'_>) -> Result<i32, CnfFault>
        requires plan { IsPlan plan.now }
        requires path { IsPathOf plan.now self.old }
        ensures path { OnOk result (IsPathOf plan.now self.new) }
        ensures some { OnOk result (0 < length self.new.inputs) }
    {
        let Ok(number) = u32::try_from(self.inputs.len()) else {
            return Err(CnfFault::TooLarge);
        };
        let mut clauses = Clauses::new(alloc);
        let builder = &mut self.builder;
        let (last, debts) = (self.last.as_ref(), self.debts.as_slice());
        let step = add_step(alloc, builder, plan, number, last, debts, &mut clauses)?;
        let asked = add_end(alloc, builder, plan, &step, &mut clauses)?;
        self.solver.take(alloc, &self.builder, &clauses)?;
        self.note(alloc, plan, step)?;
        Ok(asked)
    }

    // Notes one valuation more.
    fn note(&mut self, alloc: Global, plan: &Plan<'_>, step: Step) -> Result<(), NoMemory>
        requires covers { length plan.now.netlist.now.tables ≤ length self.old.builder.covers }
        requires latches { length self.old.latches ≡ length plan.now.netlist.now.latches }
        requires inputs { All (λ literals. length literals ≡ length plan.now.netlist.now.inputs) self.old.inputs }
        requires step { IsStep self.old.builder plan.now step }
        ensures path { OnOk result (IsPathOf plan.now self.new) }
        ensures some { OnOk result (0 < length self.new.inputs) }
    {
        let netlist = plan.netlist;
        let Step { frame, debts } = step;
        let is_first = self.last.is_none();
        note_latches(
            alloc,
            netlist,
            is_first,
            frame.as_slice(),
            &mut self.latches,
        )?;
        note_inputs(alloc, netlist, frame.as_slice(), &mut self.inputs)?;
        self.last = Some(frame);
        self.debts = debts;
        Ok(())
    }
}

// Notes the literals of latches in a frame, if it is the first.
fn note_latches(
    alloc: Global,
    netlist: &Netlist,
    is_first: bool,
    frame: &[i32],
    noted: &mut Literals,
) -> Result<(), NoMemory>
    requires frame { length frame.now ≡ netlist.now.signals }
    requires noted { length noted.old ≡ length netlist.now.latches }
    ensures { OnOk result (length noted.new ≡ length netlist.now.latches) }
{
    soundness_law(netlist);
    if is_first {
        *noted = of_latches(alloc, netlist.latches().as_slice(), frame)?;
    }
    Ok(())
}

// Notes the literals of inputs in a frame.
fn note_inputs(
    alloc: Global,
    netlist: &Netlist,
    frame: &[i32],
    noted: &mut Items<Literals>,
) -> Result<(), NoMemory>
    requires frame { length frame.now ≡ netlist.now.signals }
    requires noted { All (λ literals. length literals ≡ length netlist.now.inputs) noted.old }
    ensures noted { OnOk result (All (λ literals. length literals ≡ length netlist.now.inputs) noted.new) }
    ensures some { OnOk result (0 < length noted.new) }
{
    soundness_law(netlist);
    let inputs = of_inputs(alloc, netlist.inputs().as_slice(), frame)?;
    noted.push(inputs)?;
    Ok(())
}

// A literal for each latch, as long as there is no frame.
fn no_latches(alloc: Global, netlist: &Netlist, literal: i32) -> Result<Literals, NoMemory>
    ensures { IfOk result (λ literals. length literals ≡ length netlist.now.latches) }
{
    let count = netlist.latches().len();
    Ok(Literals::from_vec(vec![in alloc; literal; count]?))
}
