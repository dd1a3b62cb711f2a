// Entries into a cube, sought over a slice of the signals first: such a formula is several times smaller than the whole
// one. Where it has no model, there is no entry. A model of it stands for a pair of states that may not be an entry, so
// that pair is looked at.
ghost use Rattle.std.specs.Prelude.{◌≡◌, ◌+◌, ◌≤◌, ◌++◌, map, IfOk, IfSome, IsTrue, OnOk};
ghost use Rattle.clauses.specs.Literals.{clause_within};
ghost use Rattle.clauses.specs.declared.flat.TheConstants.{MOST_VARIABLES};
ghost use Rattle.gates_theory.specs.Unrolled.{moved as higher};
ghost use Rattle.reach.specs.Entering.{asked_of, DoesLead};
ghost use Rattle.reach.specs.Sliced.{IsSliced};
ghost use Rattle.reach.specs.Systems.{system_of};
ghost use Rattle.reach_frames.specs.Cubes.{IsCube, IsFrame};
ghost use Rattle.reach_frames.specs.Entries.{IsEntered};
ghost use Rattle.reach_frames.specs.Systems.{IsEntry};
ghost use Rattle.reach_solver.specs.Solvers.{IsOver};

use crate::completing::completed;
use crate::machine::{JointMachine, negated};
use crate::sliced::Sliced;
use clauses::Clauses;
use gates_theory::Literals;
use psl_base::{Bits, NoMemory};
use reach_frames::{Entered, Entry, is_in_cube, is_met};
use reach_solver::{ReachSolver, Told};
use run_formulas::moved;
use std::alloc::Global;

/// What is asked about an entry into a cube: the frame that the first state meets, whether that one is initial, and the
/// cube.
#[derive(Clone, Copy)]
pub(crate) struct Entering<'q> {
    pub frame: &'q Clauses,
    pub initial: bool,
    pub cube: &'q [i32],
}

/// Whether a pair of neighbours would be an entry.
fn leads(machine: &JointMachine, entry: &Entry, entering: Entering<'_>) -> bool
    requires cube { IsCube (system_of machine.now.joint.now).width entering.cube.now }
    ensures { IsTrue result → DoesLead machine.now.joint.now
        entering.entry.frame.now entering.entry.initial entering.entry.cube.now entry.now }
{
    machine.joint.facts();
    machine.joint.state_bits();
    is_met(entering.frame, &entry.before)
        && !is_in_cube(entering.cube, &entry.before)
        && is_in_cube(entering.cube, &entry.after)
        && (!entering.initial || is_in_cube(machine.start.as_slice(), &entry.before))
}

/// Whether a pair of states is found to be an entry. It is true only where it is one.
fn is_entry(
    alloc: Global,
    machine: &JointMachine,
    sliced: &Sliced,
    entry: &Entry,
    entering: Entering<'_>,
) -> Result<bool, NoMemory>
    requires sliced { IsSliced machine.now.joint.now sliced.now }
    requires cube { IsCube (system_of machine.now.joint.now).width entering.cube.now }
    ensures { IfOk result (λ is. IsTrue is → IsEntry (system_of machine.now.joint.now)
        entering.entry.frame.now entering.entry.initial entering.entry.cube.now entry.now) }
{
    machine.joint.facts();
    if !leads(machine, entry, entering) {
        return Ok(false);
    }
    let joint = machine.joint;
    let are = joint.are_neighbours(alloc, &sliced.circuit, &entry.before, &entry.after)?;
    Ok(are)
}

/// The pair of states that a model stands for, if it is an entry.
fn found_by(
    alloc: Global,
    machine: &JointMachine,
    sliced: &Sliced,
    entering: Entering<'_>,
    values: &Bits,
) -> Result<Option<Entered>, NoMemory>
    requires sliced { IsSliced machine.now.joint.now sliced.now }
    requires cube { IsCube (system_of machine.now.joint.now).width entering.cube.now }
    ensures { IfOk result (λ found. IfSome found (IsEntered (system_of machine.now.joint.now)
        entering.entry.frame.now entering.entry.initial entering.entry.cube.now)) }
{
    let entry = completed(alloc, machine.joint, values)?;
    if is_entry(alloc, machine, sliced, &entry, entering)? {
        Ok(Some(Entered::Found(entry)))
    } else {
        Ok(None)
    }
}

/// Literals of variables that are so much higher.
fn moved_all(alloc: Global, width: u32, literals: &[i32]) -> Result<Literals, NoMemory>
    requires within { IsTrue (clause_within width literals.now) }
    requires fits { width + width ≤ MOST_VARIABLES }
    ensures { IfOk result (λ all. all ≡ map (higher width) literals.now) }
{
    let mut all = Literals::new(alloc);
    for literal in literals {
        all.push(moved(width, *literal))?;
    }
    Ok(all)
}

/// Adds literals at the end.
fn append(all: &mut Literals, literals: &[i32]) -> Result<(), NoMemory>
    ensures { OnOk result (all.new ≡ all.old ++ literals.now) }
{
    for literal in literals {
        all.push(*literal)?;
    }
    Ok(())
}

/// The literals that are asked: the second state is in the cube, and the first is initial where that is asked.
fn asked_literals(
    alloc: Global,
    machine: &JointMachine,
    entering: Entering<'_>,
) -> Result<Literals, NoMemory>
    requires cube { IsTrue (clause_within (system_of machine.now.joint.now).width entering.cube.now) }
    requires fits { (system_of machine.now.joint.now).width + (system_of machine.now.joint.now).width ≤ MOST_VARIABLES }
    ensures { IfOk result (λ literals. literals ≡ asked_of machine.now.joint.now entering.entry.initial entering.entry.cube.now) }
{
    machine.joint.facts();
    let mut literals = moved_all(alloc, machine.joint.state_bits(), entering.cube)?;
    if entering.initial {
        append(&mut literals, machine.start.as_slice())?;
    }
    Ok(literals)
}

/// Whether something leads into a cube, if a solver over the slice tells it.
fn entered_over(
    alloc: Global,
    machine: &JointMachine,
    sliced: &Sliced,
    entering: Entering<'_>,
    solver: &mut ReachSolver,
) -> Result<Option<Entered>, NoMemory>
    requires sliced { IsSliced machine.now.joint.now sliced.now }
    requires over { IsOver solver.old sliced.now.pair.variables sliced.now.pair.clauses }
    requires frame { IsFrame (system_of machine.now.joint.now).width entering.frame.now }
    requires cube { IsCube (system_of machine.now.joint.now).width entering.cube.now }
    ensures { IfOk result (λ found. IfSome found (IsEntered (system_of machine.now.joint.now)
        entering.entry.frame.now entering.entry.initial entering.entry.cube.now)) }
{
    machine.joint.facts();
    machine.joint.state_bits();
    let outside = negated(alloc, entering.cube)?;
    let literals = asked_literals(alloc, machine, entering)?;
    let told = solver.ask(
        alloc,
        entering.frame,
        outside.as_slice(),
        literals.as_slice(),
        machine.steps,
    )?;
    match told {
        Told::Model(values) => found_by(alloc, machine, sliced, entering, &values),
        Told::Refuted(core) => {
            let mask = machine.core_among(alloc, core.as_slice(), entering.cube)?;
            Ok(Some(Entered::Kept(mask)))
        }
        Told::Nothing => Ok(None),
    }
}

/// The solver over the formula of a slice that a machine has, or a new one.
fn solver_over(
    alloc: Global,
    machine: &JointMachine,
    sliced: &Sliced,
) -> Result<ReachSolver, NoMemory>
    requires { IsSliced machine.now.joint.now sliced.now }
    ensures { IfOk result (λ solver. IsOver solver sliced.now.pair.variables sliced.now.pair.clauses) }
{
    let formula = &sliced.pair;
    match machine.solver.replace(None) {
        Some(solver) => {
            if solver.is_full() || !solver.is_over(formula, sliced.text.as_slice()) {
                return solver.anew(alloc, formula);
            }
            Ok(solver)
        }
        None => ReachSolver::new(alloc, formula),
    }
}

/// Whether a state that meets a frame, is outside the cube, and begins where that is asked, leads into the cube, if a
/// formula over a slice of the signals tells it.
///
/// # Errors
///
/// `NoMemory` if memory is refused.
pub(crate) fn quick(
    alloc: Global,
    machine: &JointMachine,
    frame: &Clauses,
    initial: bool,
    cube: &[i32],
) -> Result<Option<Entered>, NoMemory>
    requires frame { IsFrame (system_of machine.now.joint.now).width frame.now }
    requires cube { IsCube (system_of machine.now.joint.now).width cube.now }
    ensures { IfOk result (λ found. IfSome found (IsEntered (system_of machine.now.joint.now)
        frame.now initial cube.now)) }
{
    let Some(sliced) = &machine.sliced else {
        return Ok(None);
    };
    let entering = Entering {
        frame,
        initial,
        cube,
    };
    let mut solver = solver_over(alloc, machine, sliced)?;
    let entered = entered_over(alloc, machine, sliced, entering, &mut solver)?;
    machine.solver.set(Some(solver));
    Ok(entered)
}
