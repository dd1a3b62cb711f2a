// The questions of a search, asked of the joint states.
ghost use Rattle.std.specs.Option.{ForSome};
ghost use Rattle.std.specs.Prelude.{◌≡◌, ◌∷◌, [], IfOk, IsTrue};
ghost use Rattle.clauses.specs.Literals.{clause_within};
ghost use Rattle.clauses.specs.declared.flat.TheConstants.{MOST_VARIABLES};
ghost use Rattle.joint_theory.specs.Queries as spec;
ghost use Rattle.reach.specs.Knowing.{AreKnown};
ghost use Rattle.reach.specs.Questions.{IsStop};
ghost use Rattle.reach.specs.Sliced.{IsSliced};
ghost use Rattle.reach.specs.Systems.{system_of};
ghost use Rattle.reach_frames.specs.Cubes.{negated as negated_of};

use crate::apart::{are_apart, is_denied};
use crate::asking::{Told, ask};
use crate::core_bits::{has_bit, mask_among, mask_of, set_bit, used_by};
use crate::knowing::known_literals;
use crate::leading::neighbour_in;
use crate::lifting::lifted_mask;
use crate::question::Question;
use crate::quick::quick;
use crate::reading::bits_in;
use crate::signal_order::SignalOrder;
use crate::sliced::{Sliced, sliced_of};
use clauses::{Clauses, Log};
use gates_theory::Literals;
use joint::Joint;
use psl_base::{Bits, NoMemory};
use reach_frames::{Entered, Entry, Machine, Stop};
use reach_solver::ReachSolver;
use std::alloc::Global;
use std::cell::Cell;

/// The joint states, and how many steps the solver has for each query.
pub(crate) struct JointMachine<'a> {
    pub joint: &'a Joint<'a>,
    pub steps: u64,
    /// Whether literals are left out of cubes one after the other.
    pub leaves_out: bool,
    // What is true of the bits of an initial state.
    pub start: Literals,
    pub ghost start_is: { start ≡ spec.start_literals joint.now.design joint.now.automaton joint.now.visits },
    // All that is known to be true of these.
    pub known: Literals,
    pub ghost known_are: { AreKnown joint.now known },
    // What questions over a slice of the signals are asked of.
    pub sliced: Option<Sliced>,
    pub ghost sliced_is: { ForSome sliced (IsSliced joint.now) },
    // The signals on which what the automaton asks hangs.
    pub order: SignalOrder,
    // The solver that goes on from question to question. What it holds is looked at where it is used.
    pub solver: Cell<Option<ReachSolver>>,
}

// Written out, so that a caller's proof sees one call where a value is dropped.
impl Drop for JointMachine<'_> {
    fn drop(self) {
        let JointMachine {
            joint: _,
            steps: _,
            leaves_out: _,
            start: _,
            known: _,
            sliced: _,
            order: _,
            solver: _,
        } = self;
    }
}

impl<'a> JointMachine<'a> {
    /// The machine of some joint states.
    pub fn new(
        alloc: Global,
        joint: &'a Joint<'a>,
        steps: u64,
        leaves_out: bool,
    ) -> Result<JointMachine<'a>, NoMemory>
        ensures joint { IfOk result (λ machine. machine.joint.now ≡ joint.now) }
        ensures steps { IfOk result (λ machine. machine.steps ≡ steps) }
    {
        let start = joint.start_literals(alloc)?;
        let sliced = sliced_of(alloc, joint)?;
        let order = SignalOrder::new(alloc, joint)?;
        let known = known_literals(alloc, joint, steps, &start, &order)?;
        Ok(JointMachine {
            joint,
            steps,
            leaves_out,
            start,
            known,
            sliced,
            order,
            solver: Cell::new(None),
        })
    }

    /// The bits of a cube by which a refutation kept it out, and one that keeps initial states away, if there is one.
    pub fn core_of(
        &self,
        alloc: Global,
        log: &Log,
        clauses: usize,
        initial: bool,
        cube: &[i32],
    ) -> Result<Bits, NoMemory> {
        let starts = if initial { self.start.len() } else { 0 };
        let first = clauses.saturating_sub(starts).saturating_sub(cube.len());
        let used = used_by(alloc, clauses, log)?;
        let mut mask = mask_of(alloc, self.joint.state_bits(), cube, first, &used)?;
        self.hold_off(cube, &mut mask);
        Ok(mask)
    }

    /// The same, where a solver told it by literals of the second state that are enough.
    pub fn core_among(
        &self,
        alloc: Global,
        enough: &[i32],
        cube: &[i32],
    ) -> Result<Bits, NoMemory> {
        let width = self.joint.state_bits();
        let mut mask = mask_among(alloc, width, cube, enough)?;
        self.hold_off(cube, &mut mask);
        Ok(mask)
    }

    /// Marks a literal of a cube that is false in each initial state, if there is one and none is marked.
    fn hold_off(&self, cube: &[i32], mask: &mut Bits) {
        if !self.is_held_off(cube, mask) {
            self.keep_away(cube, mask);
        }
    }

    /// Whether a marked literal of a cube is false in each initial state.
    fn is_held_off(&self, cube: &[i32], mask: &Bits) -> bool {
        for literal in cube {
            if self.denies(*literal) && has_bit(mask, *literal) {
                return true;
            }
        }
        false
    }

    /// Marks a literal of a cube that is false in each initial state, if there is one.
    fn keep_away(&self, cube: &[i32], mask: &mut Bits) {
        for literal in cube {
            if self.denies(*literal) {
                set_bit(mask, *literal);
                return;
            }
        }
    }

    /// Whether a literal is false in each initial state.
    fn denies(&self, literal: i32) -> bool {
        is_denied(self.known.as_slice(), literal)
    }
}

impl Machine for JointMachine<'_> {
    ghost system = { λ machine. system_of machine.joint.now };

    ghost stops = { λ machine. IsStop machine.joint.now machine.steps };

    fn width(&self) -> u32 {
        self.joint.state_bits()
    }

    // The bit that says that a state is bad is the last one.
    fn goal(&self) -> i32 {
        self.joint.state_bits() as i32
    }

    fn begins(&self, alloc: Global, cube: &[i32]) -> Result<Option<Bits>, Stop> {
        self.joint.facts();
        let width = self.joint.state_bits();
        if are_apart(self.known.as_slice(), cube) {
            return Ok(None);
        }
        let clauses = one_clause(alloc, cube)?;
        match ask(alloc, self.joint, self.steps, Question::Initial(&clauses))? {
            Told::Model(values) => {
                let state = bits_in(alloc, &values, 0, width)?;
                Ok(Some(state))
            }
            Told::Refuted(_, _) => Ok(None),
        }
    }

    fn entry(
        &self,
        alloc: Global,
        frame: &Clauses,
        initial: bool,
        cube: &[i32],
    ) -> Result<Entered, Stop> {
        if let Some(entered) = quick(alloc, self, frame, initial, cube)? {
            return Ok(entered);
        }
        self.joint.facts();
        let width = self.joint.state_bits();
        let question = Question::Relative(frame, initial, cube);
        match ask(alloc, self.joint, self.steps, question)? {
            Told::Model(values) => {
                let before = bits_in(alloc, &values, 0, width)?;
                let after = bits_in(alloc, &values, width, width)?;
                Ok(Entered::Found(Entry { before, after }))
            }
            Told::Refuted(log, count) => {
                let mask = self.core_of(alloc, &log, count, initial, cube)?;
                Ok(Entered::Kept(mask))
            }
        }
    }

    #[inline(never)]
    fn lifted(&self, alloc: Global, entry: &Entry, cube: &[i32]) -> Result<Bits, NoMemory> {
        match lifted_mask(alloc, self.joint, &self.order, entry, cube)? {
            Some(mask) => Ok(mask),
            None => all_bits(alloc, self.joint.state_bits()),
        }
    }

    // The bits of the count come last.
    fn thinned(&self, alloc: Global, cube: &[i32]) -> Result<Bits, NoMemory> {
        let counts = self.joint.visits().saturating_add(1);
        all_bits(alloc, self.joint.state_bits().saturating_sub(counts))
    }

    fn leaves_out(&self) -> bool {
        self.leaves_out
    }

    fn is_away(&self, cube: &[i32]) -> bool {
        are_apart(self.known.as_slice(), cube)
    }

    fn led_on(&self, alloc: Global, state: &Bits, cube: &[i32]) -> Result<Option<Bits>, NoMemory> {
        neighbour_in(alloc, self.joint, self.steps, state, cube)
    }

    ghost refused = { λ machine. tt };
}

/// The clause that keeps a cube out, alone.
fn one_clause(alloc: Global, cube: &[i32]) -> Result<Clauses, NoMemory>
    requires { IsTrue (clause_within MOST_VARIABLES cube.now) }
    ensures { IfOk result (λ clauses. clauses ≡ negated_of cube.now ∷ []) }
{
    let clause = negated(alloc, cube)?;
    let mut clauses = Clauses::new(alloc);
    match clauses.push(clause.as_slice()) {
        Ok(()) => Ok(clauses),
        Err(_) => Err(NoMemory),
    }
}

/// The negation of each literal, in order.
pub(crate) fn negated(alloc: Global, literals: &[i32]) -> Result<Literals, NoMemory>
    requires { IsTrue (clause_within MOST_VARIABLES literals.now) }
    ensures { IfOk result (λ negations. negations ≡ negated_of literals.now) }
{
    let mut negations = Literals::new(alloc);
    for literal in literals {
        negations.push(-*literal)?;
    }
    Ok(negations)
}

/// A mask of so many bits, all set.
fn all_bits(alloc: Global, count: u32) -> Result<Bits, NoMemory> {
    let mut mask = Bits::new(alloc);
    for _ in 0..count {
        mask.push(true)?;
    }
    Ok(mask)
}
