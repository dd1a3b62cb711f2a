ghost use Rattle.std.specs.Prelude.{◌≡◌, IfOk, IfErr, IsTrue};
ghost use Rattle.gates_theory.specs.Sizes.{IsTooLarge};
ghost use Rattle.clauses.specs.Literals.{clause_within, clauses_within};
ghost use Rattle.clauses.specs.declared.flat.CnfFault.{CnfFault};
ghost use Rattle.joint_theory.specs.Bits.{joint_width};
ghost use Rattle.joint_theory.specs.Reaching as spec;
ghost use Rattle.joint_theory.specs.Reaching.{bad_variables, initial_variables, relative_variables, step_variables, EntersBy, LeavesBy, MeetsBadly, MissesInitially, StandsForOne, StandsForTwo};

use crate::joined::Joint;
use crate::reach_queries::{bad_of, initial_of, relative_of, step_of};
use clauses::{Clauses, Cnf, CnfFault};
use joint_theory::reach_law;
use std::alloc::Global;

impl<'a> Joint<'a> {
    /// The formula that looks for an initial state that misses one of some clauses. A literal of these names a bit of a
    /// joint state by its number, from 1. The first variables of a model are the bits of such a state.
    ///
    /// # Errors
    ///
    /// `TooLarge` only where there would be too many variables or words, and `NoMemory` if memory is refused.
    pub fn query_initial(&self, alloc: Global, clauses: &Clauses) -> Result<Cnf, CnfFault>
        requires within { IsTrue (clauses_within
            (joint_width self.now.design self.now.automaton self.now.visits) clauses.now) }
        ensures variables { IfOk result (λ cnf. cnf.variables
            ≡ initial_variables self.now.design self.now.automaton self.now.visits clauses.now) }
        ensures clauses { IfOk result (λ cnf. cnf.clauses
            ≡ spec.query_initial self.now.design self.now.automaton self.now.visits clauses.now) }
        ensures stands { IfOk result (λ cnf. StandsForOne self.now.design self.now.automaton self.now.visits
            cnf.variables cnf.clauses
            (MissesInitially self.now.design self.now.automaton self.now.visits clauses.now)) }
        ensures large { IfErr result (λ fault. fault ≡ CnfFault.TooLarge → IsTooLarge
            (initial_variables self.now.design self.now.automaton self.now.visits clauses.now)
            (spec.query_initial self.now.design self.now.automaton self.now.visits clauses.now)) }
    {
        self.facts();
        reach_law();
        initial_of(alloc, self.product, clauses)
    }

    /// The formula that looks for a state that meets all of some clauses and has a neighbour that misses one. The first
    /// variables of a model are the bits of such a state, and as many behind them those of the neighbour.
    ///
    /// # Errors
    ///
    /// `TooLarge` only where there would be too many variables or words, and `NoMemory` if memory is refused.
    pub fn query_step(&self, alloc: Global, clauses: &Clauses) -> Result<Cnf, CnfFault>
        requires within { IsTrue (clauses_within
            (joint_width self.now.design self.now.automaton self.now.visits) clauses.now) }
        ensures variables { IfOk result (λ cnf. cnf.variables
            ≡ step_variables self.now.design self.now.automaton self.now.visits clauses.now) }
        ensures clauses { IfOk result (λ cnf. cnf.clauses
            ≡ spec.query_step self.now.design self.now.automaton self.now.visits clauses.now) }
        ensures stands { IfOk result (λ cnf. StandsForTwo self.now.design self.now.automaton self.now.visits
            cnf.variables cnf.clauses
            (LeavesBy self.now.design self.now.automaton self.now.visits clauses.now)) }
        ensures large { IfErr result (λ fault. fault ≡ CnfFault.TooLarge → IsTooLarge
            (step_variables self.now.design self.now.automaton self.now.visits clauses.now)
            (spec.query_step self.now.design self.now.automaton self.now.visits clauses.now)) }
    {
        self.facts();
        reach_law();
        step_of(alloc, self.product, clauses)
    }

    /// The formula that looks for a bad state that meets all of some clauses. The first variables of a model are the bits
    /// of such a state.
    ///
    /// # Errors
    ///
    /// `TooLarge` only where there would be too many variables or words, and `NoMemory` if memory is refused.
    pub fn query_bad(&self, alloc: Global, clauses: &Clauses) -> Result<Cnf, CnfFault>
        requires within { IsTrue (clauses_within
            (joint_width self.now.design self.now.automaton self.now.visits) clauses.now) }
        ensures variables { IfOk result (λ cnf. cnf.variables
            ≡ bad_variables self.now.design self.now.automaton self.now.visits) }
        ensures clauses { IfOk result (λ cnf. cnf.clauses
            ≡ spec.query_bad self.now.design self.now.automaton self.now.visits clauses.now) }
        ensures stands { IfOk result (λ cnf. StandsForOne self.now.design self.now.automaton self.now.visits
            cnf.variables cnf.clauses
            (MeetsBadly self.now.design self.now.automaton self.now.visits clauses.now)) }
        ensures large { IfErr result (λ fault. fault ≡ CnfFault.TooLarge → IsTooLarge
            (bad_variables self.now.design self.now.automaton self.now.visits)
            (spec.query_bad self.now.design self.now.automaton self.now.visits clauses.now)) }
    {
        self.facts();
        reach_law();
        bad_of(alloc, self.product, clauses)
    }

    /// The formula that looks for a state that meets all clauses of a frame and is outside a cube, and is initial where
    /// that is asked, and has a neighbour in the cube. The first variables of a model are the bits of such a state, and as
    /// many behind them those of the neighbour.
    ///
    /// # Errors
    ///
    /// `TooLarge` only where there would be too many variables or words, and `NoMemory` if memory is refused.
    pub fn query_relative(
        &self,
        alloc: Global,
        frame: &Clauses,
        initial: bool,
        cube: &[i32],
    ) -> Result<Cnf, CnfFault>
        requires frame { IsTrue (clauses_within
            (joint_width self.now.design self.now.automaton self.now.visits) frame.now) }
        requires cube { IsTrue (clause_within
            (joint_width self.now.design self.now.automaton self.now.visits) cube.now) }
        ensures variables { IfOk result (λ cnf. cnf.variables
            ≡ relative_variables self.now.design self.now.automaton self.now.visits) }
        ensures clauses { IfOk result (λ cnf. cnf.clauses
            ≡ spec.query_relative self.now.design self.now.automaton self.now.visits frame.now initial cube.now) }
        ensures stands { IfOk result (λ cnf. StandsForTwo self.now.design self.now.automaton self.now.visits
            cnf.variables cnf.clauses
            (EntersBy self.now.design self.now.automaton self.now.visits frame.now initial cube.now)) }
        ensures large { IfErr result (λ fault. fault ≡ CnfFault.TooLarge → IsTooLarge
            (relative_variables self.now.design self.now.automaton self.now.visits)
            (spec.query_relative self.now.design self.now.automaton self.now.visits frame.now initial cube.now)) }
    {
        self.facts();
        reach_law();
        relative_of(alloc, self.product, frame, initial, cube)
    }
}
