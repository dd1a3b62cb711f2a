ghost use Rattle.std.specs.Prelude.{◌≡◌, ◌≤◌, IfOk};
ghost use Rattle.clauses.specs.declared.flat.TheConstants.{MOST_VARIABLES};
ghost use Rattle.joint_theory.specs.Bits as spec;
ghost use Rattle.joint_theory.specs.Bits.{joint_width};
ghost use Rattle.joint_theory.specs.States.{IsState};
ghost use Rattle.joint_theory.specs.declared.path.JointState.{JointState};

use crate::joined::Joint;
use crate::model_state::read_state as state_at;
use joint_theory::JointState;
use psl_base::{Bits, NoMemory};
use std::alloc::Global;

impl<'a> Joint<'a> {
    /// How many bits a joint state has.
    pub fn state_bits(&self) -> u32
        ensures is { result ≡ joint_width self.now.design self.now.automaton self.now.visits }
        ensures few { result ≤ MOST_VARIABLES }
    {
        self.product.width
    }

    /// The joint state whose bits these are.
    pub fn read_state(&self, alloc: Global, bits: &Bits) -> Result<JointState, NoMemory>
        requires some { (state : JointState) × IsState self.now.design self.now.automaton self.now.visits state
            × (bits.now ≡ spec.state_bits self.now.design self.now.automaton self.now.visits state) }
        ensures is { IfOk result (λ state.
            IsState self.now.design self.now.automaton self.now.visits state) }
        ensures bits { IfOk result (λ state.
            spec.state_bits self.now.design self.now.automaton self.now.visits state ≡ bits.now) }
    {
        state_at(alloc, self.product, bits.as_slice(), 0)
    }
}
