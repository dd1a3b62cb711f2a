// Paths of joint states, counted for one visit more.
ghost use Rattle.std.specs.Prelude.{◌≡◌, ◌≤◌, suc, All, IfOk, false};
ghost use Rattle.prover.specs.Raised.{raised_path, raised_state};

use crate::finding::OpenPath;
use joint_theory::{JointPath, JointState, JointStates};
use psl_base::NoMemory;
use std::alloc::Global;

impl OpenPath {
    /// The same path, counted for one visit more: the count of each state is one higher. It is of the induction, since
    /// a path of the initial kind begins with nothing counted.
    pub(crate) fn raised(&self, alloc: Global, visits: u32) -> Result<OpenPath, NoMemory>
        requires few { visits ≤ 16 }
        requires counts { All (λ state. state.count ≤ suc visits) self.now.path.states }
        ensures visits { IfOk result (λ path. path.visits ≡ suc visits) }
        ensures other { IfOk result (λ path. path.initial ≡ false) }
        ensures path { IfOk result (λ path. path.path ≡ raised_path self.now.path) }
    {
        let path = raised(alloc, &self.path, visits)?;
        Ok(OpenPath {
            visits: visits + 1,
            initial: false,
            path,
        })
    }
}

/// The path with the count of each state one higher.
fn raised(alloc: Global, path: &JointPath, visits: u32) -> Result<JointPath, NoMemory>
    requires few { visits ≤ 16 }
    requires counts { All (λ state. state.count ≤ suc visits) path.now.states }
    ensures { IfOk result (λ raised. raised ≡ raised_path path.now) }
{
    let mut states = JointStates::new(alloc);
    for state in path.states.as_slice() {
        states.push(one_raised(alloc, state)?)?;
    }
    Ok(JointPath { states })
}

/// The state with its count one higher.
fn one_raised(alloc: Global, state: &JointState) -> Result<JointState, NoMemory>
    requires { state.now.count ≤ 17 }
    ensures { IfOk result (λ raised. raised ≡ raised_state state.now) }
{
    let before = match &state.before {
        Some(valuation) => Some(valuation.copy(alloc)?),
        None => None,
    };
    Ok(JointState {
        before,
        valuation: state.valuation.copy(alloc)?,
        owed: state.owed.copy(alloc)?,
        pending: state.pending.copy(alloc)?,
        count: state.count + 1,
    })
}
