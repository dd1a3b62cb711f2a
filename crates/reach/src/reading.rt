// Bits of a model, and the joint states whose bits these are.
ghost use Rattle.std.specs.Prelude.{◌≡◌, ◌+◌, suc, false, slice_index_or, All, IfOk};
ghost use Rattle.joint.specs.Slices.{bits_from};
ghost use Rattle.joint_theory.specs.Paths.{IsOpenInitial};
ghost use Rattle.reach.specs.Systems.{system_of};
ghost use Rattle.reach.specs.Readings.{AreRead, HasState};
ghost use Rattle.reach_frames.specs.Paths.{IsViolation};

use joint::Joint;
use joint_theory::{JointPath, JointStates};
use psl_base::{Bits, NoMemory};
use reach_frames::Path;
use std::alloc::Global;

/// The value at a place; behind the last one it is false.
pub(crate) fn value_at(values: &Bits, place: usize) -> bool
    ensures { result ≡ slice_index_or values.now place false }
{
    place < values.len() && *values.at(place)
}

/// So many values from a place on; behind the last one they are false.
pub(crate) fn bits_in(
    alloc: Global,
    values: &Bits,
    start: u32,
    count: u32,
) -> Result<Bits, NoMemory>
    ensures { IfOk result (λ bits. bits ≡ bits_from values.now start count) }
{
    let mut bits = Bits::new(alloc);
    for number in 0..count {
        bits.push(value_at(values, start as usize + number as usize))?;
    }
    Ok(bits)
}

/// The joint states whose bits these are.
pub(crate) fn read_states(
    alloc: Global,
    joint: &Joint,
    path: &Path,
) -> Result<JointStates, NoMemory>
    requires { All (HasState joint.now) path.now }
    ensures { IfOk result (λ states. AreRead joint.now path.now states) }
{
    let mut states = JointStates::new(alloc);
    for place in 0..path.len() {
        states.push(joint.read_state(alloc, path.at(place))?)?;
    }
    Ok(states)
}

/// The path of joint states whose bits these are.
pub(crate) fn read_path(
    alloc: Global,
    joint: &Joint,
    most: u32,
    path: &Path,
) -> Result<JointPath, NoMemory>
    requires { IsViolation (system_of joint.now) (most + 1) path.now }
    ensures { IfOk result (IsOpenInitial joint.now.design joint.now.automaton joint.now.visits (suc most)) }
{
    let states = read_states(alloc, joint, path)?;
    Ok(JointPath { states })
}
