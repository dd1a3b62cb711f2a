// Keeping the bad states out of frames, and how far cubes are followed on the way.
ghost use Rattle.std.specs.Prelude.{◌≡◌, ◌≤◌, ◌<◌, [], None, true, length, IfOk, IfErr, OnOk};
ghost use Rattle.reach.specs.Pacing.{is_too_long};
ghost use Rattle.reach.specs.Questions.{IsStop};
ghost use Rattle.reach.specs.Sides.{AreGood};
ghost use Rattle.reach.specs.Systems.{system_of};
ghost use Rattle.reach_frames.specs.Steps.{IsStep};

use crate::answer::FrameCount;
use crate::machine::JointMachine;
use reach_frames::{Frames, Step, Stop};
use std::alloc::Global;

// A path may be so many times longer than one that is told while cubes are followed, and have so many states at most.
const TIMES_ROOM: u32 = 8;

const MOST_ROOM: u32 = 1_000;

/// How a search goes.
#[derive(Clone, Copy, Debug)]
pub(crate) struct Pace {
    /// How many frames there are to be at most. A path that is told has one state more at most.
    pub most: u32,
    /// How many states may be come back to for each frame, if there is a limit.
    pub budget: Option<u64>,
}

/// Frames, and how many states before its last one a path may have that is met while cubes are followed to higher frames.
///
/// Where cubes are followed far, few frames show what holds for good, also where runs are long (Bradley, SAT-based model
/// checking without unrolling, 2011). A path may be met that is too long to be told: from then on they are followed only
/// as far as a path can be told.
#[derive(Debug, Drop)]
pub(crate) struct Sought {
    pub frames: Frames,
    pub room: u32,
    /// How many of them keep the bad states out, once some do. There may be one more, which does not yet.
    pub held: Option<FrameCount>,
}

impl Sought {
    /// No frame. It takes no memory.
    pub fn new(alloc: Global, most: u32) -> Sought
        requires { most ≤ 1000 }
        ensures frames { result.frames ≡ [] }
        ensures more { most ≤ result.room }
        ensures few { result.room ≤ 1000 }
        ensures held { result.held ≡ None }
    {
        Sought {
            frames: Frames::new(alloc),
            room: most.saturating_mul(TIMES_ROOM).min(MOST_ROOM).max(most),
            held: None,
        }
    }

    /// Whether there is to be a frame more, of so many that are wanted: each that there is keeps the bad states out.
    pub fn wants_frame(&self, wanted: u32) -> bool
        ensures few { result ≡ true → length self.now.frames < wanted }
        ensures first { self.now.frames ≡ [] → 1 ≤ wanted → result ≡ true }
    {
        let count = self.frames.len();
        if count >= wanted as usize {
            return false;
        }
        match self.held {
            Some(held) => count == 0 || held.frames == count,
            None => count == 0,
        }
    }
}

// How many states a path may have before its last one now: where there is no limit to the time, only as many as can be
// told, so that an end comes soon.
fn room_of(sought: &Sought, pace: Pace) -> u32
    requires more { pace.most ≤ sought.now.room }
    requires few { sought.now.room ≤ 1000 }
    ensures more { pace.most ≤ result }
    ensures few { result ≤ 1000 }
{
    match pace.budget {
        Some(_) => sought.room,
        None => pace.most,
    }
}

/// Whether a step comes to a path that is too long to be told.
fn is_too_long(step: &Step, most: u32) -> bool
    ensures { result ≡ is_too_long most step.now }
{
    match step {
        Step::Path(path) => path.len() > most as usize + 1,
        Step::Cleared(_) | Step::Invariant(_) | Step::Paused => false,
    }
}

/// Makes the frames keep the bad states out.
pub(crate) fn cleared(
    alloc: Global,
    machine: &JointMachine,
    sought: &mut Sought,
    pace: Pace,
) -> Result<Step, Stop>
    requires good { AreGood machine.now.joint.now pace.most sought.old.frames }
    requires some { 0 < length sought.old.frames }
    requires more { pace.most ≤ sought.old.room }
    requires few { sought.old.room ≤ 1000 }
    ensures good { OnOk result (AreGood machine.now.joint.now pace.most sought.new.frames) }
    ensures many { OnOk result (length sought.new.frames ≡ length sought.old.frames) }
    ensures more { pace.most ≤ sought.new.room }
    ensures few { sought.new.room ≤ 1000 }
    ensures held { sought.new.held ≡ sought.old.held }
    ensures step { IfOk result (IsStep (system_of machine.now.joint.now) pace.most pace.budget sought.new.frames) }
    ensures stopped { IfErr result (IsStop machine.now.joint.now machine.now.steps) }
{
    let room = room_of(sought, pace);
    let step = sought.frames.clear(alloc, machine, room, pace.budget)?;
    if !is_too_long(&step, pace.most) {
        return Ok(step);
    }
    sought.room = pace.most;
    sought.frames.clear(alloc, machine, pace.most, pace.budget)
}
