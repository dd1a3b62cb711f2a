// One step of a search after another.
ghost use Rattle.std.specs.Prelude.{◌≡◌, ◌≤◌, ◌<◌, None, length, IfOk, IfErr, IfSome, IfNone, IsSome, OnOk};
ghost use Rattle.reach.specs.Answers.{IsReached};
ghost use Rattle.reach.specs.Holding.{HaveHeld};
ghost use Rattle.reach.specs.Progress.{IsProgress};
ghost use Rattle.reach.specs.Questions.{IsStop};
ghost use Rattle.reach.specs.Sides.{AreGood};

use crate::answer::{FrameCount, Reached};
use crate::ending::{inductive, opened};
use crate::machine::JointMachine;
use crate::pacing::{Pace, Sought, cleared};
use crate::reading::read_path;
use reach_frames::{Step, Stop};
use std::alloc::Global;

/// What a step of a search comes to.
#[derive(Debug, Drop)]
pub(crate) enum Progress {
    /// The frames keep the bad states out, and there may be more of them.
    Cleared,
    /// The budget is spent.
    Paused,
    /// The search has ended.
    Ended(Reached),
}

/// Makes the frames keep the bad states out.
fn step(
    alloc: Global,
    machine: &JointMachine,
    sought: &mut Sought,
    pace: Pace,
) -> Result<Progress, Stop>
    requires good { AreGood machine.now.joint.now pace.most sought.old.frames }
    requires some { 0 < length sought.old.frames }
    requires more { pace.most ≤ sought.old.room }
    requires few { sought.old.room ≤ 1000 }
    requires held { IfSome sought.old.held (HaveHeld machine.now.joint.now) }
    ensures good { OnOk result (AreGood machine.now.joint.now pace.most sought.new.frames) }
    ensures many { OnOk result (length sought.new.frames ≡ length sought.old.frames) }
    ensures more { pace.most ≤ sought.new.room }
    ensures fewer { sought.new.room ≤ 1000 }
    ensures held { OnOk result (IfSome sought.new.held (HaveHeld machine.now.joint.now)) }
    ensures progress { IfOk result (IsProgress machine.now.joint.now machine.now.steps pace.most pace.budget
        sought.new.frames) }
    ensures stopped { IfErr result (IsStop machine.now.joint.now machine.now.steps) }
{
    match cleared(alloc, machine, sought, pace)? {
        Step::Cleared(stuck) => {
            sought.held = Some(FrameCount {
                frames: sought.frames.len(),
                clauses: sought.frames.last_len(),
            });
            if sought.frames.len() < pace.most as usize {
                return Ok(Progress::Cleared);
            }
            let open = opened(alloc, machine, &sought.frames, &stuck)?;
            Ok(Progress::Ended(Reached::Open(open)))
        }
        Step::Invariant(clauses) => Ok(Progress::Ended(inductive(alloc, machine, clauses)?)),
        Step::Path(path) => {
            let path = read_path(alloc, machine.joint, pace.most, &path)?;
            Ok(Progress::Ended(Reached::Path(path)))
        }
        Step::Paused => Ok(Progress::Paused),
    }
}

/// Goes on until so many frames keep the bad states out, the budget is spent for one of them, or the search has ended.
pub(crate) fn strengthen(
    alloc: Global,
    machine: &JointMachine,
    sought: &mut Sought,
    pace: Pace,
    wanted: u32,
) -> Result<Option<Reached>, Stop>
    requires good { AreGood machine.now.joint.now pace.most sought.old.frames }
    requires more { pace.most ≤ sought.old.room }
    requires fewer { sought.old.room ≤ 1000 }
    requires held { IfSome sought.old.held (HaveHeld machine.now.joint.now) }
    requires some { 1 ≤ wanted }
    requires few { wanted ≤ pace.most }
    ensures good { OnOk result (AreGood machine.now.joint.now pace.most sought.new.frames) }
    ensures more { pace.most ≤ sought.new.room }
    ensures fewer { sought.new.room ≤ 1000 }
    ensures held { OnOk result (IfSome sought.new.held (HaveHeld machine.now.joint.now)) }
    ensures reached { IfOk result (λ found. IfSome found (IsReached machine.now.joint.now pace.most machine.now.steps)) }
    ensures decided { IfOk result (λ found. pace.budget ≡ None → wanted ≡ pace.most → IsSome found) }
    ensures stopped { IfErr result (IsStop machine.now.joint.now machine.now.steps) }
{
    if sought.wants_frame(wanted) {
        sought.frames.open(alloc)?;
    }
    loop {
        match step(alloc, machine, sought, pace)? {
            Progress::Ended(reached) => return Ok(Some(reached)),
            Progress::Paused => return Ok(None),
            Progress::Cleared => {}
        }
        if sought.frames.len() >= wanted as usize {
            return Ok(None);
        }
        sought.frames.open(alloc)?;
    }
}
