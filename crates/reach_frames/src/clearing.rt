// One step of the search.
ghost use Rattle.std.specs.Prelude.{◌≡◌, ◌<◌, ◌≤◌, length, IfOk, IfErr, OnOk};
ghost use Rattle.reach_frames.specs.Levels.{frames_of, AreWitnesses};
ghost use Rattle.reach_frames.specs.Steps.{IsStep};
ghost use Rattle.reach_frames.specs.Systems.{AreSound};

use crate::blocking::{Blocked, Task, block};
use crate::settling::settle;
use crate::{Frames, Literals, Machine, Step, Stop};
use std::alloc::Global;

impl Frames {
    /// Keeps the goal out of every frame, and moves clauses on to the frames in which they hold too.
    ///
    /// A path has at most one state more than `most`. After a pause the call can be made again, on the same frames: what
    /// was learned stays, and the questions begin anew at the goal. So give it more each time, or at least one question
    /// for each frame.
    ///
    /// # Errors
    ///
    /// Why the machine could not decide a question. Nothing is said of the frames then.
    pub fn clear<M: Machine>(
        &mut self,
        alloc: Global,
        machine: &M,
        most: u32,
        mut budget: Option<u64>,
    ) -> Result<Step, Stop>
        requires sound { AreSound (M.system machine.now) (frames_of self.old) }
        requires witnessed { AreWitnesses (M.system machine.now) self.old }
        requires some { 0 < length self.old }
        requires few { length self.old ≤ most }
        requires depth { most ≤ 1000 }
        ensures sound { OnOk result (AreSound (M.system machine.now) (frames_of self.new)) }
        ensures witnessed { OnOk result (AreWitnesses (M.system machine.now) self.new) }
        ensures many { OnOk result (length self.new ≡ length self.old) }
        ensures step { IfOk result (IsStep (M.system machine.now) most budget self.new) }
        ensures stopped { IfErr result (M.stops machine.now) }
    {
        machine.width();
        let goal = [machine.goal()];
        let task = Task {
            cube: Literals::from_slice(alloc, &goal)?,
            room: most as usize,
        };
        let last = self.len() - 1;
        match block(alloc, machine, self, &mut budget, &task, last)? {
            Blocked::Out => settle(alloc, machine, self),
            Blocked::Path(path) => Ok(Step::Path(path)),
            Blocked::Paused => Ok(Step::Paused),
        }
    }
}
