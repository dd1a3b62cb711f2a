// Two searches side by side, and how one of them takes its turn.
ghost use Rattle.std.specs.Prelude.{◌≤◌, IfOk, IfSome};
ghost use Rattle.reach.specs.Holding.{HaveHeld};
ghost use Rattle.reach.specs.Sides.{IsGoing, IsLeft, IsTurned};

use crate::answer::{FrameCount, Reached};
use crate::side::Side;
use joint::Joint;
use psl_base::NoMemory;
use std::alloc::Global;

/// What a search is for: over which joint states, with how many frames at most, and how many steps the solver has for
/// each query.
#[derive(Clone, Copy)]
pub(crate) struct Aim<'a> {
    pub joint: &'a Joint<'a>,
    pub most: u32,
    pub steps: u64,
}

/// What the turn of one of the searches comes to.
#[derive(Drop)]
pub(crate) enum Turned<'a> {
    /// Clauses are inductive, or there is a path.
    Decided(Reached),
    /// The search, unless it has ended; and how the first one ended that decided nothing.
    On(Option<Side<'a>>, Option<Reached>),
}

impl Reached {
    // Whether no other search can find out more.
    fn decides(&self) -> bool {
        match self {
            Reached::Inductive(_, _, _, _) | Reached::Path(_) => true,
            Reached::Open(_) | Reached::Spent(_, _) | Reached::LogFull(_, _) | Reached::Large(_) =>
                false,
        }
    }
}

impl<'a> Aim<'a> {
    /// A search without a frame.
    pub fn side(self, alloc: Global, leaves_out: bool) -> Result<Side<'a>, NoMemory>
        requires { self.most ≤ 1000 }
        ensures { IfOk result (IsGoing self.entry) }
    {
        Side::new(alloc, self.joint, self.most, self.steps, leaves_out)
    }

    /// The search, or a new one where one begins.
    pub fn begun(
        self,
        alloc: Global,
        side: Option<Side<'a>>,
        begins: bool,
    ) -> Result<Option<Side<'a>>, NoMemory>
        requires few { self.most ≤ 1000 }
        requires side { IfSome side (IsGoing self) }
        ensures { IfOk result (λ on. IfSome on (IsGoing self.entry)) }
    {
        if !begins {
            return Ok(side);
        }
        let new = self.side(alloc, false)?;
        Ok(Some(new))
    }

    /// Goes on with a search, unless it has ended. What a search that ends leaves undecided is kept, the first one's.
    pub fn turn(
        self,
        alloc: Global,
        side: Option<Side<'a>>,
        left: Option<Reached>,
        frames: u32,
        budget: Option<u64>,
    ) -> Result<Turned<'a>, NoMemory>
        requires side { IfSome side (IsGoing self) }
        requires left { IfSome left (IsLeft self) }
        requires some { 1 ≤ frames }
        requires few { frames ≤ self.most }
        ensures { IfOk result (IsTurned self.entry side.entry left frames budget) }
    {
        let Some(mut side) = side else {
            return Ok(Turned::On(None, left));
        };
        match side.go_on(alloc, frames, budget)? {
            None => Ok(Turned::On(Some(side), left)),
            Some(reached) => {
                if reached.decides() {
                    return Ok(Turned::Decided(reached));
                }
                match left {
                    Some(first) => Ok(Turned::On(None, Some(first))),
                    None => Ok(Turned::On(None, Some(reached))),
                }
            }
        }
    }
}

/// How many frames of a search keep the bad states out, once some do.
pub(crate) fn held_of(aim: Aim<'_>, side: &Option<Side<'_>>) -> Option<FrameCount>
    requires { IfSome side.now (IsGoing aim) }
    ensures { IfSome result (HaveHeld aim.entry.joint.now) }
{
    match side {
        Some(side) => side.held(),
        None => None,
    }
}
