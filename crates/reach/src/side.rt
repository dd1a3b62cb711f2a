// One of two searches side by side, which can be gone on with.
ghost use Rattle.std.specs.Prelude.{◌≡◌, ◌≤◌, ℕ, None, true, false, IfOk, IfSome, IfNone, IsSome, OnErr};
ghost use Rattle.joint.specs.Joined.{Joined};
ghost use Rattle.reach.specs.Answers.{IsReached};
ghost use Rattle.reach.specs.Holding.{HaveHeld};
ghost use Rattle.reach.specs.Questions.{IsStop};

use crate::answer::{FrameCount, Reached};
use crate::machine::JointMachine;
use crate::pacing::{Pace, Sought};
use crate::stepping::strengthen;
use joint::Joint;
use psl_base::NoMemory;
use reach_frames::Stop;
use std::alloc::Global;
use std::marker::Model;

/// A search with frames of its own.
pub(crate) struct Side<'a> {
    machine: JointMachine<'a>,
    sought: Sought,
    most: u32,
    has_ended: bool,
}

impl<'a> Model for Side<'a> {
    ghost use Rattle.reach.specs.Searched.{Searched};

    ghost Value = { Searched };

    ghost use Rattle.alternating.specs.Codes.{automaton_code};
    ghost use Rattle.std.specs.Coded.{codes};

    ghost coded = { Prim.hlevel (codes, automaton_code) };

    ghost use Rattle.reach.specs.Sides.{searched_of, IsSide};

    ghost view = { searched_of };

    ghost invariant = { IsSide };
}

// Written out, so that a caller's proof sees one call where a value is dropped.
impl Drop for Side<'_> {
    fn drop(self) {
        let Side {
            machine: _,
            sought: _,
            most: _,
            has_ended: _,
        } = self;
    }
}

impl<'a> Side<'a> {
    /// A search without a frame. Of frames there are to be at most so many; the solver has so many steps for each query.
    ///
    /// # Errors
    ///
    /// `NoMemory` if memory is refused.
    pub fn new(
        alloc: Global,
        joint: &'a Joint<'a>,
        most: u32,
        steps: u64,
        leaves_out: bool,
    ) -> Result<Side<'a>, NoMemory>
        requires { most ≤ 1000 }
        ensures { IfOk result (λ search. search
            ≡ record { joined = joint.now; most = most; steps = steps; has_ended = false }) }
    {
        let machine = JointMachine::new(alloc, joint, steps, leaves_out)?;
        Ok(Side {
            machine,
            sought: Sought::new(alloc, most),
            most,
            has_ended: false,
        })
    }

    /// Goes on until so many frames keep the bad states out. Where that leaves it open what is found out, nothing is
    /// told yet: more frames are to come, or the budget is spent. A budget is how many states the search may come back
    /// to for each frame; none is never spent.
    ///
    /// The answer speaks of the most frames that there are to be.
    ///
    /// # Errors
    ///
    /// `NoMemory` if memory is refused. The search has ended then.
    pub fn go_on(
        &mut self,
        alloc: Global,
        frames: u32,
        budget: Option<u64>,
    ) -> Result<Option<Reached>, NoMemory>
        requires goes_on { self.old.has_ended ≡ false }
        requires some { 1 ≤ frames }
        requires few { frames ≤ self.old.most }
        ensures reached { IfOk result (λ found. IfSome found (IsReached self.old.joined self.old.most self.old.steps)) }
        ensures ended { IfOk result (λ found. IfSome found (λ _. self.new ≡ record self.old { has_ended = true })) }
        ensures on { IfOk result (λ found. IfNone found (self.new ≡ self.old)) }
        ensures decided { IfOk result (λ found. budget ≡ None → frames ≡ self.old.most → IsSome found) }
        ensures refused { OnErr result (self.new ≡ record self.old { has_ended = true }) }
    {
        self.has_ended = true;
        let pace = Pace {
            most: self.most,
            budget,
        };
        match strengthen(alloc, &self.machine, &mut self.sought, pace, frames) {
            Ok(Some(reached)) => Ok(Some(reached)),
            Ok(None) => {
                self.has_ended = false;
                Ok(None)
            }
            Err(stop) => Ok(Some(end_of(stop)?)),
        }
    }

    /// Whether the search has ended.
    pub fn has_ended(&self) -> bool
        ensures { result ≡ self.now.has_ended }
    {
        self.has_ended
    }

    /// How many frames keep the bad states out, once some do.
    pub fn held(&self) -> Option<FrameCount>
        requires { self.now.has_ended ≡ false }
        ensures { IfSome result (HaveHeld self.now.joined) }
    {
        self.sought.held
    }
}

/// What a stop says.
fn end_of(stop: Stop) -> Result<Reached, NoMemory>
    ensures { IfOk result (λ reached. (joined : Joined) (frames steps : ℕ)
        → IsStop joined steps stop → IsReached joined frames steps reached) }
{
    match stop {
        Stop::NoMemory => Err(NoMemory),
        Stop::Spent(query, log) => Ok(Reached::Spent(Box::into_inner(query), Box::into_inner(log))),
        Stop::LogFull(query, log) => Ok(Reached::LogFull(
            Box::into_inner(query),
            Box::into_inner(log),
        )),
        Stop::Large(query) => Ok(Reached::Large(Box::into_inner(query))),
    }
}
