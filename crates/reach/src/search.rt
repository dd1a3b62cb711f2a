// A search that can be gone on with.
ghost use Rattle.std.specs.Prelude.{◌≡◌, ◌≤◌, ℕ, None, true, false, IfOk, IfSome, IfNone, IsSome, OnErr};
ghost use Rattle.reach.specs.Answers.{IsReached};
ghost use Rattle.reach.specs.Holding.{HaveHeld};

use crate::aim::{Aim, Turned, held_of};
use crate::answer::{FrameCount, Reached};
use crate::side::Side;
use joint::Joint;
use psl_base::NoMemory;
use std::alloc::Global;
use std::marker::Model;

// The second of two searches begins where the first may come back to so many states for each frame: what the first
// decides soon costs no more then.
const LATE: u64 = 1_000;

/// A search for inductive clauses, or for a path to a bad state.
///
/// Two of them go side by side. The first leaves literals out of each cube, one after the other, so that few clauses are
/// kept (Bradley, SAT-based model checking without unrolling, 2011). The second keeps a cube out by what a refutation
/// tells alone: its clauses are longer, it asks less for each, and some designs are decided by it in far fewer frames.
pub struct Search<'a> {
    aim: Aim<'a>,
    // None once it has ended.
    first: Option<Side<'a>>,
    // None before it begins, and once it has ended.
    second: Option<Side<'a>>,
    is_late: bool,
    // How the first of them ended that decided nothing.
    left: Option<Reached>,
    has_ended: bool,
}

impl<'a> Model for Search<'a> {
    ghost use Rattle.reach.specs.Searched.{Searched};

    ghost Value = { Searched };

    ghost use Rattle.alternating.specs.Codes.{automaton_code};
    ghost use Rattle.std.specs.Coded.{codes};

    ghost coded = { Prim.hlevel (codes, automaton_code) };

    ghost use Rattle.reach.specs.Searches.{searched_of, IsSearch};

    ghost view = { searched_of };

    ghost invariant = { IsSearch };
}

// Written out, so that a caller's proof sees one call where a value is dropped.
impl Drop for Search<'_> {
    fn drop(self) {
        let Search {
            aim: _,
            first: _,
            second: _,
            is_late: _,
            left: _,
            has_ended: _,
        } = self;
    }
}

impl<'a> Search<'a> {
    /// A search without a frame. Of frames there are to be at most so many; the solver has so many steps for each query.
    ///
    /// # Errors
    ///
    /// `NoMemory` if memory is refused.
    pub fn new(
        alloc: Global,
        joint: &'a Joint<'a>,
        most: u32,
        steps: u64,
    ) -> Result<Search<'a>, NoMemory>
        requires { most ≤ 1000 }
        ensures { IfOk result (λ search. search
            ≡ record { joined = joint.now; most = most; steps = steps; has_ended = false }) }
    {
        let aim = Aim { joint, most, steps };
        let first = aim.side(alloc, true)?;
        Ok(Search {
            aim,
            first: Some(first),
            second: None,
            is_late: false,
            left: None,
            has_ended: false,
        })
    }

    /// Goes on until so many frames keep the bad states out. Where that leaves it open what is found out, nothing is
    /// told yet: more frames are to come, or the budget is spent. A budget is how many states the search may come back
    /// to for each frame; none is never spent. Without one the first of the two searches goes on alone until it has
    /// ended.
    ///
    /// The answer speaks of the most frames that there are to be.
    ///
    /// # Errors
    ///
    /// `NoMemory` if memory is refused. The search has ended then.
    pub fn go_on(
        &mut self,
        alloc: Global,
        frames: u32,
        budget: Option<u64>,
    ) -> Result<Option<Reached>, NoMemory>
        requires goes_on { self.old.has_ended ≡ false }
        requires some { 1 ≤ frames }
        requires few { frames ≤ self.old.most }
        ensures reached { IfOk result (λ found. IfSome found (IsReached self.old.joined self.old.most self.old.steps)) }
        ensures ended { IfOk result (λ found. IfSome found (λ _. self.new ≡ record self.old { has_ended = true })) }
        ensures on { IfOk result (λ found. IfNone found (self.new ≡ self.old)) }
        ensures decided { IfOk result (λ found. budget ≡ None → frames ≡ self.old.most → IsSome found) }
        ensures refused { OnErr result (self.new ≡ record self.old { has_ended = true }) }
    {
        self.has_ended = true;
        let aim = self.aim;
        let first = self.first.take();
        let (first, left) = match aim.turn(alloc, first, self.left.take(), frames, budget)? {
            Turned::Decided(reached) => return Ok(Some(reached)),
            Turned::On(first, left) => (first, left),
        };
        if first.is_some() && budget.is_none() {
            self.first = first;
            self.left = left;
            self.has_ended = false;
            return Ok(None);
        }
        let begins = begins(self.is_late, first.is_some(), budget);
        let second = aim.begun(alloc, self.second.take(), begins)?;
        let (second, left) = match aim.turn(alloc, second, left, frames, budget)? {
            Turned::Decided(reached) => return Ok(Some(reached)),
            Turned::On(second, left) => (second, left),
        };
        if first.is_none() && second.is_none() {
            return Ok(left);
        }
        self.first = first;
        self.second = second;
        self.left = left;
        self.is_late = self.is_late | begins;
        self.has_ended = false;
        Ok(None)
    }

    /// Whether the search has ended.
    pub fn has_ended(&self) -> bool
        ensures { result ≡ self.now.has_ended }
    {
        self.has_ended
    }

    /// How many frames keep the bad states out, once some do: the more of the two searches.
    pub fn held(&self) -> Option<FrameCount>
        requires { self.now.has_ended ≡ false }
        ensures { IfSome result (HaveHeld self.now.joined) }
    {
        let first = held_of(self.aim, &self.first);
        let second = held_of(self.aim, &self.second);
        match (first, second) {
            (Some(one), Some(other)) if one.frames < other.frames => second,
            (None, _) => second,
            _ => first,
        }
    }
}

// Whether the second search begins: it has not yet, and the first one has ended or goes on for long.
fn begins(is_late: bool, first_goes: bool, budget: Option<u64>) -> bool {
    if is_late {
        return false;
    }
    match budget {
        Some(states) => !first_goes || states >= LATE,
        None => true,
    }
}
