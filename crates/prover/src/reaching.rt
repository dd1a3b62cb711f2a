// The searches for inductive clauses, behind the queries of each window.
ghost use Rattle.std.specs.Prelude.{◌≡◌, ◌≤◌, suc, [], None, true, false, IfOk, IfErr, IfSome};
ghost use Rattle.joint.specs.Joined.{Joined};
ghost use Rattle.prover.specs.Claims.{IsReady};
ghost use Rattle.prover.specs.Reaching.{joint_for, searches_of, AreEndsFor, AreJointsFor, HaveEnded, IsBegun, IsEndFor, IsReaching};
ghost use Rattle.prover.specs.Stops.{IsLookedAtFor, IsStopOf, StaysOpenFor};
ghost use Rattle.prover.specs.Telling.{HasToldFor, IsHaltAt};
ghost use Rattle.reach.specs.Answers.{IsReached};

use crate::context::Prover;
use crate::finding::{Finding, Query, ReachEnds};
use crate::halt::Halt;
use crate::milestone::{Milestone, Wording};
use crate::stop::Stop;
use crate::telling::Begun;
use cert_theory::InductiveCert;
use joint::{Joint, joint};
use psl_base::{Items, NoMemory, Sink};
use reach::{Reached, Search};
use std::alloc::Global;

// Behind the queries of a window a search may come back to so many states times the window, for each frame.
const STATES_OF_WINDOW: u64 = 100;

/// The joint states for each number of visits, from 0 on.
pub(crate) type Joints<'a> = Items<Joint<'a>>;

/// How far the searches have come. There is one for each number of visits, with as many frames as the depth, and it is
/// gone on with from window to window: to begin anew at each would repeat itself. A smaller number of visits has smaller
/// joint states and so is the more promising one. Hence the searches for larger numbers wait while one goes on, and begin
/// once it has ended: most of those that end have found a path, and none of them comes to inductive clauses at a larger
/// depth either, since such a path stays open.
#[derive(Drop)]
pub(crate) struct Reaching<'j, 'a> {
    pub joints: &'j Joints<'a>,
    /// How those for the first numbers of visits have ended.
    pub ends: ReachEnds,
    /// The one for the next number of visits, where it has begun.
    pub search: Option<Search<'j>>,
}

impl<'j, 'a> Reaching<'j, 'a> {
    /// No search has begun.
    pub fn new(alloc: Global, joints: &'j Joints<'a>) -> Reaching<'j, 'a>
        ensures joints { result.joints.now ≡ joints.now }
        ensures ends { result.ends ≡ [] }
        ensures search { result.search ≡ None }
    {
        Reaching {
            joints,
            ends: ReachEnds::new(alloc),
            search: None,
        }
    }
}

// How many states the searches may come back to behind the queries of a window, for each frame.
fn budget_at(window: u32) -> Option<u64> {
    Some(STATES_OF_WINDOW * u64::from(window))
}

// How many of the searches have ended, and how many frames of the one that goes on keep the bad states out.
fn frames_of(reaching: &Reaching<'_, '_>) -> (usize, usize)
    requires { IfSome reaching.now.search (λ search. search.has_ended ≡ false) }
{
    let frames = match &reaching.search {
        Some(search) => match search.held() {
            Some(count) => count.frames,
            None => 0,
        },
        None => 0,
    };
    (reaching.ends.len(), frames)
}

// The next frame of a search, up to so many.
fn next_frame(search: &Search<'_>, most: u32) -> u32
    requires goes_on { search.now.has_ended ≡ false }
    requires some { 1 ≤ most }
    ensures some { 1 ≤ result }
    ensures few { result ≤ most }
{
    match search.held() {
        Some(count) if count.frames < most as usize => count.frames as u32 + 1,
        Some(_) => most,
        None => 1,
    }
}

impl<'a> Prover<'a> {
    /// The joint states for each number of visits that inductive clauses are sought for. They are made once, for the
    /// searches to borrow. It stops where those for some number are too large, as at the query for them.
    pub fn joints(self, alloc: Global) -> Result<Joints<'a>, Stop>
        requires ready { IsReady self }
        requires looked_at { IsLookedAtFor self.task 0 1 }
        requires open { StaysOpenFor self.task (suc self.task.options.visits) 1 }
        ensures joints { IfOk result (AreJointsFor self.entry.task (searches_of self.entry.task.options)) }
        ensures stop { IfErr result (IsStopOf self.entry.task) }
    {
        let mut joints = Joints::new(alloc);
        for visits in 0..self.task.options.searches() {
            match joint(alloc, self.task.netlist, &self.claim.violation, visits) {
                Ok(joint) => joints.push(joint)?,
                Err(fault) => return Err(Stop::without(Query::Base(visits, 1), fault)),
            }
        }
        Ok(joints)
    }
}

impl Prover<'_> {
    /// Goes on with the searches behind the queries of a window, one after the other, until one spends its budget, and
    /// tells how many frames it has then. It stops where one finds inductive clauses: then the directive is proved.
    pub fn reach_at<'j, 'a, W: Wording, E: Sink, B: Begun>(
        self,
        alloc: Global,
        wording: &W,
        err: &mut E,
        window: u32,
        known: Reaching<'j, 'a>,
    ) -> Result<Reaching<'j, 'a>, Halt>
        requires ready { IsReady self }
        requires known { IsReaching self.task known }
        requires told { HasToldFor self.task (W.line wording.now) B.sink (E.state err.old) }
        ensures reaching { IfOk result (IsReaching self.entry.task) }
        ensures told { IfOk result (λ _. HasToldFor self.entry.task (W.line wording.now) B.sink (E.state err.new)) }
        ensures halt { IfErr result (IsHaltAt self.entry.task (W.line wording.now) B.sink (E.state err.new)) }
    {
        let before = frames_of(&known);
        let reaching = self.reach_on(alloc, budget_at(window), known)?;
        if frames_of(&reaching) != before {
            if let Some(search) = &reaching.search {
                let visits = reaching.ends.len() as u32;
                self.tell_frames::<W, E, B>(alloc, wording, err, visits, search)?;
            }
        }
        Ok(reaching)
    }

    /// Goes on with the searches, one after the other, until each has ended, and tells each frame. It stops where one finds
    /// inductive clauses: then the directive is proved.
    pub fn reach_out<'j, 'a, W: Wording, E: Sink, B: Begun>(
        self,
        alloc: Global,
        wording: &W,
        err: &mut E,
        known: Reaching<'j, 'a>,
    ) -> Result<ReachEnds, Halt>
        requires ready { IsReady self }
        requires known { IsReaching self.task known }
        requires told { HasToldFor self.task (W.line wording.now) B.sink (E.state err.old) }
        ensures ends { IfOk result (AreEndsFor self.entry.task (searches_of self.entry.task.options)) }
        ensures told { IfOk result (λ _. HasToldFor self.entry.task (W.line wording.now) B.sink (E.state err.new)) }
        ensures halt { IfErr result (IsHaltAt self.entry.task (W.line wording.now) B.sink (E.state err.new)) }
    {
        let Reaching {
            joints,
            mut ends,
            search: mut begun,
        } = known;
        for visits in ends.len()..joints.len() {
            let search = self.search_of(alloc, joints.at(visits), begun)?;
            begun = None;
            let reached = self.end_search::<W, E, B>(alloc, wording, err, visits as u32, search)?;
            ends.push(self.end_of(visits as u32, reached)?)?;
        }
        Ok(ends)
    }

    // Goes on with a search until it has ended, and tells each frame.
    fn end_search<W: Wording, E: Sink, B: Begun>(
        self,
        alloc: Global,
        wording: &W,
        err: &mut E,
        visits: u32,
        begun: Search<'_>,
    ) -> Result<Reached, Halt>
        requires depth { 1 ≤ self.task.options.depth }
        requires begun { IsBegun self.task (joint_for self.task visits) begun }
        requires told { HasToldFor self.task (W.line wording.now) B.sink (E.state err.old) }
        ensures reached { IfOk result (IsReached (joint_for self.entry.task visits) self.entry.task.options.depth
            self.entry.task.options.steps) }
        ensures told { IfOk result (λ _. HasToldFor self.entry.task (W.line wording.now) B.sink (E.state err.new)) }
        ensures halt { IfErr result (IsHaltAt self.entry.task (W.line wording.now) B.sink (E.state err.new)) }
    {
        let depth = self.task.options.depth;
        let mut search = begun;
        let mut frames = next_frame(&search, depth);
        while frames < depth {
            match search.go_on(alloc, frames, None)? {
                Some(reached) => return Ok(reached),
                None => {}
            }
            self.tell_frames::<W, E, B>(alloc, wording, err, visits, &search)?;
            frames += 1;
        }
        match search.go_on(alloc, depth, None)? {
            Some(reached) => Ok(reached),
            None => unreachable!(),
        }
    }

    // Tells how many frames of a search keep the bad states out, once some do.
    fn tell_frames<W: Wording, E: Sink, B: Begun>(
        self,
        alloc: Global,
        wording: &W,
        err: &mut E,
        visits: u32,
        search: &Search<'_>,
    ) -> Result<(), Halt>
        requires begun { IsBegun self.task (joint_for self.task visits) search.now }
        requires told { HasToldFor self.task (W.line wording.now) B.sink (E.state err.old) }
        ensures told { IfOk result (λ _. HasToldFor self.entry.task (W.line wording.now) B.sink (E.state err.new)) }
        ensures halt { IfErr result (IsHaltAt self.entry.task (W.line wording.now) B.sink (E.state err.new)) }
    {
        match search.held() {
            Some(count) => {
                let milestone = Milestone::Frames(visits, count);
                self.tell::<W, E, B>(alloc, wording, err, milestone)
            }
            None => Ok(()),
        }
    }

    // Goes on with the searches, one after the other, until one spends the budget. It stops where one finds inductive
    // clauses: then the directive is proved.
    fn reach_on<'j, 'a>(
        self,
        alloc: Global,
        budget: Option<u64>,
        known: Reaching<'j, 'a>,
    ) -> Result<Reaching<'j, 'a>, Stop>
        requires ready { IsReady self }
        requires known { IsReaching self.task known }
        ensures reaching { IfOk result (IsReaching self.entry.task) }
        ensures stop { IfErr result (IsStopOf self.entry.task) }
    {
        let Reaching {
            joints,
            mut ends,
            search: mut begun,
        } = known;
        for visits in ends.len()..joints.len() {
            let mut search = self.search_of(alloc, joints.at(visits), begun)?;
            begun = None;
            match search.go_on(alloc, self.task.options.depth, budget)? {
                Some(reached) => ends.push(self.end_of(visits as u32, reached)?)?,
                None => {
                    return Ok(Reaching {
                        joints,
                        ends,
                        search: Some(search),
                    });
                }
            }
        }
        Ok(Reaching {
            joints,
            ends,
            search: None,
        })
    }

    // The search over joint states as it has begun, or a new one.
    fn search_of<'j>(
        self,
        alloc: Global,
        joint: &'j Joint<'j>,
        begun: Option<Search<'j>>,
    ) -> Result<Search<'j>, NoMemory>
        requires few { self.task.options.depth ≤ 1000 }
        requires begun { IfSome begun (IsBegun self.task joint.now) }
        ensures { IfOk result (IsBegun self.entry.task joint.now) }
    {
        match begun {
            Some(search) => Ok(search),
            None => Search::new(
                alloc,
                joint,
                self.task.options.depth,
                self.task.options.steps,
            ),
        }
    }

    // How the search for a number of visits ends, where it does without inductive clauses.
    fn end_of(self, visits: u32, reached: Reached) -> Result<Reached, Stop>
        requires asked { self.task.options.reach ≡ true }
        requires few { visits ≤ self.task.options.visits }
        requires fewer { HaveEnded self.task visits }
        requires reached { IsReached (joint_for self.task visits) self.task.options.depth self.task.options.steps
            reached }
        ensures end { IfOk result (IsEndFor self.entry.task visits) }
        ensures stop { IfErr result (IsStopOf self.entry.task) }
    {
        match reached {
            Reached::Inductive(clauses, initial, step, bad) => {
                Err(Stop::Found(Finding::ProvedReach(InductiveCert {
                    assertion: self.task.directive.number,
                    visits,
                    clauses,
                    initial,
                    step,
                    bad,
                })))
            }
            end => Ok(end),
        }
    }
}
