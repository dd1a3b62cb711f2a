// Paths that keep windows open beyond the one at which they were found.
ghost use Rattle.std.specs.Prelude.{◌≡◌, ◌-◌, ◌<◌, ◌≤◌, suc, length, slice_get, Some, IfOk, IfErr, IfSome};
ghost use Rattle.prover.specs.Claims.{IsReady};
ghost use Rattle.prover.specs.Kept.{AreKeptFor, IsAhead, IsKeptFor, keeps_at};
ghost use Rattle.prover.specs.Stops.{IsLookedAtFor, IsStopOf};
ghost use Rattle.prover.specs.Views.{IsJointOf, IsPathAt};
ghost use Rattle.prover_bmc.specs.Chains.{IsLikely};

use crate::context::Prover;
use crate::finding::{OpenPath, OpenPaths, Query};
use crate::stop::Stop;
use cdcl::{Answer, solve};
use clauses::CnfFault;
use joint::{Joint, joint};
use prover_bmc::{Likely, Opened, Opens};
use prover_open::open_path;
use psl_base::NoMemory;
use std::alloc::Global;

// A look ahead takes at most so many lemmas.
const LEMMAS_AHEAD: u64 = 10_000;

// A question for a path that is likely to be open takes so many conflicts at most.
const MOST_CONFLICTS: u64 = 100_000;

// So many times it is asked again for one whose states differ where those of the one before were alike.
const MOST_ALIKE: u32 = 1_000;

impl OpenPath {
    // Whether it keeps a window open, where it does the one before: a path of the initial kind is open at each window
    // that is larger, and the last states of another one at each that is smaller.
    fn keeps(&self, window: u32) -> bool
        ensures { result ≡ keeps_at window self.now }
    {
        self.initial || (window as usize) < self.path.states.len()
    }
}

impl Prover<'_> {
    /// A path for each number of visits that keeps the first window open. It stops where there is none for one of them:
    /// then the directive is proved.
    pub fn first_paths(self, alloc: Global, opens: &mut Opens<'_>) -> Result<OpenPaths, Stop>
        requires ready { IsReady self }
        requires netlist { opens.old ≡ self.task.netlist.now }
        requires looked_at { IsLookedAtFor self.task 0 1 }
        ensures netlist { opens.new ≡ opens.old }
        ensures paths { IfOk result (AreKeptFor self.entry.task (suc self.entry.task.options.visits) 1) }
        ensures stop { IfErr result (IsStopOf self.entry.task) }
    {
        let mut paths = OpenPaths::new(alloc);
        for visits in 0..=self.task.options.visits {
            let fewer = path_before(&paths, visits);
            let path = self.next_path(alloc, opens, fewer, visits, 1)?;
            paths.push(path)?;
        }
        Ok(paths)
    }

    /// A path for each number of visits that keeps the window open, where these keep open the window before. It stops
    /// where there is none for one of them: then the directive is proved.
    pub fn keep(
        self,
        alloc: Global,
        opens: &mut Opens<'_>,
        window: u32,
        known: OpenPaths,
    ) -> Result<OpenPaths, Stop>
        requires ready { IsReady self }
        requires netlist { opens.old ≡ self.task.netlist.now }
        requires looked_at { IsLookedAtFor self.task 0 window }
        requires known { AreKeptFor self.task (suc self.task.options.visits) (window - 1) known }
        ensures netlist { opens.new ≡ opens.old }
        ensures paths { IfOk result (AreKeptFor self.entry.task (suc self.entry.task.options.visits) window) }
        ensures stop { IfErr result (IsStopOf self.entry.task) }
    {
        let mut paths = known;
        for visits in 0..=self.task.options.visits {
            if !paths.at(visits as usize).keeps(window) {
                let fewer = path_before(&paths, visits);
                let path = self.next_path(alloc, opens, fewer, visits, window)?;
                paths.set(visits as usize, path);
            }
        }
        Ok(paths)
    }

    // A path that keeps the window open for a number of visits, where this one does so for one visit fewer, if there is
    // one. A path of the induction does so for more visits too, once it is counted for them.
    fn next_path(
        self,
        alloc: Global,
        opens: &mut Opens<'_>,
        fewer: Option<&OpenPath>,
        visits: u32,
        window: u32,
    ) -> Result<OpenPath, Stop>
        requires ready { IsReady self }
        requires netlist { opens.old ≡ self.task.netlist.now }
        requires fewer { IfSome fewer (λ path. (0 < visits) × IsKeptFor self.task (visits - 1) window path.now) }
        requires looked_at { IsLookedAtFor self.task visits window }
        ensures netlist { opens.new ≡ opens.old }
        ensures path { IfOk result (IsKeptFor self.entry.task visits window) }
        ensures stop { IfErr result (IsStopOf self.entry.task) }
    {
        if let Some(path) = fewer {
            if !path.initial {
                let raised = path.raised(alloc, visits - 1)?;
                return Ok(raised);
            }
        }
        if visits == 0 {
            if let Some(path) = self.likely_path(alloc, opens, window)? {
                return Ok(path);
            }
        }
        self.keep_at(alloc, visits, window)
    }

    // A path that keeps the window open, counted for no visit. One of the induction is likely to be: it is told by a solver
    // whose formula holds of few states, and judged here. Where larger windows are not told to be open, there may be one of
    // the initial kind, which is open at all of them.
    fn likely_path(
        self,
        alloc: Global,
        opens: &mut Opens<'_>,
        window: u32,
    ) -> Result<Option<OpenPath>, NoMemory>
        requires ready { IsReady self }
        requires netlist { opens.old ≡ self.task.netlist.now }
        requires within { window ≤ self.task.options.depth }
        ensures netlist { opens.new ≡ opens.old }
        ensures path { IfOk result (λ found. IfSome found (IsKeptFor self.entry.task 0 window)) }
    {
        let depth = self.task.options.depth;
        let steps = self.task.options.steps.min(MOST_CONFLICTS);
        for _again in 0..MOST_ALIKE {
            match opens.ask(alloc, window, depth, steps)? {
                Opened::Likely(likely) => {
                    let larger = likely.window();
                    if larger < window || larger > depth {
                        return Ok(None);
                    }
                    if let Some(path) = self.judged_path(alloc, &likely, larger)? {
                        return Ok(Some(path));
                    }
                    if !opens.part(alloc, &likely)? {
                        return Ok(None);
                    }
                }
                Opened::Closer => {
                    if let Some(path) = self.initial_path(alloc, window)? {
                        return Ok(Some(path));
                    }
                }
                Opened::None | Opened::Nothing => return Ok(None),
            }
        }
        Ok(None)
    }

    // A path of the initial kind that is open at the window, counted for no visit, if few lemmas tell one.
    fn initial_path(self, alloc: Global, window: u32) -> Result<Option<OpenPath>, NoMemory>
        requires ready { IsReady self }
        ensures { IfOk result (λ found. IfSome found (IsPathAt self.entry.task 0 window)) }
    {
        match joint(alloc, self.task.netlist, &self.claim.violation, 0) {
            Ok(joint) => self.peek_first(alloc, &joint, 0, window),
            Err(CnfFault::TooLarge) => Ok(None),
            Err(CnfFault::NoMemory) => Err(NoMemory),
        }
    }

    // The path of joint states that are likely to be open at the window, where it is.
    fn judged_path(
        self,
        alloc: Global,
        likely: &Likely,
        window: u32,
    ) -> Result<Option<OpenPath>, NoMemory>
        requires ready { IsReady self }
        requires likely { IsLikely self.task.netlist.now likely.now }
        ensures { IfOk result (λ found. IfSome found (IsAhead self.entry.task 0 window)) }
    {
        if likely.choices.inputs.len() != window as usize + 1 {
            return Ok(None);
        }
        let (netlist, violation) = (self.task.netlist, &self.claim.violation);
        let choices = &likely.choices;
        match open_path(
            alloc,
            netlist,
            violation,
            choices,
            &likely.owed,
            &likely.pending,
        )? {
            Some(path) => Ok(Some(OpenPath {
                visits: 0,
                initial: false,
                path,
            })),
            None => Ok(None),
        }
    }

    // A path that keeps the window open for a number of visits. Larger windows are looked at first, since a path that is
    // open there spares the windows between.
    fn keep_at(self, alloc: Global, visits: u32, window: u32) -> Result<OpenPath, Stop>
        requires ready { IsReady self }
        requires looked_at { IsLookedAtFor self.task visits window }
        ensures path { IfOk result (IsKeptFor self.entry.task visits window) }
        ensures stop { IfErr result (IsStopOf self.entry.task) }
    {
        let joint = match joint(alloc, self.task.netlist, &self.claim.violation, visits) {
            Ok(joint) => joint,
            Err(fault) => return Err(Stop::without(Query::Base(visits, window), fault)),
        };
        // A path of the initial kind is open at each larger window too. Where none is told, larger windows are looked at;
        // without a visit these were asked for already, and are likely to be closed.
        if 0 < visits {
            if let Some(path) = self.peek_first(alloc, &joint, visits, window)? {
                return Ok(path);
            }
        }
        let mut ahead = if visits == 0 {
            window
        } else {
            (window - 1).saturating_mul(2).min(self.task.options.depth)
        };
        while window < ahead {
            if let Some(path) = self.peek(alloc, &joint, visits, ahead)? {
                return Ok(path);
            }
            ahead = window + (ahead - window) / 2;
        }
        self.close_at(alloc, &joint, visits, window)
    }

    // A path of the initial kind that is open at the window, if few lemmas tell one.
    fn peek_first(
        self,
        alloc: Global,
        joint: &Joint,
        visits: u32,
        window: u32,
    ) -> Result<Option<OpenPath>, NoMemory>
        requires ready { IsReady self }
        requires joint { IsJointOf self.task visits joint.now }
        ensures { IfOk result (λ found. IfSome found (IsPathAt self.entry.task visits window)) }
    {
        let formula = match joint.base(alloc, window) {
            Ok(formula) => formula,
            Err(CnfFault::TooLarge) => return Ok(None),
            Err(CnfFault::NoMemory) => return Err(NoMemory),
        };
        match solve(alloc, &formula, self.task.options.steps.min(LEMMAS_AHEAD))? {
            Answer::Model(values) => {
                let path = joint.read_path(alloc, window, true, &values)?;
                Ok(Some(OpenPath {
                    visits,
                    initial: true,
                    path,
                }))
            }
            Answer::Refuted(_) | Answer::Spent(_) | Answer::LogFull(_) => Ok(None),
        }
    }

    // A path of the induction that is open at the window, if few lemmas tell one.
    fn peek(
        self,
        alloc: Global,
        joint: &Joint,
        visits: u32,
        window: u32,
    ) -> Result<Option<OpenPath>, NoMemory>
        requires ready { IsReady self }
        requires joint { IsJointOf self.task visits joint.now }
        ensures { IfOk result (λ found. IfSome found (IsAhead self.entry.task visits window)) }
    {
        let formula = match joint.induction(alloc, window) {
            Ok(formula) => formula,
            Err(CnfFault::TooLarge) => return Ok(None),
            Err(CnfFault::NoMemory) => return Err(NoMemory),
        };
        match solve(alloc, &formula, self.task.options.steps.min(LEMMAS_AHEAD))? {
            Answer::Model(values) => {
                let path = joint.read_path(alloc, window, false, &values)?;
                Ok(Some(OpenPath {
                    visits,
                    initial: false,
                    path,
                }))
            }
            Answer::Refuted(_) | Answer::Spent(_) | Answer::LogFull(_) => Ok(None),
        }
    }
}

// The path for one visit fewer than so many, if there is one.
fn path_before(paths: &OpenPaths, visits: u32) -> Option<&OpenPath>
    requires { visits ≤ length paths.now }
    ensures { IfSome result (λ path. (0 < visits) × (slice_get paths.now (visits - 1) ≡ Some path.now)) }
{
    if visits == 0 {
        return None;
    }
    Some(paths.at(visits as usize - 1))
}
