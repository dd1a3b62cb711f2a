ghost use Rattle.std.specs.Prelude.{◌≡◌, ◌-◌, suc, IfOk, IfErr};
ghost use Rattle.prover.specs.Claims.{IsReady};
ghost use Rattle.prover.specs.Findings.{IsFinding};
ghost use Rattle.prover.specs.Kept.{AreKeptFor};
ghost use Rattle.prover.specs.Reaching.{searches_of, AreEndsFor};
ghost use Rattle.prover.specs.Stops.{IsFindingFor, IsLookedAtFor, IsUndecidedFor};
ghost use Rattle.prover.specs.Telling.{HasToldFor, IsFaultAt, IsHaltAt};
ghost use Rattle.prover.specs.Tasks.{IsProvable};

use crate::claim::claim_of;
use crate::context::Prover;
use crate::finding::{Finding, OpenPaths, ReachEnds};
use crate::halt::{Halt, ProveFault};
use crate::milestone::{Milestone, Wording};
use crate::reaching::Reaching;
use crate::searching::Searched;
use crate::silence::{Nowhere, Silent};
use crate::stop::Stop;
use crate::task::Task;
use crate::telling::Begun;
use prover_bmc::{Opens, Prefixes};
use psl_base::{NoMemory, Sink};
use std::alloc::Global;
use std::marker::Brand;

/// Seeks a proof that each run of the netlist satisfies what is owed, and a run that does not. For each number from 1
/// to the depth it looks for a run of so many valuations that does not, and for longer ones ahead of it; then for a path of
/// so many, such that the run which begins with it and then holds its inputs does not; then, for each number of visits, for
/// a joint path that is open at that window. The first number of visits for which none is proves the directive (Sheeran,
/// Singh and Stalmarck, Checking safety properties using induction and a SAT-solver). Where the options ask for it,
/// inductive clauses are sought behind these; the first number of visits for which there are some proves it too (Bradley,
/// SAT-based model checking without unrolling). Once a path is found behind which holding the inputs does not satisfy it,
/// runs of so many valuations alone are looked for, up to the depth: one of them goes first.
///
/// # Errors
///
/// `NoMemory` if memory is refused.
pub fn prove(alloc: Global, task: Task) -> Result<Finding, NoMemory>
    requires { IsProvable task }
    ensures { IfOk result (IsFinding task.entry.netlist.now task.entry.unit.now task.entry.directive.now
        task.entry.options) }
{
    let mut nowhere = Nowhere;
    match prove_aloud(alloc, task, &Silent, &mut nowhere) {
        Ok(finding) => Ok(finding),
        Err(ProveFault::NoMemory) => Err(NoMemory),
        Err(ProveFault::Unwritten) => unreachable!(),
    }
}

/// The same, and while it goes on its milestones are told, each when it is found out, by its line on a sink.
///
/// # Errors
///
/// `NoMemory` if memory is refused, and `Unwritten` once only the first bytes of a line could be written.
pub fn prove_aloud<W: Wording, E: Sink>(
    alloc: Global,
    task: Task,
    wording: &W,
    err: &mut E,
) -> Result<Finding, ProveFault>
    requires { IsProvable task }
    ensures finding { IfOk result (IsFindingFor task.entry) }
    ensures told { IfOk result (λ _. HasToldFor task.entry (W.line wording.now) (E.state err.old) (E.state err.new)) }
    ensures fault { IfErr result (IsFaultAt task.entry (W.line wording.now) (E.state err.old) (E.state err.new)) }
{
    let claim = claim_of(alloc, task)?;
    let prover = Prover {
        task,
        claim: &claim,
    };
    match prover.left_open::<W, E, Brand>(alloc, wording, err) {
        Ok(finding) => Ok(finding),
        Err(Halt::Stopped(Stop::Found(finding))) => Ok(finding),
        Err(Halt::Stopped(Stop::NoMemory)) => Err(ProveFault::NoMemory),
        Err(Halt::Unwritten) => Err(ProveFault::Unwritten),
    }
}

impl Prover<'_> {
    // What is found behind the last window. It stops where something is found out before.
    fn left_open<W: Wording, E: Sink, B: Begun>(
        self,
        alloc: Global,
        wording: &W,
        err: &mut E,
    ) -> Result<Finding, Halt>
        requires ready { IsReady self }
        requires told { HasToldFor self.task (W.line wording.now) B.sink (E.state err.old) }
        ensures finding { IfOk result (IsFindingFor self.entry.task) }
        ensures told { IfOk result (λ _. HasToldFor self.entry.task (W.line wording.now) B.sink (E.state err.new)) }
        ensures halt { IfErr result (IsHaltAt self.entry.task (W.line wording.now) B.sink (E.state err.new)) }
    {
        let begun = Searched {
            none_within: 0,
            lemmas: 0,
        };
        let mut searched = self.search_at::<W, E, B>(alloc, wording, err, 1, begun)?;
        let mut prefixes = Prefixes::new(alloc, self.task.netlist, &self.claim.violation)?;
        let mut held = self.hold_ahead::<W, E, B>(
            alloc,
            wording,
            err,
            &mut prefixes,
            0,
            1,
            searched,
        )?;
        let mut opens = Opens::new(alloc, self.task.netlist, &self.claim.violation)?;
        let mut paths = self.open_first::<W, E, B>(alloc, wording, err, &mut opens)?;
        let joints = self.joints(alloc)?;
        let unbegun = Reaching::new(alloc, &joints);
        let mut reaching = self.reach_at::<W, E, B>(alloc, wording, err, 1, unbegun)?;
        for window in 2..=self.task.options.depth {
            if searched.none_within < window {
                searched = self.search_at::<W, E, B>(alloc, wording, err, window, searched)?;
            }
            held = self.hold_ahead::<W, E, B>(
                alloc,
                wording,
                err,
                &mut prefixes,
                held,
                window,
                searched,
            )?;
            paths = self.keep_on::<W, E, B>(alloc, wording, err, &mut opens, window, paths)?;
            reaching = self.reach_at::<W, E, B>(alloc, wording, err, window, reaching)?;
        }
        let ends = self.reach_out::<W, E, B>(alloc, wording, err, reaching)?;
        Ok(self.undecided(paths, ends))
    }

    // The paths that keep the first window open, which is told.
    fn open_first<W: Wording, E: Sink, B: Begun>(
        self,
        alloc: Global,
        wording: &W,
        err: &mut E,
        opens: &mut Opens<'_>,
    ) -> Result<OpenPaths, Halt>
        requires ready { IsReady self }
        requires netlist { opens.old ≡ self.task.netlist.now }
        requires looked_at { IsLookedAtFor self.task 0 1 }
        requires told { HasToldFor self.task (W.line wording.now) B.sink (E.state err.old) }
        ensures netlist { opens.new ≡ opens.old }
        ensures paths { IfOk result (AreKeptFor self.entry.task (suc self.entry.task.options.visits) 1) }
        ensures told { IfOk result (λ _. HasToldFor self.entry.task (W.line wording.now) B.sink (E.state err.new)) }
        ensures halt { IfErr result (IsHaltAt self.entry.task (W.line wording.now) B.sink (E.state err.new)) }
    {
        let paths = self.first_paths(alloc, opens)?;
        let milestone = Milestone::Open(1, self.task.options.visits);
        self.tell::<W, E, B>(alloc, wording, err, milestone)?;
        Ok(paths)
    }

    // The paths that keep the window open, which is told, where these keep open the one before.
    fn keep_on<W: Wording, E: Sink, B: Begun>(
        self,
        alloc: Global,
        wording: &W,
        err: &mut E,
        opens: &mut Opens<'_>,
        window: u32,
        known: OpenPaths,
    ) -> Result<OpenPaths, Halt>
        requires ready { IsReady self }
        requires netlist { opens.old ≡ self.task.netlist.now }
        requires looked_at { IsLookedAtFor self.task 0 window }
        requires known { AreKeptFor self.task (suc self.task.options.visits) (window - 1) known }
        requires told { HasToldFor self.task (W.line wording.now) B.sink (E.state err.old) }
        ensures netlist { opens.new ≡ opens.old }
        ensures paths { IfOk result (AreKeptFor self.entry.task (suc self.entry.task.options.visits) window) }
        ensures told { IfOk result (λ _. HasToldFor self.entry.task (W.line wording.now) B.sink (E.state err.new)) }
        ensures halt { IfErr result (IsHaltAt self.entry.task (W.line wording.now) B.sink (E.state err.new)) }
    {
        let paths = self.keep(alloc, opens, window, known)?;
        let milestone = Milestone::Open(window, self.task.options.visits);
        self.tell::<W, E, B>(alloc, wording, err, milestone)?;
        Ok(paths)
    }

    // Nothing but open paths, and the ends of the searches where inductive clauses are sought.
    fn undecided(self, paths: OpenPaths, ends: ReachEnds) -> Finding
        requires paths { IsUndecidedFor self.task paths }
        requires ends { AreEndsFor self.task (searches_of self.task.options) ends }
        ensures { IsFindingFor self.entry.task result }
    {
        if self.task.options.reach {
            Finding::DepthReach(paths, ends)
        } else {
            Finding::Depth(paths)
        }
    }
}
