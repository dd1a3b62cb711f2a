// The search for a run that violates what is owed.
ghost use Rattle.std.specs.Prelude.{◌≡◌, ◌≤◌, suc, IfOk, IfErr, OnOk};
ghost use Rattle.prover.specs.Claims.{IsReady};
ghost use Rattle.prover.specs.Glances.{IsOfSize, IsProgress, IsSearched, IsSearchedTo};
ghost use Rattle.prover.specs.Stops.{IsSoughtFor, IsStopOf, IsTriedFor, NoneBelowFor, ViolatesFor};
ghost use Rattle.prover.specs.Telling.{HasToldFor, IsHaltAt};

use crate::context::Prover;
use crate::finding::{Finding, Query};
use crate::glance::{Glance, Untold};
use crate::halt::Halt;
use crate::milestone::{Milestone, Wording};
use crate::stop::Stop;
use crate::telling::Begun;
use lasso_judge::satisfies;
use netlist::Run;
use psl_base::{NoMemory, Sink};
use std::alloc::Global;

// Sizes that are looked at ahead are so many times as large as each other, from the depth down: so the last of them is the
// depth, and all before it together cost little beside it.
const TIMES_APART: u32 = 3;

// A look ahead takes at most so many times the lemmas of the last search, and so many more.
const TIMES_AHEAD: u64 = 8;

const LEMMAS_AHEAD: u64 = 1_000;

/// How far a search has come.
#[derive(Clone, Copy, Debug)]
pub(crate) struct Searched {
    /// No run of at most so many valuations violates what is owed.
    pub none_within: u32,
    /// How many lemmas the last search took.
    pub lemmas: u64,
}

/// How far a search comes that goes on from some size.
#[derive(Debug, Drop)]
pub(crate) enum Progress {
    /// To that size at least.
    Reached(Searched),
    /// Nothing is told of that size.
    Nothing(Untold),
}

// The size that is looked at where none of so many valuations violates what is owed: the largest one that is not much
// larger.
fn size_ahead(none_within: u32, depth: u32) -> u32
    ensures { result ≤ depth }
{
    let most = none_within.saturating_mul(TIMES_APART);
    let mut ahead = depth;
    while most < ahead && 1 < ahead {
        ahead = 1 + (ahead - 1) / TIMES_APART;
    }
    ahead
}

impl Searched {
    // How many lemmas a look ahead may take. A longer run may be far harder to tell, so it is a few times what is known
    // to be enough.
    fn lemmas_ahead(self, most: u64) -> u64 {
        self.lemmas
            .saturating_mul(TIMES_AHEAD)
            .saturating_add(LEMMAS_AHEAD)
            .min(most)
    }
}

impl Prover<'_> {
    /// Looks for runs that violate what is owed, of so many valuations at least, and tells how far it has come. It stops
    /// with a shortest one where there is one, or where nothing is told of that size.
    pub fn search_at<W: Wording, E: Sink, B: Begun>(
        self,
        alloc: Global,
        wording: &W,
        err: &mut E,
        size: u32,
        last: Searched,
    ) -> Result<Searched, Halt>
        requires ready { IsReady self }
        requires sought { IsSoughtFor self.task size }
        requires told { HasToldFor self.task (W.line wording.now) B.sink (E.state err.old) }
        ensures searched { IfOk result (IsSearchedTo self.entry.task size) }
        ensures told { IfOk result (λ _. HasToldFor self.entry.task (W.line wording.now) B.sink (E.state err.new)) }
        ensures halt { IfErr result (IsHaltAt self.entry.task (W.line wording.now) B.sink (E.state err.new)) }
    {
        let searched = self.search(alloc, size, last)?;
        let milestone = Milestone::NoneWithin(searched.none_within);
        self.tell::<W, E, B>(alloc, wording, err, milestone)?;
        Ok(searched)
    }

    // Looks for runs that violate what is owed, of so many valuations at least, and stops with a shortest one where
    // there is one, or where nothing is told.
    fn search(self, alloc: Global, size: u32, last: Searched) -> Result<Searched, Stop>
        requires ready { IsReady self }
        requires sought { IsSoughtFor self.task size }
        ensures searched { IfOk result (IsSearchedTo self.entry.task size) }
        ensures stop { IfErr result (IsStopOf self.entry.task) }
    {
        match self.go_on(alloc, size, last)? {
            Progress::Reached(searched) => Ok(searched),
            Progress::Nothing(untold) => Err(Stop::Found(untold.finding(Query::Search(size)))),
        }
    }

    /// Looks for runs that violate what is owed, of so many valuations at least, and stops with a shortest one where
    /// there is one. A run may enter its loop later, and its word stays: so where none of some size violates it, none
    /// that is shorter does. Larger sizes are looked at first.
    pub fn go_on(self, alloc: Global, size: u32, last: Searched) -> Result<Progress, Stop>
        requires ready { IsReady self }
        requires tried { IsTriedFor self.task size }
        ensures progress { IfOk result (IsProgress self.entry.task size) }
        ensures stop { IfErr result (IsStopOf self.entry.task) }
    {
        let ahead = size_ahead(size - 1, self.task.options.depth);
        if size < ahead {
            let steps = last.lemmas_ahead(self.task.options.steps);
            match self.glance(alloc, ahead, steps)? {
                Glance::Violates(run) => {
                    let searched = self.shorten(alloc, size, ahead, run)?;
                    if size <= searched.none_within {
                        return Ok(Progress::Reached(searched));
                    }
                }
                Glance::Holds(lemmas) => {
                    return Ok(Progress::Reached(Searched {
                        none_within: ahead,
                        lemmas,
                    }));
                }
                Glance::Nothing(_) => {}
            }
        }
        self.search_for(alloc, size)
    }

    // Stops with a shortest run, which has at least so many valuations and at most as many as the one that was found.
    // Where some size between is not told, it says how far the search has come.
    fn shorten(self, alloc: Global, size: u32, found: u32, run: Run) -> Result<Searched, Stop>
        requires ready { IsReady self }
        requires some { 1 ≤ size }
        requires none_below { NoneBelowFor self.task size }
        requires longer { size ≤ found }
        requires within { found ≤ self.task.options.depth }
        requires run { IsOfSize self.task found run }
        ensures searched { IfOk result (IsSearched self.entry.task) }
        ensures stop { IfErr result (IsStopOf self.entry.task) }
    {
        let mut low = size;
        let mut high = found;
        let mut shortest = run;
        let mut last = 0;
        while low < high {
            let middle = low + (high - low) / 2;
            match self.glance(alloc, middle, self.task.options.steps)? {
                Glance::Violates(run) => {
                    high = middle;
                    shortest = run;
                }
                Glance::Holds(lemmas) => {
                    low = middle + 1;
                    last = lemmas;
                }
                Glance::Nothing(_) => {
                    return Ok(Searched {
                        none_within: low - 1,
                        lemmas: last,
                    });
                }
            }
        }
        let judged = self.judged(alloc, shortest)?;
        Err(Stop::Found(Finding::Violated(judged)))
    }

    // Looks for a run of so many valuations that violates what is owed, with all the steps, and stops where there is one.
    fn search_for(self, alloc: Global, size: u32) -> Result<Progress, Stop>
        requires ready { IsReady self }
        requires tried { IsTriedFor self.task size }
        ensures progress { IfOk result (IsProgress self.entry.task size) }
        ensures stop { IfErr result (IsStopOf self.entry.task) }
    {
        match self.glance(alloc, size, self.task.options.steps)? {
            Glance::Violates(run) => {
                let judged = self.judged(alloc, run)?;
                Err(Stop::Found(Finding::Violated(judged)))
            }
            Glance::Holds(lemmas) => Ok(Progress::Reached(Searched {
                none_within: size,
                lemmas,
            })),
            Glance::Nothing(untold) => Ok(Progress::Nothing(untold)),
        }
    }

    // The run, once it was judged: its word does not satisfy what is owed.
    fn judged(self, alloc: Global, run: Run) -> Result<Run, NoMemory>
        requires ready { IsReady self }
        requires violates { ViolatesFor self.task run }
        ensures { IfOk result (λ same. same ≡ run) }
    {
        let word = self.task.netlist.word_of(alloc, &run)?;
        if satisfies(alloc, &self.claim.owed, &word)? {
            unreachable!()
        }
        Ok(run)
    }
}
