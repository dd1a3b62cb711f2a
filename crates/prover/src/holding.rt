// Runs that hold their inputs, in front of the windows: they show a violation where no loop that is short enough closes.
ghost use Rattle.std.specs.Prelude.{◌≡◌, ◌+◌, ◌<◌, IfOk, IfErr, IfSome};
ghost use Rattle.prover.specs.Claims.{IsReady};
ghost use Rattle.prover.specs.Glances.{IsSearched, IsSearchedTo};
ghost use Rattle.prover.specs.Stops.{IsHeldPathFor, IsSearchEndFor, IsStopOf};
ghost use Rattle.prover.specs.Telling.{HasToldFor, IsHaltAt};
ghost use Rattle.prover_bmc.specs.Hints.{AreChoices};

use crate::context::Prover;
use crate::finding::{Finding, SearchEnd};
use crate::halt::Halt;
use crate::milestone::{Milestone, Wording};
use crate::searching::{Progress, Searched};
use crate::stop::Stop;
use crate::telling::Begun;
use netlist::{Valuations, soundness_law};
use prover_bmc::{Prefixes, Told};
use prover_held::{Choices, held_law, is_met_when_held, walk};
use psl_base::{NoMemory, Sink};
use run_gates::automaton_law;
use std::alloc::Global;

// A question for a path takes so many conflicts at most: it may tell nothing, and others wait behind it.
const MOST_CONFLICTS: u64 = 20_000;

// Paths are asked for ahead of a window: so many times its valuations, and so many more. They are asked of one solver that
// goes on, so that a longer one costs little where the one before it was asked for.
const TIMES_AHEAD: u32 = 2;

const VALUATIONS_AHEAD: u32 = 8;

impl Prover<'_> {
    /// Asks for paths of more valuations than so many, ahead of a window, and tells of how many it has asked then.
    pub fn hold_ahead<W: Wording, E: Sink, B: Begun>(
        self,
        alloc: Global,
        wording: &W,
        err: &mut E,
        prefixes: &mut Prefixes<'_>,
        held: u32,
        window: u32,
        searched: Searched,
    ) -> Result<u32, Halt>
        requires ready { IsReady self }
        requires netlist { prefixes.old ≡ self.task.netlist.now }
        requires searched { IsSearched self.task searched }
        requires told { HasToldFor self.task (W.line wording.now) B.sink (E.state err.old) }
        ensures netlist { prefixes.new ≡ prefixes.old }
        ensures told { IfOk result (λ _. HasToldFor self.entry.task (W.line wording.now) B.sink (E.state err.new)) }
        ensures halt { IfErr result (IsHaltAt self.entry.task (W.line wording.now) B.sink (E.state err.new)) }
    {
        let most = window
            .saturating_mul(TIMES_AHEAD)
            .saturating_add(VALUATIONS_AHEAD)
            .min(self.task.options.depth);
        for _size in held..most {
            self.hold::<W, E, B>(alloc, wording, err, prefixes, searched)?;
        }
        Ok(most)
    }

    /// Asks for a path of one valuation more than before, behind which a run that holds its inputs violates what is owed.
    /// It stops where one is found: with it once the search for runs has come to its end, or with a run of that search,
    /// which goes first.
    fn hold<W: Wording, E: Sink, B: Begun>(
        self,
        alloc: Global,
        wording: &W,
        err: &mut E,
        prefixes: &mut Prefixes<'_>,
        searched: Searched,
    ) -> Result<(), Halt>
        requires ready { IsReady self }
        requires netlist { prefixes.old ≡ self.task.netlist.now }
        requires searched { IsSearched self.task searched }
        requires told { HasToldFor self.task (W.line wording.now) B.sink (E.state err.old) }
        ensures netlist { prefixes.new ≡ prefixes.old }
        ensures told { IfOk result (λ _. HasToldFor self.entry.task (W.line wording.now) B.sink (E.state err.new)) }
        ensures halt { IfErr result (IsHaltAt self.entry.task (W.line wording.now) B.sink (E.state err.new)) }
    {
        match prefixes.ask(alloc, self.task.options.steps.min(MOST_CONFLICTS))? {
            Told::Path(choices) => {
                self.hold_after::<W, E, B>(alloc, wording, err, &choices, searched)
            }
            Told::None | Told::Nothing => Ok(()),
        }
    }

    // Judges the path of choices, and stops where holding its inputs violates what is owed.
    fn hold_after<W: Wording, E: Sink, B: Begun>(
        self,
        alloc: Global,
        wording: &W,
        err: &mut E,
        choices: &Choices,
        searched: Searched,
    ) -> Result<(), Halt>
        requires ready { IsReady self }
        requires choices { AreChoices self.task.netlist.now choices.now }
        requires searched { IsSearched self.task searched }
        requires told { HasToldFor self.task (W.line wording.now) B.sink (E.state err.old) }
        ensures told { IfOk result (λ _. HasToldFor self.entry.task (W.line wording.now) B.sink (E.state err.new)) }
        ensures halt { IfErr result (IsHaltAt self.entry.task (W.line wording.now) B.sink (E.state err.new)) }
    {
        match self.held_path(alloc, choices)? {
            Some(path) => {
                let end = self.search_on::<W, E, B>(alloc, wording, err, searched)?;
                Err(Halt::Stopped(Stop::Found(Finding::Held(path, end))))
            }
            None => Ok(()),
        }
    }

    // The path of choices, where it is within the depth and holding its inputs violates what is owed.
    fn held_path(self, alloc: Global, choices: &Choices) -> Result<Option<Valuations>, NoMemory>
        requires ready { IsReady self }
        requires choices { AreChoices self.task.netlist.now choices.now }
        ensures { IfOk result (λ found. IfSome found (IsHeldPathFor self.entry.task)) }
    {
        let netlist = self.task.netlist;
        let path = walk(alloc, netlist, choices)?;
        if path.len() > self.task.options.depth as usize {
            return Ok(None);
        }
        let is_met = is_met_when_held(alloc, netlist, &self.claim.violation, &path)?;
        if !is_met {
            return Ok(None);
        }
        soundness_law(netlist);
        automaton_law(&self.claim.violation);
        held_law();
        Ok(Some(path))
    }

    // Goes on with the search for runs to the depth, and tells how far it has come. It stops with a shortest one where one
    // violates what is owed.
    fn search_on<W: Wording, E: Sink, B: Begun>(
        self,
        alloc: Global,
        wording: &W,
        err: &mut E,
        begun: Searched,
    ) -> Result<SearchEnd, Halt>
        requires ready { IsReady self }
        requires begun { IsSearched self.task begun }
        requires told { HasToldFor self.task (W.line wording.now) B.sink (E.state err.old) }
        ensures end { IfOk result (IsSearchEndFor self.entry.task) }
        ensures told { IfOk result (λ _. HasToldFor self.entry.task (W.line wording.now) B.sink (E.state err.new)) }
        ensures halt { IfErr result (IsHaltAt self.entry.task (W.line wording.now) B.sink (E.state err.new)) }
    {
        let mut searched = begun;
        while searched.none_within < self.task.options.depth {
            match self.search_once(alloc, searched)? {
                Ok(further) => searched = further,
                Err(end) => return Ok(end),
            }
            let milestone = Milestone::NoneWithin(searched.none_within);
            self.tell::<W, E, B>(alloc, wording, err, milestone)?;
        }
        Ok(SearchEnd::Whole)
    }

    // Goes on with the search for runs once, or tells how it ends where nothing is told.
    fn search_once(
        self,
        alloc: Global,
        searched: Searched,
    ) -> Result<Result<Searched, SearchEnd>, Stop>
        requires ready { IsReady self }
        requires searched { IsSearched self.task searched }
        requires within { searched.none_within < self.task.options.depth }
        ensures further { IfOk result (λ told. IfOk told (IsSearchedTo self.entry.task (searched.none_within + 1))) }
        ensures end { IfOk result (λ told. IfErr told (IsSearchEndFor self.entry.task)) }
        ensures stop { IfErr result (IsStopOf self.entry.task) }
    {
        let size = searched.none_within + 1;
        match self.go_on(alloc, size, searched)? {
            Progress::Reached(further) => Ok(Ok(further)),
            Progress::Nothing(untold) => Ok(Err(untold.end(size))),
        }
    }
}
