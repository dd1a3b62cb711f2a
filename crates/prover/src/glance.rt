// A look at the runs of one size, which may tell nothing.
ghost use Rattle.std.specs.Prelude.{◌≡◌, IfOk};
ghost use Rattle.prover.specs.Claims.{IsReady};
ghost use Rattle.prover.specs.Glances.{end_of, finding_of, IsGlance};

use crate::context::Prover;
use crate::finding::{Finding, Query, SearchEnd};
use bounded::{ordered_search, read_run};
use cdcl::{Answer, solve_first};
use clauses::{CnfFault, Log};
use netlist::Run;
use psl_base::NoMemory;
use std::alloc::Global;

/// What is told of the runs of a size.
#[derive(Debug, Drop)]
pub(crate) enum Glance {
    /// This one violates what is owed.
    Violates(Run),
    /// None does, and none that is shorter; so many lemmas show it.
    Holds(u64),
    /// Nothing.
    Nothing(Untold),
}

/// Why nothing is told of the runs of a size, or of another query.
#[derive(Debug, Drop)]
pub(crate) enum Untold {
    /// The steps were spent; the log has as many lemmas.
    Steps(Log),
    /// The log is full.
    LogFull(Log),
    /// The formula is too large.
    Large,
}

impl Untold {
    /// What is found, where nothing is told of a query.
    pub fn finding(self, query: Query) -> Finding
        ensures { result ≡ finding_of query self }
    {
        match self {
            Untold::Steps(log) => Finding::Steps(query, log),
            Untold::LogFull(log) => Finding::LogFull(query, log),
            Untold::Large => Finding::Large(query),
        }
    }

    /// How a search ends with that.
    pub fn end(self, size: u32) -> SearchEnd
        ensures { result ≡ end_of size self }
    {
        match self {
            Untold::Steps(log) => SearchEnd::Steps(size, log),
            Untold::LogFull(log) => SearchEnd::LogFull(size, log),
            Untold::Large => SearchEnd::Large(size),
        }
    }
}

impl Prover<'_> {
    /// Looks at the runs of so many valuations, with so many lemmas at most.
    pub fn glance(self, alloc: Global, size: u32, steps: u64) -> Result<Glance, NoMemory>
        requires ready { IsReady self }
        ensures { IfOk result (IsGlance self.entry.task size steps) }
    {
        let netlist = self.task.netlist;
        let ordered = match ordered_search(alloc, netlist, &self.claim.violation, size) {
            Ok(ordered) => ordered,
            Err(CnfFault::TooLarge) => return Ok(Glance::Nothing(Untold::Large)),
            Err(CnfFault::NoMemory) => return Err(NoMemory),
        };
        match solve_first(alloc, &ordered.formula, steps, ordered.first.as_slice())? {
            Answer::Model(values) => {
                let run = read_run(alloc, netlist, &self.claim.violation, size, &values)?;
                Ok(Glance::Violates(run))
            }
            Answer::Refuted(log) => Ok(Glance::Holds(log.lemmas() as u64)),
            Answer::Spent(log) => Ok(Glance::Nothing(Untold::Steps(log))),
            Answer::LogFull(log) => Ok(Glance::Nothing(Untold::LogFull(log))),
        }
    }
}
