ghost use Rattle.std.specs.Prelude.{◌≡◌};
ghost use Rattle.prover.specs.Findings as spec;

use cert_theory::{Certificate, InductiveCert};
use clauses::Log;
use joint_theory::JointPath;
use netlist::{Run, Valuations};
use psl_base::Items;
use reach::Reached;

/// A formula that the solver is asked about.
#[derive(Clone, Copy, Debug)]
pub enum Query {
    /// Whether some run of so many valuations, stem and loop together, violates what is owed.
    Search(u32),
    /// Whether a joint path of at most so many states leads from an initial state to a bad one. First come the visits
    /// that the joint states count, then the window, which is the number of states.
    Base(u32, u32),
    /// Whether a joint path of so many different states that are not bad leads to a bad one. First come the visits,
    /// then the window, which is the number of states in front of the bad one.
    Induction(u32, u32),
}

/// A joint path that keeps a window from being closed.
#[derive(Debug, Drop)]
pub struct OpenPath {
    /// How many visits its states count.
    pub visits: u32,
    /// Whether it begins with an initial state, as a model of the base gives it; else it is of the induction.
    pub initial: bool,
    pub path: JointPath,
}

/// Open paths in order.
pub type OpenPaths = Items<OpenPath>;

/// How the searches for inductive clauses end, for each number of visits from 0 on.
pub type ReachEnds = Items<Reached>;

/// How the search for a run whose loop closes ends, once a run that holds its inputs was found.
#[derive(Debug, Drop)]
pub enum SearchEnd {
    /// No run of at most as many valuations as the depth violates what is owed.
    Whole,
    /// The steps were spent on the search for a run of so many valuations; the log has as many lemmas.
    Steps(u32, Log),
    /// The log of that search is full.
    LogFull(u32, Log),
    /// Its formula is too large.
    Large(u32),
}

/// What is found out about a directive.
#[derive(Debug, Drop)]
pub enum Finding {
    /// Each run satisfies what is owed, and this is the evidence.
    Proved(Certificate),
    /// Each run satisfies what is owed, and these inductive clauses are the evidence.
    ProvedReach(InductiveCert),
    /// A run violates what is owed, and no shorter one does.
    Violated(Run),
    /// The run that begins with this path and then holds its inputs violates what is owed. No run whose loop closes
    /// within the depth is found that does, and so the search for one ends.
    Held(Valuations, SearchEnd),
    /// No run of at most as many valuations as the depth violates what is owed. For each number of visits, from 0 on, a
    /// joint path is open at the window of that depth.
    Depth(OpenPaths),
    /// The same, where inductive clauses are sought too. For each number of visits, from 0 on, the search for them ends
    /// without any.
    DepthReach(OpenPaths, ReachEnds),
    /// The steps were spent on a query; the log has as many lemmas.
    Steps(Query, Log),
    /// The log of a query is full.
    LogFull(Query, Log),
    /// The formula of a query is too large.
    Large(Query),
}

impl Finding {
    /// Whether it says that each run satisfies what is owed.
    pub fn is_proved(&self) -> bool
        ensures { result ≡ spec.is_proved self.now }
    {
        matches!(self, Finding::Proved(_) | Finding::ProvedReach(_))
    }

    /// Whether it says that some run does not.
    pub fn is_violated(&self) -> bool
        ensures { result ≡ spec.is_violated self.now }
    {
        matches!(self, Finding::Violated(_) | Finding::Held(_, _))
    }

    /// Whether it says neither.
    pub fn is_undecided(&self) -> bool
        ensures { result ≡ spec.is_undecided self.now }
    {
        !self.is_proved() && !self.is_violated()
    }
}
