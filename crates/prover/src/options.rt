ghost use Rattle.std.specs.Prelude.{◌≡◌, ◌≤◌};
ghost use Rattle.prover.specs.Reaching.{searches_of};

/// How far a proof is sought.
#[derive(Clone, Copy, Debug)]
pub struct Options {
    /// The most valuations of a run that is sought, and the largest window: at least 1.
    pub depth: u32,
    /// The most visits that joint states count: at most 16.
    pub visits: u32,
    /// The most lemmas of a query.
    pub steps: u64,
    /// Whether inductive clauses are sought too. The depth is at most 1,000 then.
    pub reach: bool,
}

impl Options {
    /// How many numbers of visits inductive clauses are sought for.
    pub(crate) fn searches(&self) -> u32
        requires { self.now.visits ≤ 16 }
        ensures { result ≡ searches_of self.now }
    {
        if self.reach { self.visits + 1 } else { 0 }
    }
}
