use clauses::{Clauses, Log};

/// The evidence that each run of a netlist satisfies what is owed of a directive: for a number of visits and a window,
/// that no joint path is open. Whoever has the text and the netlist can check it without the prover.
#[derive(Debug)]
pub struct Certificate {
    /// The number of the directive in its text, counted from 1.
    pub assertion: u32,
    /// How many visits the joint states count.
    pub visits: u32,
    /// How many joint states a path of the base has at most.
    pub window: u32,
    /// It refutes the formula of the base.
    pub base: Log,
    /// It refutes the formula of the induction.
    pub induction: Log,
}

// Written out, so that a caller's proof sees one call where a value is dropped.
impl Drop for Certificate {
    fn drop(self) {
        let Certificate {
            assertion: _,
            visits: _,
            window: _,
            base: _,
            induction: _,
        } = self;
    }
}

/// The same evidence in another form: for a number of visits, clauses over the bits of a joint state that every state
/// meets which can be reached, and no bad one. Its text is the third version of a certificate.
#[derive(Debug)]
pub struct InductiveCert {
    /// The number of the directive in its text, counted from 1.
    pub assertion: u32,
    /// How many visits the joint states count.
    pub visits: u32,
    /// The clauses, whose literals name state bits from 1 on.
    pub clauses: Clauses,
    /// It refutes the formula that some initial state misses a clause.
    pub initial: Log,
    /// It refutes the formula that a state that meets all clauses leads to one that misses a clause.
    pub step: Log,
    /// It refutes the formula that some bad state meets all clauses.
    pub bad: Log,
}

// Written out, so that a caller's proof sees one call where a value is dropped.
impl Drop for InductiveCert {
    fn drop(self) {
        let InductiveCert {
            assertion: _,
            visits: _,
            clauses: _,
            initial: _,
            step: _,
            bad: _,
        } = self;
    }
}
