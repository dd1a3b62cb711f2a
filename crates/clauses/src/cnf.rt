// A formula: clauses over so many variables.
ghost use Rattle.std.specs.Prelude.{◌≡◌, [], ◌∷◌, ◌++◌, ◌+◌, ◌<◌, ◌≤◌, length, IsTrue, OnOk, OnErr, Err};
ghost use Rattle.clauses.specs.declared.flat.TheConstants.{MOST_VARIABLES, MOST_WORDS};
ghost use Rattle.clauses.specs.declared.flat.CnfFault.{CnfFault};
ghost use Rattle.clauses.specs.Literals.{clause_within, clauses_within, words_with};

use crate::{Clauses, CnfFault};
use std::alloc::Global;

/// A formula in conjunctive normal form: its variables, numbered from 1, and clauses over them.
///
/// There are at most `MOST_VARIABLES` variables, and each literal is of one of them.
#[derive(Debug)]
pub struct Cnf {
    pub variables: u32,
    pub clauses: Clauses,
    pub ghost few: { variables ≤ MOST_VARIABLES },
    pub ghost within: { IsTrue (clauses_within variables clauses) },
}

// Written out, so that a caller's proof sees one call where a value is dropped.
impl Drop for Cnf {
    fn drop(self) {
        let Cnf {
            variables: _,
            clauses: _,
        } = self;
    }
}

impl Cnf {
    /// The formula of so many variables without a clause. It takes no memory.
    pub fn new(alloc: Global, variables: u32) -> Cnf
        requires { variables ≤ MOST_VARIABLES }
        ensures variables { result.variables ≡ variables }
        ensures clauses { result.clauses ≡ [] }
    {
        Cnf {
            variables,
            clauses: Clauses::new(alloc),
        }
    }

    /// Adds a clause at the end.
    ///
    /// # Errors
    ///
    /// `TooLarge` exactly where the words would be too many, and `NoMemory` if memory is refused. The formula is
    /// then as it was.
    pub fn push(&mut self, clause: &[i32]) -> Result<(), CnfFault>
        requires { IsTrue (clause_within self.old.variables clause.now) }
        ensures variables { self.new.variables ≡ self.old.variables }
        ensures ok { OnOk result (self.new.clauses ≡ self.old.clauses ++ clause.now ∷ []) }
        ensures fits { OnOk result (words_with self.old.clauses clause.now ≤ MOST_WORDS) }
        ensures too_large { result ≡ Err CnfFault.TooLarge → MOST_WORDS < words_with self.old.clauses clause.now }
        ensures err { OnErr result (self.new.clauses ≡ self.old.clauses) }
    {
        self.clauses.push(clause)
    }
}
