// Clauses that grow, with questions in between.
ghost use Rattle.std.specs.Prelude.{◌≡◌, [], ◌∷◌, ◌++◌, suc, ◌+◌, ◌<◌, ◌≤◌, IsTrue, IfOk, OnOk, OnErr, IfSome, IfNone, Err};
ghost use Rattle.clauses.specs.declared.flat.TheConstants.{MOST_VARIABLES, MOST_WORDS};
ghost use Rattle.clauses.specs.declared.flat.CnfFault.{CnfFault};
ghost use Rattle.clauses.specs.Literals.{clause_within, words_with};
ghost use Rattle.cdcl_incremental.specs.Questions.{IsAsked};

use crate::asked::Asked;
use crate::incremental::Incremental;
use cdcl::read_literals;
use clauses::{Clauses, Cnf, CnfFault};
use psl_base::NoMemory;
use std::alloc::Global;
use std::marker::Model;

/// Clauses that are added between questions, and a solver of them that keeps what it learned. (Temporal induction by
/// incremental SAT solving, 2003.)
///
/// Variables are numbered from 1.
pub struct Growing {
    solver: Incremental,
}

impl Model for Growing {
    ghost use Rattle.cdcl_incremental.specs.Questions.{Formula};

    ghost Value = { Formula };

    ghost use Rattle.cdcl_incremental.specs.GrowingFields.{formula_in, IsGrowing};

    ghost view = { formula_in };

    ghost invariant = { IsGrowing };
}

// Written out, so that a caller's proof sees one call where a value is dropped.
impl Drop for Growing {
    fn drop(self) {
        let Growing { solver: _ } = self;
    }
}

impl Growing {
    /// The clauses of a formula, with room for so many variables more.
    ///
    /// # Errors
    ///
    /// `NoMemory` if memory is refused.
    pub fn new(alloc: Global, cnf: &Cnf, room: u32) -> Result<Growing, NoMemory>
        requires { cnf.now.variables + room ≤ MOST_VARIABLES }
        ensures { IfOk result (λ growing. growing ≡ record { variables = cnf.now.variables; clauses = cnf.now.clauses }) }
    {
        let _few = cnf.clauses.words();
        let mut solver = Incremental::new(alloc, cnf.variables, room)?;
        for place in 0..cnf.clauses.len() {
            match solver.add(alloc, cnf.clauses.at(place)) {
                Ok(()) => {}
                Err(CnfFault::NoMemory) => return Err(NoMemory),
                Err(CnfFault::TooLarge) => unreachable!(),
            }
        }
        Ok(Growing { solver })
    }

    /// The clauses, in the order in which they came.
    pub fn clauses(&self) -> &Clauses
        ensures { result.now ≡ self.now.clauses }
    {
        &self.solver.formula
    }

    /// How many variables there are.
    pub fn variables(&self) -> u32
        ensures is { result ≡ self.now.variables }
        ensures few { result ≤ MOST_VARIABLES }
    {
        self.solver.variables
    }

    /// One variable more, where there is room for it.
    pub fn open(&mut self) -> Option<u32>
        ensures some { IfSome result (λ variable. variable ≡ suc self.old.variables) }
        ensures grown { IfSome result (λ _. self.new ≡ record self.old { variables = suc self.old.variables }) }
        ensures none { IfNone result (self.new ≡ self.old) }
    {
        if self.solver.open() {
            Some(self.solver.variables)
        } else {
            None
        }
    }

    /// Adds a clause at the end.
    ///
    /// # Errors
    ///
    /// `TooLarge` where the words of all clauses would be too many, and `NoMemory` if memory is refused. The clauses are
    /// then as they were.
    pub fn add(&mut self, alloc: Global, clause: &[i32]) -> Result<(), CnfFault>
        requires { IsTrue (clause_within self.old.variables clause.now) }
        ensures ok { OnOk result (self.new ≡ record self.old { clauses = self.old.clauses ++ clause.now ∷ [] }) }
        ensures too_large { result ≡ Err CnfFault.TooLarge → MOST_WORDS < words_with self.old.clauses clause.now }
        ensures err { OnErr result (self.new ≡ self.old) }
    {
        self.solver.add(alloc, clause)
    }

    /// Asks for a model in which some literals are true, with at most so many conflicts.
    ///
    /// # Errors
    ///
    /// `NoMemory` if memory is refused.
    pub fn ask(&mut self, alloc: Global, assumed: &[i32], steps: u64) -> Result<Asked, NoMemory>
        requires { IsTrue (clause_within self.old.variables assumed.now) }
        ensures same { self.new ≡ self.old }
        ensures asked { IfOk result (IsAsked self.old assumed.now) }
    {
        let mut numbers = Vec::new(alloc);
        read_literals(&mut numbers, assumed, self.solver.variables)?;
        self.solver.ask(alloc, &numbers, steps)
    }
}
