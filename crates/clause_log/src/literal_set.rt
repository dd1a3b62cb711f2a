ghost use Rattle.std.specs.Prelude.{◌≡◌, [], ◌∷◌, ◌++◌, ◌≤◌, ◌↔◌, true, false, IsTrue, IfOk, OnOk, OnErr};
ghost use Rattle.std.specs.List.{Contains};
ghost use Rattle.clauses.specs.Literals.{is_within};
ghost use Rattle.clauses.specs.declared.flat.TheConstants.{MOST_VARIABLES};

use crate::codes::code;
use psl_base::NoMemory;
use std::alloc::Global;
use std::marker::Model;

/// A set of literals over so many variables, which is emptied in the time that it took to fill it. Contracts see it as
/// a list, in the order in which its members were put in, and perhaps with some of them twice.
#[derive(Drop)]
pub(crate) struct LiteralSet {
    variables: u32,
    // By the code of a literal, whether it is a member.
    marks: Vec<bool>,
    members: Vec<i32>,
}

impl Model for LiteralSet {
    ghost use Rattle.clause_log.specs.Marks.{LiteralList};

    ghost Value = { LiteralList };

    ghost use Rattle.clause_log.specs.MarkFields.{literals_of, IsMarked};

    ghost view = { literals_of };

    ghost invariant = { IsMarked };
}

impl LiteralSet {
    /// The empty set of literals over so many variables.
    pub(crate) fn new(alloc: Global, variables: u32) -> Result<LiteralSet, NoMemory>
        requires { variables ≤ MOST_VARIABLES }
        ensures { IfOk result (λ set. set ≡ record { variables = variables; members = [] }) }
    {
        Ok(LiteralSet {
            variables,
            marks: vec![in alloc; false; 2 * variables as usize]?,
            members: Vec::new(alloc),
        })
    }

    /// Whether a literal is a member.
    pub(crate) fn contains(&self, literal: i32) -> bool
        requires { is_within self.now.variables literal ≡ true }
        ensures { IsTrue result ↔ Contains self.now.members literal }
    {
        self.marks[code(literal) as usize]
    }

    /// Puts a literal in. Where memory is refused, the set stays.
    pub(crate) fn insert(&mut self, literal: i32) -> Result<(), NoMemory>
        requires { is_within self.old.variables literal ≡ true }
        ensures variables { self.new.variables ≡ self.old.variables }
        ensures ok { OnOk result (self.new.members ≡ self.old.members ++ literal ∷ []) }
        ensures err { OnErr result (self.new.members ≡ self.old.members) }
    {
        self.members.push(literal)?;
        self.marks[code(literal) as usize] = true;
        Ok(())
    }

    /// Takes all literals out.
    pub(crate) fn clear(&mut self)
        ensures { self.new ≡ record { variables = self.old.variables; members = [] } }
    {
        while let Some(literal) = self.members.pop() {
            self.marks[code(literal) as usize] = false;
        }
    }
}
