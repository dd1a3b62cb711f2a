// The trail, with a mark for each literal and a place for each variable.
ghost use Rattle.std.specs.Prelude.{◌≡◌, ℕ, [], ◌+◌, ◌*◌, ◌<◌, ◌≤◌, ◌^◌, ◌↔◌, Bool, true, false, length, slice_index, slice_index_or, IsTrue, IfOk, OnOk, OnErr};
ghost use Rattle.std.specs.List.{All, Contains};
ghost use Rattle.cdcl_trail.specs.Literals.{variable, opposite};
ghost use Rattle.cdcl_trail.specs.Path.{Path, pushed, decided, undone, start_of, IsPath};

use psl_base::NoMemory;
use std::alloc::Global;
use std::marker::Model;

/// The literals that are true, in the order in which they came to be.
///
/// Levels are counted from 0. Each but the lowest begins with a decision. A place is an index of a true literal.
/// It takes its memory when it is made, and none later.
#[derive(Drop)]
pub struct Trail {
    literals: Vec<u32>,
    // By place: the number of the clause that made the literal true, 0 for a decision.
    reasons: Vec<u32>,
    // Where each level but the lowest begins.
    limits: Vec<u32>,
    // By literal: whether it is true.
    marks: Vec<bool>,
    // By variable: its place, where it has a true literal.
    places: Vec<u32>,
}

impl Model for Trail {
    ghost use Rattle.cdcl_trail.specs.Path.{Path};

    ghost Value = { Path };

    ghost use Rattle.cdcl_trail.specs.Fields.{path_of, IsTrail};

    ghost view = { path_of };

    ghost invariant = { IsTrail };
}

impl Trail {
    /// The trail of so many variables on which no literal is true.
    pub fn new(alloc: Global, variables: u32) -> Result<Trail, NoMemory>
        requires { variables < 2 ^ 31 }
        ensures { IfOk result (λ trail. trail ≡ record { variables = variables; literals = []; reasons = []; limits = [] }) }
    {
        Ok(Trail {
            literals: Vec::with_capacity(alloc, variables as usize)?,
            reasons: Vec::with_capacity(alloc, variables as usize)?,
            limits: Vec::with_capacity(alloc, variables as usize)?,
            marks: vec![in alloc; false; 2 * variables as usize]?,
            places: vec![in alloc; 0; variables as usize]?,
        })
    }

    /// The true literals, by place.
    pub fn literals(&self) -> &[u32]
        ensures is { result.now ≡ self.now.literals }
        ensures path { IsPath self.now }
    {
        &self.literals
    }

    /// By place, the number of the clause that made the literal true, 0 for a decision.
    pub fn reasons(&self) -> &[u32]
        ensures { result.now ≡ self.now.reasons }
    {
        &self.reasons
    }

    /// Where each level but the lowest begins.
    pub fn limits(&self) -> &[u32]
        ensures is { result.now ≡ self.now.limits }
        ensures path { IsPath self.now }
    {
        &self.limits
    }

    /// By variable, the place of the literal of it that is true. Where none is, the number means nothing.
    pub fn places(&self) -> &[u32]
        ensures size { length result.now ≡ self.now.variables }
        ensures is { (place : ℕ) → place < length self.now.literals
            → slice_index result.now (variable (slice_index self.now.literals place)) ≡ place }
    {
        &self.places
    }

    /// Whether a literal is true.
    pub fn is_true(&self, literal: u32) -> bool
        requires { literal < 2 * self.now.variables }
        ensures { IsTrue result ↔ Contains self.now.literals literal }
    {
        self.marks[literal as usize]
    }

    /// Adds a literal that is neither true nor false, with the number of the clause that makes it true.
    pub fn push(&mut self, literal: u32, reason: u32)
        requires within { literal < 2 * self.old.variables }
        requires not_true { Contains self.old.literals literal → ⊥ }
        requires not_false { Contains self.old.literals (opposite literal) → ⊥ }
        ensures { self.new ≡ pushed self.old literal reason }
    {
        let place = self.literals.len() as u32;
        self.literals.push_reserved(literal);
        self.reasons.push_reserved(reason);
        self.marks[literal as usize] = true;
        self.places[(literal / 2) as usize] = place;
    }

    /// Begins a level with a literal that is neither true nor false.
    pub fn decide(&mut self, literal: u32)
        requires within { literal < 2 * self.old.variables }
        requires not_true { Contains self.old.literals literal → ⊥ }
        requires not_false { Contains self.old.literals (opposite literal) → ⊥ }
        ensures { self.new ≡ decided self.old literal }
    {
        let start = self.literals.len() as u32;
        self.push(literal, 0);
        self.limits.push_reserved(start);
    }

    /// Takes back all above a level, in the time of what is taken back.
    pub fn undo_to(&mut self, level: usize)
        requires { level < length self.old.limits }
        ensures { self.new ≡ undone self.old level }
    {
        let start = self.limits[level] as usize;
        unmark(&mut self.marks, &self.literals[start..]);
        self.literals.truncate(start);
        self.reasons.truncate(start);
        self.limits.truncate(level);
    }
}

/// Takes the marks of literals away.
fn unmark(marks: &mut [bool], literals: &[u32])
    requires { All (λ literal. literal < length marks.old) literals.now }
    ensures gone { (literal : ℕ) → slice_index_or marks.new literal false ≡ true
        → (slice_index_or marks.old literal false ≡ true) × (Contains literals.now literal → ⊥) }
    ensures kept { (literal : ℕ) → slice_index_or marks.old literal false ≡ true
        → (Contains literals.now literal → ⊥) → slice_index_or marks.new literal false ≡ true }
{
    for literal in literals {
        marks[*literal as usize] = false;
    }
}
