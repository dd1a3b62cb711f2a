// Which variables are asked for: a mark for each of them, by its number.
ghost use Rattle.std.specs.Prelude.{◌≡◌, ◌≤◌, ◌<◌, ◌-◌, ◌||◌, [], ℕ, suc, false, length, slice_index_or, IfOk, IsTrue};
ghost use Rattle.std.specs.List.{flat_map};
ghost use Rattle.clauses.specs.declared.flat.TheConstants.{MOST_VARIABLES};
ghost use Rattle.clauses.specs.Literals.{clause_within, clauses_within, is_literal, variable_of};
ghost use Rattle.gates_nodes.specs.Clauses.{asks, named};
ghost use Rattle.gates_nodes.specs.Nodes.{node_within};
ghost use Rattle.gates_formula.specs.Marks.{AreMarks};

use clauses::Clauses;
use gates_nodes::Node;
use psl_base::{Bits, NoMemory};
use std::alloc::Global;

// The variable of a literal.
fn variable_of(literal: i32) -> u32
    requires { IsTrue (is_literal literal) }
    ensures { result ≡ variable_of literal }
{
    literal.unsigned_abs()
}

/// The variables of literals are asked for too.
pub fn mark(marks: &mut Bits, literals: &[i32])
    requires few { length marks.old ≤ suc MOST_VARIABLES }
    requires within { IsTrue (clause_within (length marks.old - 1) literals.now) }
    ensures size { length marks.new ≡ length marks.old }
    ensures marks { (variable : ℕ) → variable < length marks.old → slice_index_or marks.new variable false
        ≡ (asks literals.now variable || slice_index_or marks.old variable false) }
{
    for i in 0..literals.len() {
        marks.set(variable_of(literals[i]) as usize, true);
    }
}

/// The variables of the literals that a node names are asked for too.
pub fn mark_named(marks: &mut Bits, node: Node)
    requires few { length marks.old ≤ suc MOST_VARIABLES }
    requires within { IsTrue (node_within (length marks.old - 1) node) }
    ensures size { length marks.new ≡ length marks.old }
    ensures marks { (variable : ℕ) → variable < length marks.old → slice_index_or marks.new variable false
        ≡ (asks (named node) variable || slice_index_or marks.old variable false) }
{
    match node {
        Node::Free(_, _) => {}
        Node::And(first, second) => mark(marks, &[first, second]),
        Node::Lut(_, first, second, third, fourth) => {
            mark(marks, &[first, second, third, fourth]);
        }
    }
}

/// The marks of the literals of clauses, of so many variables.
pub fn marks_of(alloc: Global, variables: u32, clauses: &Clauses) -> Result<Bits, NoMemory>
    requires few { variables ≤ MOST_VARIABLES }
    requires within { IsTrue (clauses_within variables clauses.now) }
    ensures size { IfOk result (λ marks. length marks ≡ suc variables) }
    ensures marks { IfOk result (λ marks. AreMarks marks (flat_map (λ clause. clause) clauses.now)) }
{
    let mut marks = none(alloc, variables as usize + 1)?;
    for i in (0..clauses.len()).rev() {
        mark(&mut marks, clauses.at(i));
    }
    Ok(marks)
}

// So many marks, none of them set.
fn none(alloc: Global, count: usize) -> Result<Bits, NoMemory>
    ensures size { IfOk result (λ marks. length marks ≡ count) }
    ensures marks { IfOk result (λ marks. AreMarks marks []) }
{
    Ok(Bits::from_vec(vec![in alloc; false; count]?))
}
