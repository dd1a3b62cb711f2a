// The clauses of the nodes that are asked for.
ghost use Rattle.std.specs.Prelude.{◌≡◌, ◌<◌, ◌++◌, [], suc, ◌+◌, ℤ, List, neg_ℤ, cond, length, OnOk, IsTrue};
ghost use Rattle.std.specs.List.{flat_map};
ghost use Rattle.clauses.specs.Literals.{clause_within, clauses_within, is_within};
ghost use Rattle.gates_nodes.specs.Clauses.{asked_clauses, asks, implied, named};
ghost use Rattle.gates_nodes.specs.Nodes.{cover_at, variables_of};
ghost use Rattle.gates_nodes.specs.Tables as spec;
ghost use Rattle.gates_formula.specs.Adding.{Adds};
ghost use Rattle.gates_formula.specs.Marks.{AreMarks};
ghost use Rattle.gates_formula.specs.Places.{clauses_at, node_at, variable_at};

use crate::adding::{add, add_conjunction};
use crate::implied::add_implied;
use crate::wanted::{mark_named, marks_of};
use clauses::{Clauses, Cnf, CnfFault};
use gates_builder::{Builder, cubes, negated};
use gates_nodes::Node;
use netlist::Rows;
use psl_base::Bits;
use std::alloc::Global;

/// The clauses of the nodes that are asked for by the literals of clauses, those of the last node first.
pub fn add_asked(
    alloc: Global,
    cnf: &mut Cnf,
    builder: &Builder,
    clauses: &Clauses,
) -> Result<(), CnfFault>
    requires variables { cnf.old.variables ≡ variables_of builder.now.given builder.now.nodes }
    requires within { IsTrue (clauses_within cnf.old.variables clauses.now) }
    ensures { Adds cnf.old cnf.new (asked_clauses builder.now.covers builder.now.given (suc builder.now.given)
        builder.now.nodes (flat_map (λ clause. clause) clauses.now)) result }
{
    let mut marks = marks_of(alloc, builder.variables(), clauses)?;
    for place in (0..builder.nodes().len()).rev() {
        add_wanted(alloc, cnf, builder, place, &mut marks)?;
    }
    Ok(())
}

// The clauses of the node at a place, where it is asked for; so are then the literals that it names.
fn add_wanted(
    alloc: Global,
    cnf: &mut Cnf,
    builder: &Builder,
    place: usize,
    marks: &mut Bits,
) -> Result<(), CnfFault>
    requires place { place < length builder.now.nodes }
    requires variables { cnf.old.variables ≡ variables_of builder.now.given builder.now.nodes }
    requires size { length marks.old ≡ suc cnf.old.variables }
    ensures clauses { (literals : List ℤ) → AreMarks marks.old literals
        → Adds cnf.old cnf.new (cond (asks literals (variable_at builder.now place)) (clauses_at builder.now place) []) result }
    ensures size { length marks.new ≡ length marks.old }
    ensures marks { OnOk result ((literals : List ℤ) → AreMarks marks.old literals
        → AreMarks marks.new (cond (asks literals (variable_at builder.now place))
        (named (node_at builder.now.nodes place) ++ literals) literals)) }
{
    let variable = builder.given() as usize + 2 + place;
    if *marks.at(variable) {
        add_node(alloc, cnf, builder, place)?;
        mark_named(marks, builder.nodes()[place]);
    }
    Ok(())
}

// The clauses of the node at a place.
fn add_node(alloc: Global, cnf: &mut Cnf, builder: &Builder, place: usize) -> Result<(), CnfFault>
    requires place { place < length builder.now.nodes }
    requires variables { cnf.old.variables ≡ variables_of builder.now.given builder.now.nodes }
    ensures { Adds cnf.old cnf.new (clauses_at builder.now place) result }
{
    let output = (builder.given() + 2 + place as u32) as i32;
    match builder.nodes()[place] {
        Node::Free(_, _) => Ok(()),
        Node::And(first, second) => add_conjunction(cnf, output, first, second),
        Node::Lut(cover, first, second, third, fourth) => {
            let literals = [first, second, third, fourth];
            add_cover(alloc, cnf, builder, cover, output, &literals)
        }
    }
}

// A literal is what a cover says of others; behind the last cover it is false.
fn add_cover(
    alloc: Global,
    cnf: &mut Cnf,
    builder: &Builder,
    cover: u32,
    output: i32,
    literals: &[i32],
) -> Result<(), CnfFault>
    requires given { builder.now.given < cnf.old.variables }
    requires output { IsTrue (is_within cnf.old.variables output) }
    requires literals { IsTrue (clause_within cnf.old.variables literals.now) }
    ensures { Adds cnf.old cnf.new
        (implied output (spec.cubes builder.now.given (cover_at builder.now.covers cover).on literals.now)
        ++ implied (neg_ℤ output) (spec.cubes builder.now.given (cover_at builder.now.covers cover).off literals.now))
        result }
{
    let given = builder.given();
    let covers = builder.covers();
    if cover as usize >= covers.len() {
        return add(cnf, &[negated(output)]);
    }
    let cover = covers.at(cover as usize);
    add_rows(alloc, cnf, given, &cover.on, output, literals)?;
    add_rows(alloc, cnf, given, &cover.off, negated(output), literals)
}

// A literal is true, where a row fits others.
fn add_rows(
    alloc: Global,
    cnf: &mut Cnf,
    given: u32,
    rows: &Rows,
    output: i32,
    literals: &[i32],
) -> Result<(), CnfFault>
    requires given { given < cnf.old.variables }
    requires output { IsTrue (is_within cnf.old.variables output) }
    requires literals { IsTrue (clause_within cnf.old.variables literals.now) }
    ensures { Adds cnf.old cnf.new (implied output (spec.cubes given rows.now literals.now)) result }
{
    let cubes = cubes(alloc, given, rows, literals)?;
    add_implied(alloc, cnf, output, cubes.as_slice())
}
