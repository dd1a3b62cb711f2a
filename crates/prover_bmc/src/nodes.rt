// The clauses of nodes.
ghost use Rattle.std.specs.Prelude.{◌≡◌, ◌<◌, ◌∷◌, neg_ℤ, map, length, IfOk, IsTrue};
ghost use Rattle.clauses.specs.Literals.{clause_within, clauses_within, is_literal};
ghost use Rattle.clauses.specs.declared.flat.TheConstants.{MOST_VARIABLES};
ghost use Rattle.gates_builder.specs.Adding.{AreLiterals};

use clauses::{Clauses, CnfFault};
use gates_builder::{Builder, cubes, negated};
use gates_nodes::Node;
use gates_theory::Literals;
use netlist::Rows;
use psl_base::NoMemory;
use std::alloc::Global;

/// Adds the clauses of the node at a place.
pub(crate) fn add_node(
    alloc: Global,
    builder: &Builder,
    place: usize,
    clauses: &mut Clauses,
) -> Result<(), CnfFault>
    requires { place < length builder.now.nodes }
{
    let nodes = builder.nodes();
    let output = (builder.given() + 2 + place as u32) as i32;
    match nodes[place] {
        Node::Free(_, _) => Ok(()),
        Node::And(first, second) => add_conjunction(clauses, output, first, second),
        Node::Lut(cover, first, second, third, fourth) => {
            let literals = [first, second, third, fourth];
            add_cover(alloc, builder, clauses, cover, output, &literals)
        }
    }
}

// A literal is the conjunction of two others.
fn add_conjunction(
    clauses: &mut Clauses,
    output: i32,
    first: i32,
    second: i32,
) -> Result<(), CnfFault>
    requires output { IsTrue (is_literal output) }
    requires first { IsTrue (is_literal first) }
    requires second { IsTrue (is_literal second) }
{
    let neither = negated(output);
    clauses.push(&[neither, first])?;
    clauses.push(&[neither, second])?;
    clauses.push(&[output, negated(first), negated(second)])
}

// A literal is what a cover says of others; behind the last cover it is false.
fn add_cover(
    alloc: Global,
    builder: &Builder,
    clauses: &mut Clauses,
    cover: u32,
    output: i32,
    literals: &[i32],
) -> Result<(), CnfFault>
    requires output { IsTrue (is_literal output) }
    requires literals { IsTrue (clause_within MOST_VARIABLES literals.now) }
{
    let given = builder.given();
    let covers = builder.covers();
    if cover as usize >= covers.len() {
        return clauses.push(&[negated(output)]);
    }
    let cover = covers.at(cover as usize);
    add_rows(alloc, given, clauses, &cover.on, output, literals)?;
    add_rows(alloc, given, clauses, &cover.off, negated(output), literals)
}

// A literal is true, where a row fits others.
fn add_rows(
    alloc: Global,
    given: u32,
    clauses: &mut Clauses,
    rows: &Rows,
    output: i32,
    literals: &[i32],
) -> Result<(), CnfFault>
    requires given { given < MOST_VARIABLES }
    requires output { IsTrue (is_literal output) }
    requires literals { IsTrue (clause_within MOST_VARIABLES literals.now) }
{
    let cubes = cubes(alloc, given, rows, literals)?;
    add_implied(alloc, clauses, output, cubes.as_slice())
}

// For each of some cubes: where its literals are true, so is another literal.
fn add_implied(
    alloc: Global,
    clauses: &mut Clauses,
    literal: i32,
    cubes: &[Literals],
) -> Result<(), CnfFault>
    requires literal { IsTrue (is_literal literal) }
    requires cubes { IsTrue (clauses_within MOST_VARIABLES cubes.now) }
{
    for cube in cubes {
        let clause = implication(alloc, literal, cube.as_slice())?;
        clauses.push(clause.as_slice())?;
    }
    Ok(())
}

// The clause that literals that are true together imply another one.
fn implication(alloc: Global, literal: i32, cube: &[i32]) -> Result<Literals, NoMemory>
    requires { IsTrue (clause_within MOST_VARIABLES cube.now) }
    ensures { IfOk result (λ clause. clause ≡ literal ∷ map neg_ℤ cube.now) }
{
    let mut clause = Literals::new(alloc);
    clause.push(literal)?;
    for i in 0..cube.len() {
        clause.push(negated(cube[i]))?;
    }
    Ok(clause)
}
