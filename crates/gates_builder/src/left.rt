// What is left of the literals that rows ask.
ghost use Rattle.std.specs.Prelude.{◌≡◌, ◌<◌, suc, cond, None, Some, IfOk, IsTrue};
ghost use Rattle.std.specs.List.{list_any};
ghost use Rattle.clauses.specs.declared.flat.TheConstants.{MOST_VARIABLES};
ghost use Rattle.clauses.specs.Literals.{is_literal};
ghost use Rattle.gates_nodes.specs.Tables as spec;
ghost use Rattle.gates_nodes.specs.Tables.{asked, has_literal, is_nil, sole_of, with_literal};
ghost use Rattle.gates_builder.specs.Adding.{AreLiterals};

use crate::literals::{negated, no, yes};
use gates_theory::Literals;
use netlist::{Mark, Rows};
use psl_base::{Items, NoMemory};
use std::alloc::Global;

/// Literals that are true together, for each of some rows.
pub type Cubes = Items<Literals>;

/// The literal that a mark asks to be true, of that of an input.
pub fn marked(given: u32, mark: Mark, literal: i32) -> i32
    requires given { given < MOST_VARIABLES }
    requires literal { IsTrue (is_literal literal) }
    ensures is { result ≡ spec.marked given mark literal }
    ensures literal { IsTrue (is_literal result) }
{
    match mark {
        Mark::Zero => negated(literal),
        Mark::One => literal,
        Mark::Any => yes(given),
    }
}

// Whether a literal is among some.
fn has(literals: &[i32], literal: i32) -> bool
    ensures { result ≡ has_literal literals.now literal }
{
    literals.iter().any(|other| literal == *other)
}

// One literal more is to be true with others, if it can be.
fn join(given: u32, left: &mut Literals, literal: i32) -> Result<bool, NoMemory>
    requires given { given < MOST_VARIABLES }
    requires literal { IsTrue (is_literal literal) }
    ensures { IfOk result (λ fits. cond fits (Some left.new) None ≡ with_literal given (Some left.old) literal) }
{
    if literal == yes(given) || has(left.as_slice(), literal) {
        return Ok(true);
    }
    if literal == no(given) || has(left.as_slice(), negated(literal)) {
        return Ok(false);
    }
    left.push(literal)?;
    Ok(true)
}

/// What is left of the literals that a row asks to be true, if they can be true together.
pub fn left_of(
    alloc: Global,
    given: u32,
    row: &[Mark],
    literals: &[i32],
) -> Result<Option<Literals>, NoMemory>
    requires given { given < MOST_VARIABLES }
    requires literals { AreLiterals literals.now }
    ensures { IfOk result (λ left. left ≡ spec.left_of given (asked given row.now literals.now)) }
{
    let mut left = Literals::new(alloc);
    let count = row.len().min(literals.len());
    for i in 0..count {
        if !join(given, &mut left, marked(given, row[i], literals[i]))? {
            return Ok(None);
        }
    }
    Ok(Some(left))
}

/// What is left of each row that can fit.
pub fn cubes(alloc: Global, given: u32, rows: &Rows, literals: &[i32]) -> Result<Cubes, NoMemory>
    requires given { given < MOST_VARIABLES }
    requires literals { AreLiterals literals.now }
    ensures { IfOk result (λ cubes. cubes ≡ spec.cubes given rows.now literals.now) }
{
    let mut cubes = Cubes::new(alloc);
    for i in 0..rows.len() {
        if let Some(left) = left_of(alloc, given, rows.at(i), literals)? {
            cubes.push(left)?;
        }
    }
    Ok(cubes)
}

/// Whether some cube is empty.
pub fn has_nil(cubes: &[Literals]) -> bool
    ensures { result ≡ list_any is_nil cubes.now }
{
    cubes.iter().any(|cube| cube.len() == 0)
}

/// The one literal of the one cube.
pub fn sole(cubes: &[Literals]) -> Option<i32>
    ensures { result ≡ spec.sole cubes.now }
{
    if cubes.len() != 1 {
        return None;
    }
    sole_of(cubes[0].as_slice())
}

fn sole_of(cube: &[i32]) -> Option<i32>
    ensures { result ≡ sole_of cube.now }
{
    if cube.len() == 1 { Some(cube[0]) } else { None }
}
