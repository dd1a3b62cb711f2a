// States and cubes at run time.
ghost use Rattle.std.specs.Prelude.{◌≡◌, ◌+◌, ◌<◌, ◌≤◌, pos, neg_ℤ, length, IsTrue, IfOk, map};
ghost use Rattle.std.specs.List.{filter};
ghost use Rattle.clauses.specs.declared.flat.TheConstants.{MOST_VARIABLES};
ghost use Rattle.clauses.specs.Literals.{clause_within, is_literal};
ghost use Rattle.clauses.specs.Models.{is_true as true_under, meets as meets_under};
ghost use Rattle.reach_frames.specs.Bits as spec;
ghost use Rattle.reach_frames.specs.Bits.{values_of};
ghost use Rattle.reach_frames.specs.Cubes.{bit_literal, negated as negated_of, cube_of as cube_as};
ghost use Rattle.reach_frames.specs.Marks as marks;

use crate::Literals;
use clauses::Clauses;
use psl_base::{Bits, NoMemory};
use std::alloc::Global;

/// The bit of a variable, counted from 1. Outside it is false.
fn bit_of(state: &Bits, literal: i32) -> bool
    requires { IsTrue (is_literal literal) }
    ensures { result ≡ marks.is_marked state.now literal }
{
    let place = literal.unsigned_abs() as usize - 1;
    place < state.len() && *state.at(place)
}

/// Whether a literal is true in a state.
fn is_true(state: &Bits, literal: i32) -> bool
    requires { IsTrue (is_literal literal) }
    ensures { result ≡ true_under (values_of state.now) literal }
{
    bit_of(state, literal) == (literal > 0)
}

/// Whether a state is in a cube.
pub fn is_in_cube(cube: &[i32], state: &Bits) -> bool
    requires { IsTrue (clause_within MOST_VARIABLES cube.now) }
    ensures { result ≡ spec.is_in_cube cube.now state.now }
{
    for literal in cube {
        if !is_true(state, *literal) {
            return false;
        }
    }
    true
}

/// Whether a state makes a literal of a clause true.
fn meets(clause: &[i32], state: &Bits) -> bool
    requires { IsTrue (clause_within MOST_VARIABLES clause.now) }
    ensures { result ≡ meets_under (values_of state.now) clause.now }
{
    for literal in clause {
        if is_true(state, *literal) {
            return true;
        }
    }
    false
}

/// Whether a state meets clauses.
pub fn is_met(clauses: &Clauses, state: &Bits) -> bool
    ensures { result ≡ spec.is_met clauses.now state.now }
{
    for place in 0..clauses.len() {
        if !meets(clauses.at(place), state) {
            return false;
        }
    }
    true
}

/// The literals that a mask marks.
pub(crate) fn marked(alloc: Global, cube: &[i32], mask: &Bits) -> Result<Literals, NoMemory>
    requires { IsTrue (clause_within MOST_VARIABLES cube.now) }
    ensures { IfOk result (λ part. part ≡ filter (marks.is_marked mask.now) cube.now) }
{
    let mut part = Literals::new(alloc);
    for literal in cube {
        if bit_of(mask, *literal) {
            part.push(*literal)?;
        }
    }
    Ok(part)
}

/// The negation of each literal, in order.
pub(crate) fn negated(alloc: Global, literals: &[i32]) -> Result<Literals, NoMemory>
    requires { IsTrue (clause_within MOST_VARIABLES literals.now) }
    ensures { IfOk result (λ negations. negations ≡ negated_of literals.now) }
{
    let mut negations = Literals::new(alloc);
    for literal in literals {
        negations.push(-*literal)?;
    }
    Ok(negations)
}

/// All bits of a state as a cube.
pub(crate) fn cube_of(alloc: Global, state: &Bits) -> Result<Literals, NoMemory>
    requires { length state.now ≤ MOST_VARIABLES }
    ensures { IfOk result (λ cube. cube ≡ cube_as state.now) }
{
    let mut cube = Literals::new(alloc);
    for place in 0..state.len() {
        cube.push(literal_at(state, place))?;
    }
    Ok(cube)
}

/// The literal that says a bit of a state.
fn literal_at(state: &Bits, place: usize) -> i32
    requires within { place < length state.now }
    requires few { length state.now ≤ MOST_VARIABLES }
    ensures { result ≡ bit_literal state.now place }
{
    let variable = place as i32 + 1;
    if *state.at(place) {
        return variable;
    }
    -variable
}
