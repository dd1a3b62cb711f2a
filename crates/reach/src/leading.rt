// A neighbour of a state in a cube.
ghost use Rattle.std.specs.Prelude.{◌≡◌, ◌<◌, ◌≤◌, IfOk, IfSome, IsTrue, length};
ghost use Rattle.clauses.specs.Literals.{clause_within, clauses_within, is_within as within};
ghost use Rattle.clauses.specs.declared.flat.TheConstants.{MOST_VARIABLES};
ghost use Rattle.reach.specs.Formulas.{IsWithin};
ghost use Rattle.reach.specs.Questions.{query_of, IsTold};
ghost use Rattle.reach.specs.Systems.{FollowsAs};
ghost use Rattle.reach.specs.declared.asking.Told.TheVariants.{Model};
ghost use Rattle.reach_frames.specs.Bits.{is_in_cube};

use crate::question::Question;
use crate::reading::bits_in;
use cdcl::{Answer, solve};
use clauses::Clauses;
use joint::Joint;
use psl_base::{Bits, NoMemory};
use std::alloc::Global;

/// A neighbour of the state of these bits in a cube, if one is found. Nothing is said where none is.
pub(crate) fn neighbour_in(
    alloc: Global,
    joint: &Joint,
    steps: u64,
    state: &Bits,
    cube: &[i32],
) -> Result<Option<Bits>, NoMemory>
    ensures { IfOk result (λ found. IfSome found (λ next.
        FollowsAs joint.now state.now next × IsTrue (is_in_cube cube.now next))) }
{
    joint.facts();
    let width = joint.state_bits();
    if state.len() > width as usize {
        return Ok(None);
    }
    if !are_within(width, cube) {
        return Ok(None);
    }
    let frame = units_of(alloc, width, state)?;
    let values = match model_of(alloc, joint, steps, Question::Relative(&frame, false, cube))? {
        None => return Ok(None),
        Some(values) => values,
    };
    let before = bits_in(alloc, &values, 0, width)?;
    let next = bits_in(alloc, &values, width, width)?;
    if are_same(&before, state) {
        return Ok(Some(next));
    }
    Ok(None)
}

/// Whether two lists of bits are the same.
fn are_same(bits: &Bits, others: &Bits) -> bool
    ensures { IsTrue result → bits.now ≡ others.now }
{
    bits.as_slice() == others.as_slice()
}

/// A model of the formula of a query, if the solver finds one.
fn model_of(
    alloc: Global,
    joint: &Joint,
    steps: u64,
    question: Question<'_>,
) -> Result<Option<Bits>, NoMemory>
    requires { IsWithin joint.now (query_of question) }
    ensures { IfOk result (λ found. IfSome found (λ values. IsTold joint.now steps (query_of question.entry) (Model values))) }
{
    let formula = match question.formula(alloc, joint) {
        Ok(formula) => formula,
        Err(_) => return Ok(None),
    };
    match solve(alloc, &formula, steps)? {
        Answer::Model(values) => Ok(Some(values)),
        _ => Ok(None),
    }
}

/// Whether a literal is of one of the first so many variables.
fn is_within(variables: u32, literal: i32) -> bool
    ensures { result ≡ within variables literal }
{
    let variable = literal.unsigned_abs();
    variable > 0 && variable <= variables
}

/// Whether all literals are of the first so many variables.
pub(crate) fn are_within(variables: u32, literals: &[i32]) -> bool
    ensures { result ≡ clause_within variables literals.now }
{
    for literal in literals {
        if !is_within(variables, *literal) {
            return false;
        }
    }
    true
}

/// The literal that says the bit at a place.
#[tactic(auto, using(crate::proofs::Neighbours::variable_within, crate::proofs::Neighbours::denied_within))]
fn literal_of(variables: u32, bit: bool, place: usize) -> i32
    requires below { place < variables }
    requires few { variables ≤ MOST_VARIABLES }
    ensures { IsTrue (within variables result) }
{
    let variable = place as i32 + 1;
    if bit {
        return variable;
    }
    -variable
}

/// For each bit of a state the clause that says it.
fn units_of(alloc: Global, variables: u32, state: &Bits) -> Result<Clauses, NoMemory>
    requires long { length state.now ≤ variables }
    requires few { variables ≤ MOST_VARIABLES }
    ensures { IfOk result (λ units. IsTrue (clauses_within variables units)) }
{
    let mut units = Clauses::new(alloc);
    for place in 0..state.len() {
        let clause = [literal_of(variables, *state.at(place), place)];
        match units.push(&clause) {
            Ok(()) => {}
            Err(_) => return Err(NoMemory),
        }
    }
    Ok(units)
}
