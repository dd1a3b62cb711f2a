// Clauses that no two states of a path are equal.
ghost use Rattle.std.specs.Prelude.{◌≡◌, [], ◌∷◌, ◌++◌, ◌+◌, ◌*◌, ◌<◌, ◌≤◌, ◌↔◌, suc, neg_ℤ, negsuc, length, IsTrue, Err, IfOk, OnOk, OnErr};
ghost use Rattle.clauses.specs.declared.flat.CnfFault.{CnfFault};
ghost use Rattle.clauses.specs.declared.flat.TheConstants.{MOST_VARIABLES};
ghost use Rattle.clauses.specs.Literals.{clause_within, is_within};
ghost use Rattle.gates_theory.specs.Circuits.{IsSound};
ghost use Rattle.gates_theory.specs.Distinct as spec;
ghost use Rattle.gates_theory.specs.Distinct.{difference, differences, following, pair_clauses, row_clauses, variables_before};
ghost use Rattle.gates.specs.Adding.{Adds, FitsWith, pair_of};

use crate::adding::{add, add_3};
use crate::literals::{moved, negated, positive};
use crate::sizes::pairs;
use clauses::{Clauses, CnfFault};
use gates_theory::Circuit;

/// The variables in use, and those before the gates of two positions.
#[derive(Clone, Copy)]
struct Pair {
    variables: u32,
    low: u32,
    high: u32,
}

/// The next variable is true only where two literals have different values.
fn add_difference(
    clauses: &mut Clauses,
    variables: u32,
    low: i32,
    high: i32,
) -> Result<(), CnfFault>
    requires few { variables < MOST_VARIABLES }
    requires low { IsTrue (is_within MOST_VARIABLES low) }
    requires high { IsTrue (is_within MOST_VARIABLES high) }
    requires fits { FitsWith clauses.old (difference variables low high) }
    ensures { Adds clauses.old clauses.new (difference variables low high) result }
{
    let none = negated(positive(variables + 1));
    add_3(clauses, none, low, high)?;
    add_3(clauses, none, negated(low), negated(high))
}

/// The next variables are true only where literals have different values at two positions.
fn add_differences(
    clauses: &mut Clauses,
    pair: Pair,
    literals: &[i32],
    size: u32,
) -> Result<(), CnfFault>
    requires within { IsTrue (clause_within size literals.now) }
    requires few { pair.variables + length literals.now ≤ MOST_VARIABLES }
    requires low { pair.low + size ≤ MOST_VARIABLES }
    requires high { pair.high + size ≤ MOST_VARIABLES }
    requires fits { FitsWith clauses.old (differences pair.variables pair.low pair.high literals.now) }
    ensures { Adds clauses.old clauses.new (differences pair.variables pair.low pair.high literals.now)
        result }
{
    for i in 0..literals.len() {
        add_difference(
            clauses,
            pair.variables + i as u32,
            moved(pair.low, literals[i]),
            moved(pair.high, literals[i]),
        )?;
    }
    Ok(())
}

/// Writes the literals of the next variables.
fn write_following(literals: &mut [i32], variables: u32)
    requires { variables + length literals.old ≤ MOST_VARIABLES }
    ensures { literals.new ≡ following variables (length literals.old) }
{
    for i in 0..literals.len() {
        literals[i] = positive(variables + i as u32 + 1);
    }
}

/// The states at two positions are different. The buffer has a place for each state bit.
fn add_pair(
    clauses: &mut Clauses,
    circuit: &Circuit,
    buffer: &mut [i32],
    pair: Pair,
) -> Result<(), CnfFault>
    requires sound { IsSound circuit.now }
    requires buffer { length buffer.old ≡ length circuit.now.now }
    requires few { pair.variables + length circuit.now.now ≤ MOST_VARIABLES }
    requires low { pair.low + length circuit.now.gates ≤ MOST_VARIABLES }
    requires high { pair.high + length circuit.now.gates ≤ MOST_VARIABLES }
    requires fits { FitsWith clauses.old (pair_of circuit.now pair.variables pair.low pair.high) }
    ensures added { Adds clauses.old clauses.new (pair_of circuit.entry.now pair.variables pair.low pair.high)
        result }
    ensures buffer { length buffer.new ≡ length buffer.old }
{
    let size = circuit.gates.len() as u32;
    add_differences(clauses, pair, circuit.now.as_slice(), size)?;
    write_following(buffer, pair.variables);
    add(clauses, buffer)
}

/// The states at the positions before another are different from the one there.
fn add_row(
    clauses: &mut Clauses,
    circuit: &Circuit,
    buffer: &mut [i32],
    variables: u32,
    later: u32,
) -> Result<(), CnfFault>
    requires sound { IsSound circuit.now }
    requires buffer { length buffer.old ≡ length circuit.now.now }
    requires positions { suc later * length circuit.now.gates ≤ variables }
    requires few { variables_before circuit.now variables 0 (suc later) ≤ MOST_VARIABLES }
    requires fits { FitsWith clauses.old (row_clauses circuit.now variables later later) }
    ensures added { Adds clauses.old clauses.new (row_clauses circuit.entry.now variables later later) result }
    ensures buffer { length buffer.new ≡ length buffer.old }
{
    let size = circuit.gates.len() as u32;
    let high = later * size;
    let mut used = used_before(circuit, variables, later);
    for earlier in 0..later {
        let low = earlier * size;
        add_pair(
            clauses,
            circuit,
            buffer,
            Pair {
                variables: used,
                low,
                high,
            },
        )?;
        used += circuit.now.len() as u32;
    }
    Ok(())
}

/// The variables in use before the pairs of a position.
fn used_before(circuit: &Circuit, variables: u32, later: u32) -> u32
    requires { variables_before circuit.now variables 0 later ≤ MOST_VARIABLES }
    ensures { result ≡ variables_before circuit.entry.now variables 0 later }
{
    variables + (u128::from(pairs(later)) * circuit.now.len() as u128) as u32
}

/// The states at the first so many positions are different.
pub fn add_states(
    clauses: &mut Clauses,
    circuit: &Circuit,
    buffer: &mut [i32],
    variables: u32,
    positions: u32,
) -> Result<(), CnfFault>
    requires sound { IsSound circuit.now }
    requires buffer { length buffer.old ≡ length circuit.now.now }
    requires positions { positions * length circuit.now.gates ≤ variables }
    requires few { variables_before circuit.now variables 0 positions ≤ MOST_VARIABLES }
    requires fits { FitsWith clauses.old (spec.distinct circuit.now variables positions) }
    ensures { Adds clauses.old clauses.new (spec.distinct circuit.entry.now variables positions) result }
{
    for later in 0..positions {
        add_row(clauses, circuit, buffer, variables, later)?;
    }
    Ok(())
}
