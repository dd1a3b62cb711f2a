// The parts of an unrolled circuit, added to clauses for which there is room.
ghost use Rattle.std.specs.Prelude.{◌≡◌, ◌+◌, ◌*◌, suc, ◌≤◌, neg_ℤ, length, IsTrue};
ghost use Rattle.clauses.specs.declared.flat.TheConstants.{MOST_VARIABLES};
ghost use Rattle.clauses.specs.Literals.{clause_within, is_within};
ghost use Rattle.gates_theory.specs.Circuits.{gate_within, gates_within, IsSound};
ghost use Rattle.gates_theory.specs.Unrolled.{conjunction, equality, gate_clauses, gates_clauses, links, position_clauses, units};
ghost use Rattle.gates.specs.Adding.{Adds, FitsWith};

use crate::adding::{add_1, add_2, add_3};
use crate::literals::{moved, negated, positive};
use clauses::{Clauses, CnfFault};
use gates_theory::{Circuit, Gate};

/// A literal is the conjunction of two others.
fn add_conjunction(
    clauses: &mut Clauses,
    output: i32,
    first: i32,
    second: i32,
) -> Result<(), CnfFault>
    requires output { IsTrue (is_within MOST_VARIABLES output) }
    requires first { IsTrue (is_within MOST_VARIABLES first) }
    requires second { IsTrue (is_within MOST_VARIABLES second) }
    requires fits { FitsWith clauses.old (conjunction output first second) }
    ensures { Adds clauses.old clauses.new (conjunction output first second) result }
{
    add_2(clauses, negated(output), first)?;
    add_2(clauses, negated(output), second)?;
    add_3(clauses, output, negated(first), negated(second))
}

/// Two literals have one value.
fn add_equality(clauses: &mut Clauses, left: i32, right: i32) -> Result<(), CnfFault>
    requires left { IsTrue (is_within MOST_VARIABLES left) }
    requires right { IsTrue (is_within MOST_VARIABLES right) }
    requires fits { FitsWith clauses.old (equality left right) }
    ensures { Adds clauses.old clauses.new (equality left right) result }
{
    add_2(clauses, negated(left), right)?;
    add_2(clauses, left, negated(right))
}

/// A gate that follows so many others.
fn add_gate(clauses: &mut Clauses, base: u32, before: u32, gate: Gate) -> Result<(), CnfFault>
    requires within { IsTrue (gate_within before gate) }
    requires few { base + suc before ≤ MOST_VARIABLES }
    requires fits { FitsWith clauses.old (gate_clauses base before gate) }
    ensures { Adds clauses.old clauses.new (gate_clauses base before gate) result }
{
    match gate {
        Gate::Free => Ok(()),
        Gate::And(first, second) => add_conjunction(
            clauses,
            positive(base + (before + 1)),
            moved(base, first),
            moved(base, second),
        ),
    }
}

/// The gates of a circuit.
pub fn add_gates(clauses: &mut Clauses, base: u32, gates: &[Gate]) -> Result<(), CnfFault>
    requires within { IsTrue (gates_within 0 gates.now) }
    requires few { base + length gates.now ≤ MOST_VARIABLES }
    requires fits { FitsWith clauses.old (gates_clauses base 0 gates.now) }
    ensures { Adds clauses.old clauses.new (gates_clauses base 0 gates.now) result }
{
    for before in 0..gates.len() {
        add_gate(clauses, base, before as u32, gates[before])?;
    }
    Ok(())
}

/// Literals are true.
pub fn add_units(
    clauses: &mut Clauses,
    base: u32,
    literals: &[i32],
    variables: u32,
) -> Result<(), CnfFault>
    requires within { IsTrue (clause_within variables literals.now) }
    requires few { base + variables ≤ MOST_VARIABLES }
    requires fits { FitsWith clauses.old (units base literals.now) }
    ensures { Adds clauses.old clauses.new (units base literals.now) result }
{
    for i in 0..literals.len() {
        add_1(clauses, moved(base, literals[i]))?;
    }
    Ok(())
}

/// Literals at a position have the values that others have at the one before it, whose gates are numbered from so many.
fn add_links(
    clauses: &mut Clauses,
    base_before: u32,
    variables: u32,
    literals: &[i32],
    others: &[i32],
) -> Result<(), CnfFault>
    requires within { IsTrue (clause_within variables literals.now) }
    requires others { IsTrue (clause_within variables others.now) }
    requires each { length others.now ≡ length literals.now }
    requires few { base_before + variables + variables ≤ MOST_VARIABLES }
    requires fits { FitsWith clauses.old (links (base_before + variables) base_before literals.now others.now) }
    ensures { Adds clauses.old clauses.new (links (base_before + variables) base_before literals.now others.now) result }
{
    let base = base_before + variables;
    for i in 0..literals.len() {
        add_equality(
            clauses,
            moved(base, literals[i]),
            moved(base_before, others[i]),
        )?;
    }
    Ok(())
}

/// What a position adds.
pub fn add_position(clauses: &mut Clauses, circuit: &Circuit, position: u32) -> Result<(), CnfFault>
    requires sound { IsSound circuit.now }
    requires few { suc position * length circuit.now.gates ≤ MOST_VARIABLES }
    requires fits { FitsWith clauses.old (position_clauses circuit.now position) }
    ensures { Adds clauses.old clauses.new (position_clauses circuit.entry.now position) result }
{
    match position.checked_sub(1) {
        None => add_gates(clauses, 0, circuit.gates.as_slice()),
        Some(before) => add_next(clauses, circuit, before),
    }
}

/// What a position behind another adds.
fn add_next(clauses: &mut Clauses, circuit: &Circuit, before: u32) -> Result<(), CnfFault>
    requires sound { IsSound circuit.now }
    requires few { suc (suc before) * length circuit.now.gates ≤ MOST_VARIABLES }
    requires fits { FitsWith clauses.old (position_clauses circuit.now (suc before)) }
    ensures { Adds clauses.old clauses.new (position_clauses circuit.entry.now (suc before)) result }
{
    let size = circuit.gates.len() as u32;
    let base_before = before * size;
    add_units(clauses, base_before, circuit.hold.as_slice(), size)?;
    add_links(
        clauses,
        base_before,
        size,
        circuit.now.as_slice(),
        circuit.next.as_slice(),
    )?;
    add_gates(clauses, base_before + size, circuit.gates.as_slice())
}
