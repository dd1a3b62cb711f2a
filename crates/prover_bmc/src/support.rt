// What asks for an obligation at the next place.
ghost use Rattle.std.specs.Prelude.{◌≡◌, length, IfOk, OnOk};
ghost use Rattle.gates_builder.specs.Adding.{IsOf};
ghost use Rattle.prover_bmc.specs.Later.{IsLater};
ghost use Rattle.prover_bmc.specs.Plans.{AreDebts, IsPlace};

use crate::dues::{Place, met_at};
use crate::joining::{both, either};
use alternating::{Alternating, Positive};
use clauses::{Clauses, CnfFault};
use gates_builder::{Builder, negated};
use psl_tree::Bool;

// Where a combination is asked for that stands beside another one under a guard: in a conjunction where the test of that
// one holds, in a disjunction where it does not. Beside a test that says nothing it is as without it.
fn beside(
    builder: &mut Builder,
    place: Place,
    guard: i32,
    other: &Positive,
    is_and: bool,
) -> Result<i32, CnfFault>
    requires place { IsPlace builder.old place }
    requires guard { IsOf builder.old guard }
    ensures later { OnOk result (IsLater builder.old builder.new) }
    ensures of { IfOk result (IsOf builder.new) }
{
    match other {
        Positive::Holds(Bool::Const(value)) if *value == is_and => Ok(guard),
        Positive::Holds(_) => {
            let held = met_at(builder, place, other)?;
            Ok(if is_and { held } else { negated(held) })
        }
        Positive::Const(_) | Positive::Owed(_) | Positive::And(_, _) | Positive::Or(_, _) => {
            Ok(builder.yes())
        }
    }
}

// Where each of two combinations is asked for that stand beside each other.
fn beside_each_other(
    builder: &mut Builder,
    place: Place,
    guard: i32,
    left: &Positive,
    right: &Positive,
    is_and: bool,
) -> Result<(i32, i32), CnfFault>
    requires place { IsPlace builder.old place }
    requires guard { IsOf builder.old guard }
    ensures later { OnOk result (IsLater builder.old builder.new) }
    ensures left { IfOk result (λ guards. IsOf builder.new guards.0) }
    ensures right { IfOk result (λ guards. IsOf builder.new guards.1) }
{
    let first = beside(builder, place, guard, right, is_and)?;
    let second = beside(builder, place, guard, left, is_and)?;
    Ok((first, second))
}

// Whether a combination that is asked for under a guard asks for the obligation of a number.
fn asks(
    builder: &mut Builder,
    place: Place,
    guard: i32,
    delta: &Positive,
    number: u32,
) -> Result<i32, CnfFault>
    requires place { IsPlace builder.old place }
    requires guard { IsOf builder.old guard }
    ensures later { OnOk result (IsLater builder.old builder.new) }
    ensures of { IfOk result (IsOf builder.new) }
{
    match delta {
        Positive::Const(_) | Positive::Holds(_) => Ok(builder.no()),
        Positive::Owed(other) => {
            if *other == number {
                Ok(guard)
            } else {
                Ok(builder.no())
            }
        }
        Positive::And(left, right) => {
            let (first, second) = beside_each_other(builder, place, guard, left, right, true)?;
            let one = asks(builder, place, first, left, number)?;
            let other = asks(builder, place, second, right, number)?;
            either(builder, one, other)
        }
        Positive::Or(left, right) => {
            let (first, second) = beside_each_other(builder, place, guard, left, right, false)?;
            let one = asks(builder, place, first, left, number)?;
            let other = asks(builder, place, second, right, number)?;
            either(builder, one, other)
        }
    }
}

// Whether one of the obligations that are owed at a place asks for the obligation of a number.
fn asked_by(
    builder: &mut Builder,
    automaton: &Alternating,
    place: Place,
    debts: &[i32],
    number: u32,
) -> Result<i32, CnfFault>
    requires place { IsPlace builder.old place }
    requires debts { AreDebts builder.old automaton.now debts.now }
    ensures later { OnOk result (IsLater builder.old builder.new) }
    ensures of { IfOk result (IsOf builder.new) }
{
    let mut some = builder.no();
    for other in 0..automaton.len() {
        let debt = debts[other as usize];
        if debt != builder.no() {
            let guard = builder.yes();
            let asked = asks(builder, place, guard, automaton.delta(other), number)?;
            let both = both(builder, debt, asked)?;
            some = either(builder, some, both)?;
        }
    }
    Ok(some)
}

/// Clauses that what is owed at the next place is asked for by something that is owed at a place.
pub(crate) fn add_supports(
    builder: &mut Builder,
    automaton: &Alternating,
    place: Place,
    debts: &[i32],
    next: &[i32],
    clauses: &mut Clauses,
) -> Result<(), CnfFault>
    requires place { IsPlace builder.old place }
    requires debts { AreDebts builder.old automaton.now debts.now }
    requires next { AreDebts builder.old automaton.now next.now }
    ensures { OnOk result (IsLater builder.old builder.new) }
{
    for number in 0..automaton.len() {
        let debt = next[number as usize];
        if debt != builder.no() {
            let asked = asked_by(builder, automaton, place, debts, number)?;
            clauses.push(&[negated(debt), asked])?;
        }
    }
    Ok(())
}
