// What is pending along a path: of what is owed and not accepting, what was not met since all that was pending had been.
ghost use Rattle.std.specs.Prelude.{◌≡◌, length, IfOk, OnOk};
ghost use Rattle.gates_builder.specs.Adding.{AreOf, IsOf};
ghost use Rattle.prover_bmc.specs.Later.{IsLater};
ghost use Rattle.prover_bmc.specs.Plans.{AreDebts};

use crate::debts::debt_if;
use alternating::Alternating;
use clauses::{Clauses, CnfFault};
use gates_builder::{Builder, negated};
use gates_theory::Literals;
use psl_base::NoMemory;
use std::alloc::Global;

/// A free literal for each obligation: any may be owed.
pub(crate) fn free_debts(
    alloc: Global,
    builder: &mut Builder,
    automaton: &Alternating,
) -> Result<Literals, CnfFault>
    ensures later { OnOk result (IsLater builder.old builder.new) }
    ensures debts { IfOk result (AreDebts builder.new automaton.now) }
{
    let mut debts = Literals::new(alloc);
    for number in 0..automaton.len() {
        debts.push(debt_if(builder, true, 0, number)?)?;
    }
    Ok(debts)
}

// A free literal for an obligation that may be pending, which is owed where it is; the one that is false for another.
fn pending_if(
    builder: &mut Builder,
    may: bool,
    debt: i32,
    place: u32,
    number: u32,
    clauses: &mut Clauses,
) -> Result<i32, CnfFault>
    requires debt { IsOf builder.old debt }
    ensures later { OnOk result (IsLater builder.old builder.new) }
    ensures of { IfOk result (IsOf builder.new) }
{
    if !may || debt == builder.no() {
        return Ok(builder.no());
    }
    let pending = builder.free(place, number)?;
    clauses.push(&[negated(pending), debt])?;
    Ok(pending)
}

/// What may be pending at a place of what may be owed there: obligations that are not accepting.
pub(crate) fn pending_of(
    alloc: Global,
    builder: &mut Builder,
    automaton: &Alternating,
    debts: &[i32],
    place: u32,
    clauses: &mut Clauses,
) -> Result<Literals, CnfFault>
    requires debts { AreDebts builder.old automaton.now debts.now }
    ensures later { OnOk result (IsLater builder.old builder.new) }
    ensures pending { IfOk result (AreDebts builder.new automaton.now) }
{
    let mut pending = Literals::new(alloc);
    for number in 0..automaton.len() {
        let debt = debts[number as usize];
        let may = !automaton.accepting(number);
        pending.push(pending_if(builder, may, debt, place, number, clauses)?)?;
    }
    Ok(pending)
}

/// What may meet something that is pending: what is owed and accepting, or pending in its place.
pub(crate) fn may_meet(
    alloc: Global,
    builder: &Builder,
    automaton: &Alternating,
    debts: &[i32],
    pending: &[i32],
) -> Result<Literals, NoMemory>
    requires debts { AreDebts builder.now automaton.now debts.now }
    requires pending { AreDebts builder.now automaton.now pending.now }
    ensures { IfOk result (AreDebts builder.now automaton.now) }
{
    let mut may = Literals::new(alloc);
    for number in 0..automaton.len() {
        let place = number as usize;
        let literal = if automaton.accepting(number) {
            debts[place]
        } else {
            pending[place]
        };
        may.push(literal)?;
    }
    Ok(may)
}

/// A literal: where it is true, nothing is pending.
pub(crate) fn add_none(
    builder: &mut Builder,
    pending: &[i32],
    clauses: &mut Clauses,
) -> Result<i32, CnfFault>
    requires { AreOf builder.old pending.now }
    ensures { OnOk result (IsLater builder.old builder.new) }
{
    let none = builder.free(0, 0)?;
    for literal in pending {
        clauses.push(&[negated(none), negated(*literal)])?;
    }
    Ok(none)
}
