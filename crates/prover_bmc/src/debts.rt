// What is owed along a path: a literal for each obligation at each place, which is false where it is not owed.
ghost use Rattle.std.specs.Prelude.{◌≡◌, length, IfOk, OnOk};
ghost use Rattle.gates_builder.specs.Adding.{IsOf};
ghost use Rattle.prover_bmc.specs.Later.{IsLater};
ghost use Rattle.prover_bmc.specs.Plans.{AreDebts};

use alternating::{Alternating, Positive};
use clauses::CnfFault;
use gates_builder::Builder;
use gates_theory::Literals;
use psl_base::{Bits, NoMemory};
use std::alloc::Global;

/// At the first place the start is owed, and nothing else.
pub(crate) fn first_debts(
    alloc: Global,
    builder: &Builder,
    automaton: &Alternating,
) -> Result<Literals, NoMemory>
    ensures { IfOk result (AreDebts builder.now automaton.now) }
{
    let mut debts = Literals::new(alloc);
    for number in 0..automaton.len() {
        let debt = if number == automaton.start() {
            builder.yes()
        } else {
            builder.no()
        };
        debts.push(debt)?;
    }
    Ok(debts)
}

// Marks the obligations that a combination owes.
fn mark(marks: &mut [bool], positive: &Positive)
    ensures { length marks.new ≡ length marks.old }
{
    match positive {
        Positive::Const(_) | Positive::Holds(_) => {}
        Positive::Owed(number) => {
            if (*number as usize) < marks.len() {
                marks[*number as usize] = true;
            }
        }
        Positive::And(left, right) | Positive::Or(left, right) => {
            mark(marks, left);
            mark(marks, right);
        }
    }
}

// So many marks, none of them set.
fn no_marks(alloc: Global, count: u32) -> Result<Vec<bool>, NoMemory>
    ensures { IfOk result (λ marks. length marks.items ≡ count) }
{
    Ok(vec![in alloc; false; count as usize]?)
}

// Of each obligation whether one that may be owed owes it.
fn owed_by(
    alloc: Global,
    builder: &Builder,
    automaton: &Alternating,
    debts: &[i32],
) -> Result<Vec<bool>, NoMemory>
    requires { AreDebts builder.now automaton.now debts.now }
    ensures { IfOk result (λ marks. length marks.items ≡ length automaton.now.obligations) }
{
    let mut marks = no_marks(alloc, automaton.len())?;
    for number in 0..automaton.len() {
        if debts[number as usize] != builder.no() {
            mark(&mut marks, automaton.delta(number));
        }
    }
    Ok(marks)
}

/// A free literal, or the one that is false. The numbers say what it stands for.
pub(crate) fn debt_if(
    builder: &mut Builder,
    is_owed: bool,
    place: u32,
    number: u32,
) -> Result<i32, CnfFault>
    ensures later { OnOk result (IsLater builder.old builder.new) }
    ensures of { IfOk result (IsOf builder.new) }
{
    if is_owed {
        builder.free(place, number)
    } else {
        Ok(builder.no())
    }
}

/// What may be owed at a place, behind what may be owed at the place before it: a free literal for each obligation
/// that one of those owes. None of the others is owed.
pub(crate) fn next_debts(
    alloc: Global,
    builder: &mut Builder,
    automaton: &Alternating,
    debts: &[i32],
    place: u32,
) -> Result<Literals, CnfFault>
    requires { AreDebts builder.old automaton.now debts.now }
    ensures later { OnOk result (IsLater builder.old builder.new) }
    ensures debts { IfOk result (AreDebts builder.new automaton.now) }
{
    let marks = owed_by(alloc, builder, automaton, debts)?;
    let mut next = Literals::new(alloc);
    for number in 0..automaton.len() {
        next.push(debt_if(builder, marks[number as usize], place, number)?)?;
    }
    Ok(next)
}

/// What may be owed of the obligations that can last; none of the others is owed.
pub(crate) fn lasting_debts(
    alloc: Global,
    builder: &Builder,
    automaton: &Alternating,
    lasting: &Bits,
    debts: &[i32],
) -> Result<Literals, NoMemory>
    requires lasting { length lasting.now ≡ length automaton.now.obligations }
    requires debts { AreDebts builder.now automaton.now debts.now }
    ensures { IfOk result (AreDebts builder.now automaton.now) }
{
    let mut kept = Literals::new(alloc);
    for number in 0..lasting.len() {
        let debt = if *lasting.at(number) {
            debts[number]
        } else {
            builder.no()
        };
        kept.push(debt)?;
    }
    Ok(kept)
}
