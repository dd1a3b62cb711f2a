// Clauses of what is owed along a path.
ghost use Rattle.std.specs.Prelude.{◌≡◌, length, IfOk, IfSome, OnOk};
ghost use Rattle.gates_builder.specs.Adding.{AreOf, IsOf, Making};
ghost use Rattle.prover_bmc.specs.Later.{IsLater};
ghost use Rattle.prover_bmc.specs.Plans.{AreDebts, IsPlace};

use alternating::{Alternating, Positive};
use clauses::{Clauses, CnfFault};
use gates_builder::{Builder, negated};
use gates_letters::combination_of;
use psl_base::Bits;

/// What combinations are about: the letter of a frame behind the one before, if there is one, and the next place.
#[derive(Clone, Copy)]
pub(crate) struct Place<'a> {
    pub before: Option<&'a [i32]>,
    pub now: &'a [i32],
    /// What may be owed at the next place.
    pub later: &'a [i32],
}

impl<'a> Place<'a> {
    /// The place of these literals.
    pub fn new(before: Option<&'a [i32]>, now: &'a [i32], later: &'a [i32]) -> Place<'a>
        ensures { (making : Making) → IfSome before.entry (λ literals. AreOf making literals.now)
            → AreOf making now.now → AreOf making later.now → IsPlace making result }
    {
        Place { before, now, later }
    }
}

/// Whether the letter of a place and what is owed at the next one meet a combination.
pub(crate) fn met_at(builder: &mut Builder, place: Place, delta: &Positive) -> Result<i32, CnfFault>
    requires { IsPlace builder.old place }
    ensures later { OnOk result (IsLater builder.old builder.new) }
    ensures of { IfOk result (IsOf builder.new) }
{
    let met = combination_of(builder, place.before, place.now, place.later, delta)?;
    Ok(met)
}

// A clause that a combination is met where something is owed.
fn add_due(
    builder: &mut Builder,
    place: Place,
    delta: &Positive,
    debt: i32,
    clauses: &mut Clauses,
) -> Result<(), CnfFault>
    requires place { IsPlace builder.old place }
    requires debt { IsOf builder.old debt }
    ensures { OnOk result (IsLater builder.old builder.new) }
{
    let met = met_at(builder, place, delta)?;
    clauses.push(&[negated(debt), met])?;
    Ok(())
}

/// Clauses that what is owed at a place is met by its letter and what is owed at the next one.
pub(crate) fn add_dues(
    builder: &mut Builder,
    automaton: &Alternating,
    place: Place,
    debts: &[i32],
    clauses: &mut Clauses,
) -> Result<(), CnfFault>
    requires place { IsPlace builder.old place }
    requires debts { AreDebts builder.old automaton.now debts.now }
    ensures { OnOk result (IsLater builder.old builder.new) }
{
    for number in 0..automaton.len() {
        let debt = debts[number as usize];
        if debt != builder.no() {
            add_due(builder, place, automaton.delta(number), debt, clauses)?;
        }
    }
    Ok(())
}

// A clause that, where a literal is true, an obligation that can last does so.
fn add_lasting(
    builder: &mut Builder,
    place: Place,
    delta: &Positive,
    asked: i32,
    debt: i32,
    clauses: &mut Clauses,
) -> Result<(), CnfFault>
    requires place { IsPlace builder.old place }
    requires asked { IsOf builder.old asked }
    requires debt { IsOf builder.old debt }
    ensures { OnOk result (IsLater builder.old builder.new) }
{
    let met = met_at(builder, place, delta)?;
    clauses.push(&[negated(asked), negated(debt), met])?;
    Ok(())
}

/// Clauses that, where a literal is true, what is owed behind a place lasts while the inputs are held: no obligation
/// that cannot last is owed, and the letter of the place and what is owed of the others meet the deltas of these.
pub(crate) fn add_all_lasting(
    builder: &mut Builder,
    automaton: &Alternating,
    lasting: &Bits,
    place: Place,
    asked: i32,
    debts: &[i32],
    clauses: &mut Clauses,
) -> Result<(), CnfFault>
    requires lasting { length lasting.now ≡ length automaton.now.obligations }
    requires place { IsPlace builder.old place }
    requires asked { IsOf builder.old asked }
    requires debts { AreDebts builder.old automaton.now debts.now }
    ensures { OnOk result (IsLater builder.old builder.new) }
{
    for number in 0..automaton.len() {
        let debt = debts[number as usize];
        if debt != builder.no() {
            if *lasting.at(number as usize) {
                let delta = automaton.delta(number);
                add_lasting(builder, place, delta, asked, debt, clauses)?;
            } else {
                clauses.push(&[negated(asked), negated(debt)])?;
            }
        }
    }
    Ok(())
}
