// What is known of each initial state: literals that are true of its bits. Most cubes that have none deny such a literal,
// and so need no question.
ghost use Rattle.std.specs.Prelude.{◌≡◌, IfOk, IfSome, IsTrue};
ghost use Rattle.clauses.specs.Literals.{clause_within};
ghost use Rattle.clauses.specs.declared.flat.TheConstants.{MOST_VARIABLES};
ghost use Rattle.joint_theory.specs.Queries.{start_literals};
ghost use Rattle.reach.specs.Knowing.{each_alone, AreKnown, TellsKnown};

use crate::asking::{Told, ask_lightly};
use crate::bit_places::BitPlaces;
use crate::core_bits::no_bits;
use crate::leading::are_within;
use crate::question::Question;
use crate::reading::value_at;
use crate::signal_order::{SignalOrder, compute};
use crate::ternary::{Ternaries, Ternary, all_unknown, at, write};
use clauses::Clauses;
use gates_theory::Literals;
use joint::Joint;
use netlist::Init;
use psl_base::{Bits, NoMemory};
use std::alloc::Global;

// So often literals are left out that are false in an initial state that was found.
const ROUNDS: u32 = 8;

/// Literals that are true of the bits of each initial state: those that the start says, and what follows from these for
/// the signals that the automaton asks about.
pub(crate) fn known_literals(
    alloc: Global,
    joint: &Joint,
    steps: u64,
    start: &Literals,
    order: &SignalOrder,
) -> Result<Literals, NoMemory>
    requires { start.now ≡ start_literals joint.now.design joint.now.automaton joint.now.visits }
    ensures { IfOk result (AreKnown joint.now) }
{
    let mut literals = likely(alloc, joint, start, order)?;
    for turn in 0..ROUNDS {
        let Some(told) = told_of(alloc, joint, steps, &literals)? else {
            return start_again(alloc, joint, start);
        };
        match told {
            Told::Refuted(_, _) => return Ok(literals),
            Told::Model(values) => literals = true_of(alloc, &literals, &values)?,
        }
    }
    start_again(alloc, joint, start)
}

/// The literals of the start alone.
fn start_again(alloc: Global, joint: &Joint, start: &Literals) -> Result<Literals, NoMemory>
    requires { start.now ≡ start_literals joint.now.design joint.now.automaton joint.now.visits }
    ensures { IfOk result (AreKnown joint.now) }
{
    joint.facts();
    let literals = start.copy(alloc)?;
    Ok(literals)
}

/// What is told of the query for an initial state in which one of some literals is false.
fn told_of(
    alloc: Global,
    joint: &Joint,
    steps: u64,
    literals: &Literals,
) -> Result<Option<Told>, NoMemory>
    ensures { IfOk result (λ found. IfSome found (TellsKnown joint.now literals.now)) }
{
    joint.facts();
    let width = joint.state_bits();
    if !are_within(width, literals.as_slice()) {
        return Ok(None);
    }
    let clauses = each_of(alloc, literals.as_slice())?;
    match ask_lightly(alloc, joint, steps, Question::Initial(&clauses))? {
        Some(told) => Ok(Some(told)),
        None => Ok(None),
    }
}

/// For each literal the clause that says it.
fn each_of(alloc: Global, literals: &[i32]) -> Result<Clauses, NoMemory>
    requires { IsTrue (clause_within MOST_VARIABLES literals.now) }
    ensures { IfOk result (λ clauses. clauses ≡ each_alone literals.now) }
{
    let mut clauses = Clauses::new(alloc);
    for literal in literals {
        match clauses.push(&[*literal]) {
            Ok(()) => {}
            Err(_) => return Err(NoMemory),
        }
    }
    Ok(clauses)
}

/// Those of some literals that values make true.
fn true_of(alloc: Global, literals: &Literals, values: &Bits) -> Result<Literals, NoMemory> {
    let mut kept = Literals::new(alloc);
    for literal in literals.as_slice() {
        let place = (literal.unsigned_abs() as usize).saturating_sub(1);
        if value_at(values, place) == (*literal > 0) {
            kept.push(*literal)?;
        }
    }
    Ok(kept)
}

/// Literals that are likely to be true of each initial state.
fn likely(
    alloc: Global,
    joint: &Joint,
    start: &Literals,
    order: &SignalOrder,
) -> Result<Literals, NoMemory> {
    let places = BitPlaces::of(joint);
    let values = first_values(alloc, joint, order)?;
    let mut literals = start.copy(alloc)?;
    for signal in 0..places.signals {
        push_bit(&mut literals, places.before(signal), Ternary::False)?;
        push_bit(
            &mut literals,
            places.now(signal),
            at(&values, signal as usize),
        )?;
    }
    Ok(literals)
}

/// Adds the literal of the bit at a place, where its value is known.
fn push_bit(literals: &mut Literals, place: usize, value: Ternary) -> Result<(), NoMemory> {
    let Ok(variable) = i32::try_from(place.saturating_add(1)) else {
        return Ok(());
    };
    match value {
        Ternary::True => literals.push(variable),
        Ternary::False => literals.push(variable.wrapping_neg()),
        Ternary::Unknown => Ok(()),
    }
}

/// The values of signals in each initial state, as far as the first values of latches tell them.
fn first_values(alloc: Global, joint: &Joint, order: &SignalOrder) -> Result<Ternaries, NoMemory> {
    let (netlist, signals) = (joint.netlist(), joint.netlist().signals());
    let mut values = all_unknown(alloc, signals)?;
    for number in order.latches.as_slice() {
        if let Some(latch) = netlist.latches().as_slice().get(*number as usize) {
            write(&mut values, latch.output as usize, first_value(latch.init));
        }
    }
    let none = no_bits(alloc, signals as usize)?;
    compute(netlist, &order.tables, &none, &mut values);
    Ok(values)
}

/// The first value of a latch, where it has only one.
fn first_value(init: Init) -> Ternary {
    match init {
        Init::Zero => Ternary::False,
        Init::One => Ternary::True,
        Init::Free => Ternary::Unknown,
    }
}
