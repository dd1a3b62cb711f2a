ghost use Rattle.std.specs.Prelude.{◌≡◌, ◌<◌, ◌+◌, length, All, IfOk, OnOk};
ghost use Rattle.alternating_theory.specs.Positive.{OwesWithin};
ghost use Rattle.alternating.specs.Views.{positive_of};
ghost use Rattle.alternating_blocks.specs.Order.{AreWithin, IsOrder, VisitsWithin};

use alternating::{Alternating, Positive};
use psl_base::NoMemory;
use std::alloc::Global;

/// The order in which the words of obligations are found: where there is no cycle, each after those that it owes.
#[derive(Drop)]
pub(crate) struct Order {
    /// The obligations by turn.
    pub(crate) turns: Vec<u32>,
    /// Of each obligation the turns of those that owe it.
    pub(crate) owers: Vec<Vec<usize>>,
}

impl Order {
    /// The order of an automaton's obligations, by a walk from each to those that it owes, depth first, that begins at
    /// the last.
    pub(crate) fn new(alloc: Global, automaton: &Alternating) -> Result<Order, NoMemory>
        ensures { IfOk result (IsOrder (length automaton.now.obligations)) }
    {
        let owed = owed_of_each(alloc, automaton)?;
        let turns = turns_of(alloc, automaton.len(), owed.as_slice())?;
        let owers = owers_of(alloc, owed.as_slice(), turns.as_slice())?;
        Ok(Order { turns, owers })
    }
}

// Of each obligation those that it owes.
fn owed_of_each(alloc: Global, automaton: &Alternating) -> Result<Vec<Vec<u32>>, NoMemory>
    ensures count { IfOk result (λ owed. length owed.items ≡ length automaton.now.obligations) }
    ensures within { IfOk result (λ owed. AreWithin (length automaton.now.obligations) owed.items) }
{
    let mut owed = Vec::new(alloc);
    for number in 0..automaton.len() {
        let mut numbers = Vec::new(alloc);
        add_owed(automaton.len(), automaton.delta(number), &mut numbers)?;
        owed.push(numbers)?;
    }
    Ok(owed)
}

// Adds the numbers that a combination owes, each once.
fn add_owed(count: u32, combination: &Positive, into: &mut Vec<u32>) -> Result<(), NoMemory>
    requires owed { OwesWithin 0 count (positive_of combination.now) }
    requires within { All (λ number. number < count) into.old.items }
    ensures { OnOk result (All (λ number. number < count) into.new.items) }
{
    match combination {
        Positive::Const(_) | Positive::Holds(_) => Ok(()),
        Positive::Owed(number) => {
            if !into.contains(number) {
                into.push(*number)?;
            }
            Ok(())
        }
        Positive::And(left, right) | Positive::Or(left, right) => {
            add_owed(count, left, into)?;
            add_owed(count, right, into)
        }
    }
}

/// What is left of a walk: an obligation to enter, or one to leave, whose owed ones were entered.
#[derive(Clone, Copy)]
pub(crate) enum Visit {
    Enter(u32),
    Leave(u32),
}

// The obligations in the order in which a walk leaves them.
fn turns_of(alloc: Global, count: u32, owed: &[Vec<u32>]) -> Result<Vec<u32>, NoMemory>
    requires count { length owed.now ≡ count }
    requires within { AreWithin (length owed.now) owed.now }
    ensures { IfOk result (λ turns. All (λ number. number < length owed.now) turns.items) }
{
    let mut turns = Vec::new(alloc);
    let mut entered = vec![in alloc; false; owed.len()]?;
    let mut visits = all_visits(alloc, count)?;
    for _ in 0..u64::MAX {
        let Some(visit) = visits.pop() else {
            break;
        };
        match visit {
            Visit::Leave(number) => turns.push(number)?,
            Visit::Enter(number) => enter(number, owed, &mut entered, &mut visits)?,
        }
    }
    Ok(turns)
}

fn all_visits(alloc: Global, count: u32) -> Result<Vec<Visit>, NoMemory>
    ensures { IfOk result (λ visits. VisitsWithin count visits.items) }
{
    let mut visits = Vec::new(alloc);
    for number in 0..count {
        visits.push(Visit::Enter(number))?;
    }
    Ok(visits)
}

// Enters an obligation, unless it was entered before.
fn enter(
    number: u32,
    owed: &[Vec<u32>],
    entered: &mut [bool],
    visits: &mut Vec<Visit>,
) -> Result<(), NoMemory>
    requires number { number < length owed.now }
    requires within { AreWithin (length owed.now) owed.now }
    requires entered { length entered.old ≡ length owed.now }
    requires visits { VisitsWithin (length owed.now) visits.old.items }
    ensures { OnOk result (VisitsWithin (length owed.now) visits.new.items) }
{
    let place = number as usize;
    if entered[place] {
        return Ok(());
    }
    entered[place] = true;
    visits.push(Visit::Leave(number))?;
    for next in &owed[place] {
        visits.push(Visit::Enter(*next))?;
    }
    Ok(())
}

// Of each obligation the turns of those that owe it.
fn owers_of(alloc: Global, owed: &[Vec<u32>], turns: &[u32]) -> Result<Vec<Vec<usize>>, NoMemory>
    requires within { AreWithin (length owed.now) owed.now }
    requires turns { All (λ number. number < length owed.now) turns.now }
    ensures count { IfOk result (λ owers. length owers.items ≡ length owed.now) }
    ensures within { IfOk result (λ owers. AreWithin (length turns.now) owers.items) }
{
    let mut owers = no_owers(alloc, owed.len())?;
    for (turn, number) in turns.iter().enumerate() {
        add_ower(
            turn,
            owed[*number as usize].as_slice(),
            owers.as_mut_slice(),
        )?;
    }
    Ok(owers)
}

fn no_owers(alloc: Global, count: usize) -> Result<Vec<Vec<usize>>, NoMemory>
    ensures count { IfOk result (λ owers. length owers.items ≡ count) }
    ensures within { IfOk result (λ owers. AreWithin 0 owers.items) }
{
    let mut owers = Vec::new(alloc);
    for _made in 0..count {
        owers.push(Vec::new(alloc))?;
    }
    Ok(owers)
}

// Adds a turn to those of the owers of some obligations.
fn add_ower(turn: usize, owed: &[u32], owers: &mut [Vec<usize>]) -> Result<(), NoMemory>
    requires owed { All (λ number. number < length owers.old) owed.now }
    requires within { AreWithin turn owers.old }
    ensures { OnOk result (AreWithin (turn + 1) owers.new) }
{
    for number in owed {
        let of_one = &mut owers[*number as usize];
        of_one.push(turn)?;
    }
    Ok(())
}
