// What no clause says: that a search succeeds with ample memory, and with what.
ghost use Rattle.std.specs.Prelude.{◌≡◌, ◌<◌, ◌≤◌, length, IfOk, OnOk};
ghost use Rattle.test_reach.specs.Tables.{IsGoing};

use crate::table::Table;
use psl_base::{Bits, Items};
use reach_frames::{Entry, Frames, Step, Stop, frames_law};
use std::alloc::Global;
use std::test::Fail;

// How a search ends, and whether it paused on the way.
#[derive(Clone, Copy, Debug, PartialEq, Eq)]
enum Outcome {
    // An invariant of so many clauses.
    Invariant(usize, bool),
    // A path of so many states.
    Path(usize, bool),
    // Neither, with so many frames.
    Open(usize, bool),
    // Out of memory.
    Stopped,
}

// What one call comes to.
#[derive(Clone, Copy, Debug)]
enum Turn {
    // The search has ended.
    Ended(Outcome),
    // The budget was spent.
    Paused,
    // There is a frame more.
    Opened,
}

// Clears the frames, and opens one more if there may be.
fn turned(
    alloc: Global,
    table: &Table,
    frames: &mut Frames,
    most: u32,
    budget: Option<u64>,
    paused: bool,
) -> Result<Turn, Stop>
    requires few { most ≤ 1000 }
    requires going { IsGoing table.now.start table.now.steps table.now.goal table.now.goal_within most frames.old }
    ensures { OnOk result (IsGoing table.now.start table.now.steps table.now.goal table.now.goal_within most frames.new) }
{
    frames_law(table);
    match frames.clear(alloc, table, most, budget)? {
        Step::Invariant(clauses) => {
            return Ok(Turn::Ended(Outcome::Invariant(clauses.len(), paused)));
        }
        Step::Path(path) => return Ok(Turn::Ended(Outcome::Path(path.len(), paused))),
        Step::Paused => return Ok(Turn::Paused),
        Step::Cleared(_) => {}
    }
    if frames.len() == most as usize {
        return Ok(Turn::Ended(Outcome::Open(frames.len(), paused)));
    }
    frames.open(alloc)?;
    Ok(Turn::Opened)
}

// Clears one frame after another. A budget, where there is one, grows with each pause.
fn searched(alloc: Global, table: &Table, most: u32, budgeted: bool) -> Result<Outcome, Stop>
    requires some { 0 < most }
    requires few { most ≤ 1000 }
{
    frames_law(table);
    let mut frames = Frames::new(alloc);
    let mut paused = false;
    frames.open(alloc)?;
    for turn in 0..1000_u64 {
        let budget = if budgeted { Some(turn) } else { None };
        match turned(alloc, table, &mut frames, most, budget, paused)? {
            Turn::Ended(outcome) => return Ok(outcome),
            Turn::Paused => paused = true,
            Turn::Opened => {}
        }
    }
    Ok(Outcome::Open(frames.len(), paused))
}

// A state of three bits, written as a number.
fn state(alloc: Global, number: u8) -> Result<Bits, Stop>
    ensures { IfOk result (λ bits. length bits ≡ 3) }
{
    let mut bits = Bits::new(alloc);
    bits.push(number & 1 > 0)?;
    bits.push(number & 2 > 0)?;
    bits.push(number & 4 > 0)?;
    Ok(bits)
}

// The table of some steps from the state 0 on. The third bit is the goal.
fn table(alloc: Global, pairs: &[(u8, u8)]) -> Result<Table, Stop> {
    let mut steps = Items::new(alloc);
    for (before, after) in pairs {
        steps.push(Entry {
            before: state(alloc, *before)?,
            after: state(alloc, *after)?,
        })?;
    }
    Ok(Table {
        start: state(alloc, 0)?,
        steps,
        goal: 3,
    })
}

// What a search of so many frames ends in, on a counter that goes back to 0 from a state on.
fn counted(alloc: Global, last: u8, most: u32, budgeted: bool) -> Outcome
    requires some { 0 < most }
    requires few { most ≤ 1000 }
{
    let next = if last == 2 { 0 } else { 3 };
    let pairs = [(0, 1), (1, 2), (2, next), (3, 4), (4, 4)];
    match table(alloc, &pairs) {
        Ok(table) => match searched(alloc, &table, most, budgeted) {
            Ok(outcome) => outcome,
            Err(_) => Outcome::Stopped,
        },
        Err(_) => Outcome::Stopped,
    }
}

#[test]
fn a_counter_that_goes_back_has_an_invariant(rt: HostRuntime) -> Result<(), Fail> {
    assert_eq!(rt;
        counted(rt.alloc(), 2, 9, false),
        Outcome::Invariant(2, false)
    );
    Ok(())
}

#[test]
fn a_counter_that_goes_on_has_a_path(rt: HostRuntime) -> Result<(), Fail> {
    assert_eq!(rt; counted(rt.alloc(), 3, 9, false), Outcome::Path(5, false));
    Ok(())
}

#[test]
fn too_few_frames_stay_open(rt: HostRuntime) -> Result<(), Fail> {
    assert_eq!(rt; counted(rt.alloc(), 3, 2, false), Outcome::Open(2, false));
    Ok(())
}

#[test]
fn a_search_goes_on_after_pauses(rt: HostRuntime) -> Result<(), Fail> {
    assert_eq!(rt; counted(rt.alloc(), 3, 9, true), Outcome::Path(5, true));
    Ok(())
}
