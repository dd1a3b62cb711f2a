ghost use Rattle.std.specs.Prelude.{◌≡◌, IfOk};
ghost use Rattle.clock_rewrite.specs.Clock.{clock_of, next_under, until_under, stop_under};
ghost use Rattle.psl_tree.specs.Plain.{plain, plain_sequence};
ghost use Rattle.psl_tree.specs.Trees.{boolean_of, sequence_of, formula_of, One, Now, NowStrong};

use crate::ticks::{next_at_tick, now_at_tick, now_strong_at_tick, one_at_tick, until_at_tick};
use crate::trees;
use crate::trees::clock_and;
use psl_base::{NoMemory, boxed};
use psl_tree::{Bool, Fl, Sere};
use std::alloc::Global;

// The forms that a clock changes, under a clock or under none.

// A Boolean in a sequence.
pub(crate) fn one(alloc: Global, test: &Bool, clock: Option<&Bool>) -> Result<Box<Sere>, NoMemory>
    ensures { IfOk result (λ new. sequence_of new.value ≡ plain_sequence (One (boolean_of test.now)) (clock_of clock.entry)) }
{
    let test = test.copy(alloc)?;
    match clock {
        Some(clock) => one_at_tick(alloc, clock, test),
        None => boxed(alloc, Sere::One(test)),
    }
}

// b.
pub(crate) fn now(alloc: Global, test: &Bool, clock: Option<&Bool>) -> Result<Box<Fl>, NoMemory>
    ensures { IfOk result (λ new. formula_of new.value ≡ plain (Now (boolean_of test.now)) (clock_of clock.entry)) }
{
    let test = test.copy(alloc)?;
    match clock {
        Some(clock) => now_at_tick(alloc, clock, test),
        None => boxed(alloc, Fl::Now(test)),
    }
}

// b!.
pub(crate) fn now_strong(
    alloc: Global,
    test: &Bool,
    clock: Option<&Bool>,
) -> Result<Box<Fl>, NoMemory>
    ensures { IfOk result (λ new. formula_of new.value ≡ plain (NowStrong (boolean_of test.now)) (clock_of clock.entry)) }
{
    let test = test.copy(alloc)?;
    match clock {
        Some(clock) => now_strong_at_tick(alloc, clock, test),
        None => boxed(alloc, Fl::NowStrong(test)),
    }
}

// X! of a part without clocks.
pub(crate) fn next(alloc: Global, part: Box<Fl>, clock: Option<&Bool>) -> Result<Box<Fl>, NoMemory>
    ensures { IfOk result (λ new. formula_of new.value ≡ next_under (clock_of clock.entry) (formula_of part.value)) }
{
    match clock {
        Some(clock) => next_at_tick(alloc, clock, part),
        None => trees::next(alloc, part),
    }
}

// U of parts without clocks.
pub(crate) fn until(
    alloc: Global,
    left: Box<Fl>,
    right: Box<Fl>,
    clock: Option<&Bool>,
) -> Result<Box<Fl>, NoMemory>
    ensures { IfOk result (λ new. formula_of new.value ≡ until_under (clock_of clock.entry) (formula_of left.value) (formula_of right.value)) }
{
    match clock {
        Some(clock) => until_at_tick(alloc, clock, left, right),
        None => trees::until(alloc, left, right),
    }
}

// Where a synchronous abort stops.
pub(crate) fn stop(alloc: Global, test: &Bool, clock: Option<&Bool>) -> Result<Bool, NoMemory>
    ensures { IfOk result (λ new. boolean_of new ≡ stop_under (clock_of clock.entry) (boolean_of test.now)) }
{
    let test = test.copy(alloc)?;
    match clock {
        Some(clock) => clock_and(alloc, clock, test),
        None => Ok(test),
    }
}
