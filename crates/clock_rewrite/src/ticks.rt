ghost use Rattle.std.specs.Prelude.{◌≡◌, IfOk};
ghost use Rattle.psl_tree.specs.Plain.{no_tick, tick_with, at_tick, one_at_tick, now_at_tick, now_strong_at_tick, first_tick, next_at_tick, until_at_tick};
ghost use Rattle.psl_tree.specs.Trees.{boolean_of, sequence_of, formula_of};

use crate::trees::{and, clock_and, next, no, not, now, until};
use psl_base::{NoMemory, boxed};
use psl_tree::{Bool, Fl, Sere};
use std::alloc::Global;

// The rows of the table under a clock. Each copies the clock, and takes its parts as they are.

// No tick yet.
fn no_tick(alloc: Global, clock: &Bool) -> Result<Box<Fl>, NoMemory>
    ensures { IfOk result (λ new. formula_of new.value ≡ no_tick (boolean_of clock.now)) }
{
    now(alloc, no(alloc, clock.copy(alloc)?)?)
}

// A tick on which a Boolean holds.
fn tick_with(alloc: Global, clock: &Bool, test: Bool) -> Result<Box<Fl>, NoMemory>
    ensures { IfOk result (λ new. formula_of new.value ≡ tick_with (boolean_of clock.now) (boolean_of test)) }
{
    now(alloc, clock_and(alloc, clock, test)?)
}

// A tick now, and a formula.
fn at_tick(alloc: Global, clock: &Bool, part: Box<Fl>) -> Result<Box<Fl>, NoMemory>
    ensures { IfOk result (λ new. formula_of new.value ≡ at_tick (boolean_of clock.now) (formula_of part.value)) }
{
    let tick = now(alloc, clock.copy(alloc)?)?;
    and(alloc, tick, part)
}

// The first tick comes, and there the formula.
fn first_tick(alloc: Global, clock: &Bool, part: Box<Fl>) -> Result<Box<Fl>, NoMemory>
    ensures { IfOk result (λ new. formula_of new.value ≡ first_tick (boolean_of clock.now) (formula_of part.value)) }
{
    let waiting = no_tick(alloc, clock)?;
    until(alloc, waiting, at_tick(alloc, clock, part)?)
}

// A Boolean in a sequence: letters without a tick, and then a tick on which it holds.
pub(crate) fn one_at_tick(alloc: Global, clock: &Bool, test: Bool) -> Result<Box<Sere>, NoMemory>
    ensures { IfOk result (λ new. sequence_of new.value ≡ one_at_tick (boolean_of clock.now) (boolean_of test)) }
{
    let no_tick = boxed(alloc, Sere::One(no(alloc, clock.copy(alloc)?)?))?;
    let waiting = boxed(alloc, Sere::Star(no_tick))?;
    let tick = boxed(alloc, Sere::One(clock_and(alloc, clock, test)?))?;
    boxed(alloc, Sere::Concat(waiting, tick))
}

// b: it is not so that the first tick comes without b.
pub(crate) fn now_at_tick(alloc: Global, clock: &Bool, test: Bool) -> Result<Box<Fl>, NoMemory>
    ensures { IfOk result (λ new. formula_of new.value ≡ now_at_tick (boolean_of clock.now) (boolean_of test)) }
{
    let missed = now_strong_at_tick(alloc, clock, no(alloc, test)?)?;
    not(alloc, missed)
}

// b!: the first tick comes, with b.
pub(crate) fn now_strong_at_tick(
    alloc: Global,
    clock: &Bool,
    test: Bool,
) -> Result<Box<Fl>, NoMemory>
    ensures { IfOk result (λ new. formula_of new.value ≡ now_strong_at_tick (boolean_of clock.now) (boolean_of test)) }
{
    let waiting = no_tick(alloc, clock)?;
    until(alloc, waiting, tick_with(alloc, clock, test)?)
}

// X! f: the first tick comes, and after it another, and there f.
pub(crate) fn next_at_tick(alloc: Global, clock: &Bool, part: Box<Fl>) -> Result<Box<Fl>, NoMemory>
    ensures { IfOk result (λ new. formula_of new.value ≡ next_at_tick (boolean_of clock.now) (formula_of part.value)) }
{
    let second = first_tick(alloc, clock, part)?;
    first_tick(alloc, clock, next(alloc, second)?)
}

// f U g: a tick with g comes, and f at each tick before.
pub(crate) fn until_at_tick(
    alloc: Global,
    clock: &Bool,
    left: Box<Fl>,
    right: Box<Fl>,
) -> Result<Box<Fl>, NoMemory>
    ensures { IfOk result (λ new. formula_of new.value ≡ until_at_tick (boolean_of clock.now) (formula_of left.value) (formula_of right.value)) }
{
    let missed = at_tick(alloc, clock, not(alloc, left)?)?;
    let missed_none = not(alloc, missed)?;
    until(alloc, missed_none, at_tick(alloc, clock, right)?)
}
