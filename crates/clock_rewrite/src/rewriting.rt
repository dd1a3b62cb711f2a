ghost use Rattle.std.specs.Prelude.{◌≡◌, IfOk};
ghost use Rattle.clock_rewrite.specs.Clock.{clock_of, HasSameWords, KeepsAtoms};
ghost use Rattle.psl_tree.specs.Clockless.{IsPlain};
ghost use Rattle.psl_tree.specs.Plain.{plain, plain_sequence};
ghost use Rattle.psl_tree.specs.Trees.{sequence_of, formula_of};

use crate::rows::{next, now, now_strong, one, stop, until};
use crate::trees::{abort, and, both, concat, either, fuse, not, star, strong, suffix, weak};
use psl_base::{NoMemory, boxed};
use psl_tree::{Bool, Fl, Sere};
use std::alloc::Global;

/// The formula without clocks and synchronous aborts that stands for a formula under a clock, or
/// under none: just the words that satisfy the one satisfy the other (IEEE 1850, Annex B, the clock
/// rewriting rules). Its atoms are atoms of the formula or of the clock.
pub fn unclock(alloc: Global, f: &Fl, clock: Option<&Bool>) -> Result<Fl, NoMemory>
    ensures table { IfOk result (λ new. formula_of new ≡ plain (formula_of f.now) (clock_of clock.entry)) }
    ensures no_clock { IfOk result (λ new. IsPlain (formula_of new)) }
    ensures meaning { IfOk result (λ new. HasSameWords (formula_of new) (formula_of f.now) (clock_of clock.entry)) }
    ensures atoms { IfOk result (λ new. KeepsAtoms (formula_of new) (formula_of f.now) (clock_of clock.entry)) }
{
    let new = rewritten(alloc, f, clock)?;
    Ok(Box::into_inner(new))
}

// The formula by the table.
fn rewritten(alloc: Global, f: &Fl, clock: Option<&Bool>) -> Result<Box<Fl>, NoMemory>
    ensures { IfOk result (λ new. formula_of new.value ≡ plain (formula_of f.now) (clock_of clock.entry)) }
{
    match f {
        Fl::Now(test) => now(alloc, test, clock),
        Fl::NowStrong(test) => now_strong(alloc, test, clock),
        Fl::Weak(sequence) => weak(alloc, rewritten_sequence(alloc, sequence, clock)?),
        Fl::Strong(sequence) => strong(alloc, rewritten_sequence(alloc, sequence, clock)?),
        Fl::Not(part) => not(alloc, rewritten(alloc, part, clock)?),
        Fl::And(left, right) => {
            let left = rewritten(alloc, left, clock)?;
            and(alloc, left, rewritten(alloc, right, clock)?)
        }
        Fl::Next(part) => next(alloc, rewritten(alloc, part, clock)?, clock),
        Fl::Until(left, right) => {
            let left = rewritten(alloc, left, clock)?;
            until(alloc, left, rewritten(alloc, right, clock)?, clock)
        }
        Fl::Suffix(sequence, part) => {
            let part = rewritten(alloc, part, clock)?;
            suffix(alloc, rewritten_sequence(alloc, sequence, clock)?, part)
        }
        Fl::Abort(part, test) => {
            let part = rewritten(alloc, part, clock)?;
            abort(alloc, part, test.copy(alloc)?)
        }
        Fl::SyncAbort(part, test) => {
            let part = rewritten(alloc, part, clock)?;
            abort(alloc, part, stop(alloc, test, clock)?)
        }
        Fl::Clocked(part, inner) => rewritten(alloc, part, Some(inner)),
    }
}

// The sequence by the table.
fn rewritten_sequence(
    alloc: Global,
    sequence: &Sere,
    clock: Option<&Bool>,
) -> Result<Box<Sere>, NoMemory>
    ensures { IfOk result (λ new. sequence_of new.value ≡ plain_sequence (sequence_of sequence.now) (clock_of clock.entry)) }
{
    match sequence {
        Sere::Empty => boxed(alloc, Sere::Empty),
        Sere::One(test) => one(alloc, test, clock),
        Sere::Concat(left, right) => {
            let left = rewritten_sequence(alloc, left, clock)?;
            concat(alloc, left, rewritten_sequence(alloc, right, clock)?)
        }
        Sere::Fuse(left, right) => {
            let left = rewritten_sequence(alloc, left, clock)?;
            fuse(alloc, left, rewritten_sequence(alloc, right, clock)?)
        }
        Sere::Either(left, right) => {
            let left = rewritten_sequence(alloc, left, clock)?;
            either(alloc, left, rewritten_sequence(alloc, right, clock)?)
        }
        Sere::Both(left, right) => {
            let left = rewritten_sequence(alloc, left, clock)?;
            both(alloc, left, rewritten_sequence(alloc, right, clock)?)
        }
        Sere::Star(part) => star(alloc, rewritten_sequence(alloc, part, clock)?),
        Sere::Clocked(part, inner) => rewritten_sequence(alloc, part, Some(inner)),
    }
}
