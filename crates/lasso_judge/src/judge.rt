ghost use Rattle.std.specs.Prelude.{◌↔◌, ◌<◌, None, length, IfOk, IsTrue};
ghost use Rattle.psl_tree.specs.Clockless.{IsPlain};
ghost use Rattle.psl_tree.specs.Satisfaction.{Sat};
ghost use Rattle.psl_tree.specs.Trace.{trace_of};
ghost use Rattle.psl_tree.specs.Trees.{formula_of};
ghost use Rattle.lasso_judge.specs.Limits.{HasSmallSequences};
ghost use Rattle.lasso_tables.specs.Seen.{course_by, IsWhole};
ghost use Rattle.lasso_tables.specs.Tables.{Tells};

use crate::abort::stopped_course;
use crate::sequences::{strong, suffix, weak};
use crate::until::reached;
use lasso_tables::{after_step, both, held, next_places, opposites};
use psl_base::NoMemory;
use psl_tree::{Fl, Word};
use std::alloc::Global;

/// Whether a word with a loop satisfies a formula without clocks (IEEE 1850, Annex B, satisfaction
/// without a clock). Each constructor of the formula takes time by the places of the word, and a sequence
/// by these and the edges of its automaton.
pub fn satisfies(alloc: Global, f: &Fl, word: &Word) -> Result<bool, NoMemory>
    requires looped { 0 < length word.now.looped }
    requires plain { IsPlain (formula_of f.now) }
    requires sequences { HasSmallSequences (formula_of f.now) }
    ensures { IfOk result (λ yes. IsTrue yes ↔ Sat (trace_of word.now) (formula_of f.now) None) }
{
    let next = next_places(alloc, word)?;
    let values = table(alloc, f, word, &next, false)?;
    Ok(values[0])
}

/// At which places of the word, or of its dual, a formula is satisfied. A list has the next place of each.
fn table(
    alloc: Global,
    f: &Fl,
    word: &Word,
    next: &[usize],
    flipped: bool,
) -> Result<Vec<bool>, NoMemory>
    requires plain { IsPlain (formula_of f.now) }
    requires sequences { HasSmallSequences (formula_of f.now) }
    requires whole { IsWhole word.now next.now }
    ensures { IfOk result (λ values.
        Tells (course_by word.now flipped next.now) (length next.now) (formula_of f.now) values.items) }
{
    match f {
        Fl::Now(test) | Fl::NowStrong(test) => {
            let values = held(alloc, test, word, next.len(), flipped)?;
            Ok(values)
        }
        Fl::Weak(r) => weak(alloc, r, word, next, flipped),
        Fl::Strong(r) => strong(alloc, r, word, next, flipped),
        Fl::Not(part) => {
            let part = table(alloc, part, word, next, !flipped)?;
            let values = opposites(alloc, &part)?;
            Ok(values)
        }
        Fl::And(left, right) => {
            let left = table(alloc, left, word, next, flipped)?;
            let right = table(alloc, right, word, next, flipped)?;
            let values = both(alloc, &left, &right)?;
            Ok(values)
        }
        Fl::Next(part) => {
            let part = table(alloc, part, word, next, flipped)?;
            let values = after_step(alloc, &part, next)?;
            Ok(values)
        }
        Fl::Until(left, right) => {
            let left = table(alloc, left, word, next, flipped)?;
            let right = table(alloc, right, word, next, flipped)?;
            Ok(reached(&left, right, next))
        }
        Fl::Suffix(r, part) => {
            let part = table(alloc, part, word, next, flipped)?;
            suffix(alloc, r, &part, word, next, flipped)
        }
        Fl::Abort(part, test) => {
            let stopped = stopped_course(alloc, test, word, next, flipped)?;
            let part = table(alloc, part, word, stopped.next.as_slice(), flipped)?;
            let values = stopped.values(alloc, &part)?;
            Ok(values)
        }
        Fl::SyncAbort(_, _) | Fl::Clocked(_, _) => unreachable!(),
    }
}
