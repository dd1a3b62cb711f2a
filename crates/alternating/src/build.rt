ghost use Rattle.std.specs.Prelude.{◌≡◌, ◌+◌, ◌-◌, ◌^◌, ◌<◌, ◌≤◌, length, IfOk};
ghost use Rattle.psl_tree.specs.Clockless.{IsPlain, HasNoClock};
ghost use Rattle.psl_tree.specs.Counts.{obligations_of, states_of};
ghost use Rattle.psl_tree.specs.Trees.{boolean_of, formula_of, sequence_of};
ghost use Rattle.psl_tree.specs.declared.counts.TheConstants.{MOST_STATES};
ghost use Rattle.psl_tree.specs.SequenceAutomata.{IsSound};
ghost use Rattle.psl_tree.specs.SequenceConstruction.{nfa_of};
ghost use Rattle.alternating_theory.specs.Construction.{abort_part, part_of, prefix_part, suffix_part};
ghost use Rattle.alternating.specs.Limits.{HasLargeSequence};
ghost use Rattle.alternating.specs.Parts.{part_of_code, PartWithin};

use crate::abort::abort;
use crate::part::{Part, and, next, not, now, until};
use crate::prefix::prefix;
use crate::stage::{Stage, going_on};
use crate::suffix::suffix;
use psl_base::{NoMemory, boxed};
use psl_tree::{Bool, Fl, Sere};
use sere_nfa::{Nfa, NfaFault};
use std::alloc::Global;

/// The part of a formula, with obligations from the offset on.
pub(crate) fn build(alloc: Global, offset: u32, f: &Fl) -> Result<Part, NoMemory>
    requires plain { IsPlain (formula_of f.now) }
    requires small { HasLargeSequence (formula_of f.now) → ⊥ }
    requires room { offset + obligations_of (formula_of f.now) < 2 ^ 32 }
    ensures construction { IfOk result (λ part. part_of_code part ≡ part_of offset (formula_of f.now)) }
    ensures within { IfOk result (λ part. PartWithin offset (offset + length part.rest.items) part) }
    ensures count { IfOk result (λ part. length part.rest.items < obligations_of (formula_of f.now)) }
{
    let part = boxed_build(alloc, offset, f)?;
    Ok(Box::into_inner(part))
}

// The same in a box.
#[cycle(build)]
fn boxed_build(alloc: Global, offset: u32, f: &Fl) -> Result<Box<Part>, NoMemory>
    requires plain { IsPlain (formula_of f.now) }
    requires small { HasLargeSequence (formula_of f.now) → ⊥ }
    requires room { offset + obligations_of (formula_of f.now) < 2 ^ 32 }
    ensures construction { IfOk result (λ part. part_of_code part.value ≡ part_of offset (formula_of f.now)) }
    ensures within { IfOk result (λ part. PartWithin offset (offset + length part.value.rest.items) part.value) }
    ensures count { IfOk result (λ part. length part.value.rest.items < obligations_of (formula_of f.now)) }
{
    build_form(alloc, offset, f)
}

// The part by the form of the formula.
#[cycle(build)]
fn build_form(alloc: Global, offset: u32, f: &Fl) -> Result<Box<Part>, NoMemory>
    requires plain { IsPlain (formula_of f.now) }
    requires small { HasLargeSequence (formula_of f.now) → ⊥ }
    requires room { offset + obligations_of (formula_of f.now) < 2 ^ 32 }
    ensures { IfOk result (λ part. part_of_code part.value ≡ part_of offset (formula_of f.now)) }
{
    match f {
        Fl::Now(test) => now(alloc, true, test),
        Fl::NowStrong(test) => now(alloc, false, test),
        Fl::Weak(sequence) => prefix_of(alloc, offset, true, sequence),
        Fl::Strong(sequence) => prefix_of(alloc, offset, false, sequence),
        Fl::Not(part) => {
            let part = boxed_build(alloc, offset, part)?;
            Ok(not(part))
        }
        Fl::And(left, right) => {
            let left = boxed_build(alloc, offset, left)?;
            let right = boxed_build(alloc, end(offset, &left), right)?;
            and(alloc, left, right)
        }
        Fl::Next(part) => next(alloc, offset, boxed_build(alloc, offset, part)?),
        Fl::Until(left, right) => {
            let left = boxed_build(alloc, offset, left)?;
            let right = boxed_build(alloc, end(offset, &left), right)?;
            until(alloc, offset, left, right)
        }
        Fl::Suffix(sequence, part) => {
            let part = boxed_build(alloc, offset, part)?;
            suffix_of(alloc, offset, sequence, part)
        }
        Fl::Abort(part, test) => abort_of(alloc, boxed_build(alloc, offset, part)?, test),
        Fl::SyncAbort(_, _) | Fl::Clocked(_, _) => unreachable!(),
    }
}

// The number after those of a part's obligations.
fn end(offset: u32, part: &Part) -> u32
    requires { offset + length part.now.rest.items < 2 ^ 32 }
    ensures { result ≡ offset + length part.now.rest.items }
{
    offset + part.rest.len() as u32
}

// The part of a sequence of which a prefix must be read.
#[inline(never)]
fn prefix_of(alloc: Global, offset: u32, end: bool, sequence: &Sere) -> Result<Box<Part>, NoMemory>
    requires plain { HasNoClock (sequence_of sequence.now) }
    requires small { states_of (sequence_of sequence.now) ≤ MOST_STATES }
    requires room { offset + states_of (sequence_of sequence.now) < 2 ^ 32 }
    ensures { IfOk result (λ part. part_of_code part.value ≡ prefix_part offset end (nfa_of (sequence_of sequence.now))) }
{
    let nfa = nfa(alloc, sequence)?;
    let ongoing = going_on(alloc, &nfa)?;
    let stage = Stage {
        nfa: &nfa,
        ongoing: ongoing.as_slice(),
        offset,
    };
    let part = prefix(alloc, &stage, end)?;
    boxed(alloc, part)
}

// The part that each prefix of a sequence is followed by.
#[inline(never)]
fn suffix_of(
    alloc: Global,
    offset: u32,
    sequence: &Sere,
    part: Box<Part>,
) -> Result<Box<Part>, NoMemory>
    requires plain { HasNoClock (sequence_of sequence.now) }
    requires small { states_of (sequence_of sequence.now) ≤ MOST_STATES }
    requires room { offset + length part.value.rest.items + states_of (sequence_of sequence.now) < 2 ^ 32 }
    ensures { IfOk result (λ new. part_of_code new.value ≡ suffix_part offset (nfa_of (sequence_of sequence.now)) (part_of_code part.value)) }
{
    let nfa = nfa(alloc, sequence)?;
    let ongoing = going_on(alloc, &nfa)?;
    let part = Box::into_inner(part);
    let new = suffix(alloc, &nfa, ongoing.as_slice(), offset, part)?;
    boxed(alloc, new)
}

// The part that may be aborted where the Boolean holds.
#[inline(never)]
fn abort_of(alloc: Global, part: Box<Part>, test: &Bool) -> Result<Box<Part>, NoMemory>
    requires within { PartWithin 0 (2 ^ 32 - length part.value.rest.items) part.value }
    requires room { length part.value.rest.items < 2 ^ 32 }
    ensures { IfOk result (λ new. part_of_code new.value ≡ abort_part (boolean_of test.now) (part_of_code part.value)) }
{
    let new = abort(alloc, Box::into_inner(part), test)?;
    boxed(alloc, new)
}

// The automaton of a sequence that is not too large.
fn nfa(alloc: Global, sequence: &Sere) -> Result<Nfa, NoMemory>
    requires plain { HasNoClock (sequence_of sequence.now) }
    requires small { states_of (sequence_of sequence.now) ≤ MOST_STATES }
    ensures built { IfOk result (λ nfa. nfa ≡ nfa_of (sequence_of sequence.now)) }
    ensures sound { IfOk result (λ nfa. IsSound nfa) }
    ensures size { IfOk result (λ nfa. length nfa.states ≤ states_of (sequence_of sequence.now)) }
    ensures one_initial { IfOk result (λ nfa. length nfa.initial ≡ 1) }
{
    match sere_nfa::of(alloc, sequence) {
        Ok(nfa) => Ok(nfa),
        Err(NfaFault::NoMemory) => Err(NoMemory),
        Err(NfaFault::SereTooLarge) => unreachable!(),
    }
}
