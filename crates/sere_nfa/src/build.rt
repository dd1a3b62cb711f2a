ghost use Rattle.std.specs.Prelude.{◌≡◌, ◌+◌, ◌^◌, ◌<◌, length, IfOk};
ghost use Rattle.psl_tree.specs.Counts.{states_of};
ghost use Rattle.psl_tree.specs.Trees.{sequence_of};
ghost use Rattle.psl_tree.specs.Clockless.{HasNoClock};
ghost use Rattle.psl_tree.specs.SequenceConstruction.{part_of};
ghost use Rattle.sere_nfa.specs.Views.{part_of_code, PartWithin};

use crate::part::{Part, both, concat, either, empty, fuse, one, star};
use psl_base::NoMemory;
use psl_tree::Sere;
use std::alloc::Global;

/// The part of a sequence, with states from the offset on.
pub(crate) fn build(alloc: Global, offset: u32, sequence: &Sere) -> Result<Part, NoMemory>
    requires no_clock { HasNoClock (sequence_of sequence.now) }
    requires room { offset + states_of (sequence_of sequence.now) < 2 ^ 32 }
    ensures construction { IfOk result (λ part. part_of_code part ≡ part_of offset (sequence_of sequence.now)) }
    ensures within { IfOk result (λ part. PartWithin offset (offset + length part.states.items) part) }
    ensures count { IfOk result (λ part. length part.states.items < states_of (sequence_of sequence.now)) }
{
    let part = boxed_build(alloc, offset, sequence)?;
    Ok(Box::into_inner(part))
}

// The same in a box.
#[cycle(build)]
fn boxed_build(alloc: Global, offset: u32, sequence: &Sere) -> Result<Box<Part>, NoMemory>
    requires no_clock { HasNoClock (sequence_of sequence.now) }
    requires room { offset + states_of (sequence_of sequence.now) < 2 ^ 32 }
    ensures construction { IfOk result (λ part. part_of_code part.value ≡ part_of offset (sequence_of sequence.now)) }
    ensures within { IfOk result (λ part. PartWithin offset (offset + length part.value.states.items) part.value) }
    ensures count { IfOk result (λ part. length part.value.states.items < states_of (sequence_of sequence.now)) }
{
    build_form(alloc, offset, sequence)
}

// The part by the form of the sequence.
#[cycle(build)]
fn build_form(alloc: Global, offset: u32, sequence: &Sere) -> Result<Box<Part>, NoMemory>
    requires no_clock { HasNoClock (sequence_of sequence.now) }
    requires room { offset + states_of (sequence_of sequence.now) < 2 ^ 32 }
    ensures { IfOk result (λ part. part_of_code part.value ≡ part_of offset (sequence_of sequence.now)) }
{
    match sequence {
        Sere::Empty => empty(alloc),
        Sere::One(test) => one(alloc, offset, test),
        Sere::Concat(left, right) => {
            let left = boxed_build(alloc, offset, left)?;
            let right = boxed_build(alloc, end(offset, &left), right)?;
            concat(alloc, left, right)
        }
        Sere::Fuse(left, right) => {
            let left = boxed_build(alloc, offset, left)?;
            let right = boxed_build(alloc, end(offset, &left), right)?;
            fuse(alloc, left, right)
        }
        Sere::Either(left, right) => {
            let left = boxed_build(alloc, offset, left)?;
            let right = boxed_build(alloc, end(offset, &left), right)?;
            either(alloc, left, right)
        }
        Sere::Both(left, right) => {
            let left = boxed_build(alloc, 0, left)?;
            let right = boxed_build(alloc, 0, right)?;
            both(alloc, offset, &left, &right)
        }
        // A repetition repeated is the repetition, and a second round would only double its edges.
        Sere::Star(part) => match **part {
            Sere::Star(_) => boxed_build(alloc, offset, part),
            _ => star(alloc, boxed_build(alloc, offset, part)?),
        },
        Sere::Clocked(_, _) => unreachable!(),
    }
}

// The number after those of a part's states.
fn end(offset: u32, part: &Part) -> u32
    requires { offset + length part.now.states.items < 2 ^ 32 }
    ensures { result ≡ offset + length part.now.states.items }
{
    offset + part.states.len() as u32
}
