ghost use Rattle.std.specs.Prelude.{◌≡◌, ◌+◌, ◌*◌, ◌^◌, ◌<◌, length, IfOk};
ghost use Rattle.psl_tree.specs.Trees.{boolean_of};
ghost use Rattle.psl_tree.specs.SequenceConstruction.{empty_part, one_part, concat_part, fuse_part, either_part, both_part, star_part};
ghost use Rattle.sere_nfa.specs.Views.{part_of_code, PartWithin};

use crate::Few;
use crate::edge::{NfaEdge, add_copies};
use crate::product::Product;
use crate::state::{State, add_states, either_of, fuse_all, join_all};
use psl_base::{NoMemory, boxed};
use psl_tree::Bool;
use std::alloc::Global;

/// An automaton in the making. Its start has no number, and its states count on from an offset.
#[derive(Debug, Drop)]
pub(crate) struct Part {
    pub(crate) start: State,
    pub(crate) states: Vec<State>,
}

// Parts are made in boxes, by functions of their own, so that a level of a deep sequence takes little of
// the stack.

/// The part of the empty sequence.
#[inline(never)]
pub(crate) fn empty(alloc: Global) -> Result<Box<Part>, NoMemory>
    ensures { IfOk result (λ part. part_of_code part.value ≡ empty_part) }
{
    let start = State {
        is_final: true,
        edges: Few::new(alloc),
        ending: None,
    };
    let states = Vec::new(alloc);
    boxed(alloc, Part { start, states })
}

/// The part of a Boolean: one state, at the offset.
#[inline(never)]
pub(crate) fn one(alloc: Global, offset: u32, test: &Bool) -> Result<Box<Part>, NoMemory>
    ensures { IfOk result (λ part. part_of_code part.value ≡ one_part offset (boolean_of test.now)) }
{
    let part = one_state(alloc, offset, test)?;
    boxed(alloc, part)
}

fn one_state(alloc: Global, offset: u32, test: &Bool) -> Result<Part, NoMemory>
    ensures { IfOk result (λ part. part_of_code part ≡ one_part offset (boolean_of test.now)) }
{
    let mut edges = Few::new(alloc);
    let label = test.copy(alloc)?;
    edges.push(NfaEdge {
        label,
        target: offset,
    })?;
    let last = State {
        is_final: true,
        edges: Few::new(alloc),
        ending: None,
    };
    let mut states = Vec::new(alloc);
    states.push(last)?;
    Ok(Part {
        start: State {
            is_final: false,
            edges,
            ending: Some(test.copy(alloc)?),
        },
        states,
    })
}

/// The part of a concatenation. The states of the second part follow those of the first.
#[inline(never)]
pub(crate) fn concat(
    alloc: Global,
    left: Box<Part>,
    right: Box<Part>,
) -> Result<Box<Part>, NoMemory>
    ensures { IfOk result (λ part. part_of_code part.value ≡ concat_part (part_of_code left.value) (part_of_code right.value)) }
{
    let new = concatenated(alloc, Box::into_inner(left), Box::into_inner(right))?;
    boxed(alloc, new)
}

fn concatenated(alloc: Global, left: Part, right: Part) -> Result<Part, NoMemory>
    ensures { IfOk result (λ part. part_of_code part ≡ concat_part (part_of_code left) (part_of_code right)) }
{
    let Part {
        mut start,
        mut states,
    } = left;
    let Part {
        start: next,
        states: rest,
    } = right;
    start.join(alloc, &next)?;
    join_all(alloc, states.as_mut_slice(), &next)?;
    add_states(&mut states, rest)?;
    Ok(Part { start, states })
}

/// The part of a fusion. The states of the second part follow those of the first.
#[inline(never)]
pub(crate) fn fuse(alloc: Global, left: Box<Part>, right: Box<Part>) -> Result<Box<Part>, NoMemory>
    ensures { IfOk result (λ part. part_of_code part.value ≡ fuse_part (part_of_code left.value) (part_of_code right.value)) }
{
    let new = fused(alloc, Box::into_inner(left), Box::into_inner(right))?;
    boxed(alloc, new)
}

fn fused(alloc: Global, left: Part, right: Part) -> Result<Part, NoMemory>
    ensures { IfOk result (λ part. part_of_code part ≡ fuse_part (part_of_code left) (part_of_code right)) }
{
    let Part {
        mut start,
        mut states,
    } = left;
    let Part {
        start: next,
        states: rest,
    } = right;
    start.fuse(alloc, &next)?;
    fuse_all(alloc, states.as_mut_slice(), &next)?;
    add_states(&mut states, rest)?;
    Ok(Part { start, states })
}

/// The part of a choice. The states of the second part follow those of the first.
#[inline(never)]
pub(crate) fn either(
    alloc: Global,
    left: Box<Part>,
    right: Box<Part>,
) -> Result<Box<Part>, NoMemory>
    ensures { IfOk result (λ part. part_of_code part.value ≡ either_part (part_of_code left.value) (part_of_code right.value)) }
{
    let Part {
        mut start,
        mut states,
    } = Box::into_inner(left);
    let Part {
        start: other,
        states: rest,
    } = Box::into_inner(right);
    start.is_final = start.is_final || other.is_final;
    start.ending = either_of(alloc, start.ending.take(), &other.ending)?;
    add_copies(alloc, other.edges.as_slice(), &mut start.edges)?;
    add_states(&mut states, rest)?;
    boxed(alloc, Part { start, states })
}

/// The part of both sequences at once, from the offset on. The states of both parts count from 0.
#[inline(never)]
pub(crate) fn both(
    alloc: Global,
    offset: u32,
    left: &Part,
    right: &Part,
) -> Result<Box<Part>, NoMemory>
    requires left_within { PartWithin 0 (length left.now.states.items) left.now }
    requires right_within { PartWithin 0 (length right.now.states.items) right.now }
    requires room { offset + length left.now.states.items * length right.now.states.items < 2 ^ 32 }
    requires left_room { length left.now.states.items < 2 ^ 32 }
    requires right_room { length right.now.states.items < 2 ^ 32 }
    ensures { IfOk result (λ part. part_of_code part.value ≡ both_part offset (part_of_code left.now) (part_of_code right.now)) }
{
    let product = Product {
        alloc,
        offset,
        height: left.states.len() as u32,
        width: right.states.len() as u32,
    };
    let start = product.pair(&left.start, &right.start)?;
    let states = product.pair_all(left.states.as_slice(), right.states.as_slice())?;
    boxed(alloc, Part { start, states })
}

/// The part of a repetition.
#[inline(never)]
pub(crate) fn star(alloc: Global, part: Box<Part>) -> Result<Box<Part>, NoMemory>
    ensures { IfOk result (λ new. part_of_code new.value ≡ star_part (part_of_code part.value)) }
{
    let new = repeated(alloc, Box::into_inner(part))?;
    boxed(alloc, new)
}

fn repeated(alloc: Global, part: Part) -> Result<Part, NoMemory>
    ensures { IfOk result (λ new. part_of_code new ≡ star_part (part_of_code part)) }
{
    let Part {
        mut start,
        mut states,
    } = part;
    start.is_final = true;
    join_all(alloc, states.as_mut_slice(), &start)?;
    Ok(Part { start, states })
}
