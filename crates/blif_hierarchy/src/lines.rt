// How long the lines of all instances are, by what models place alone.
ghost use Rattle.std.specs.Prelude.{◌≡◌, ◌+◌, ◌-◌, ◌<◌, ◌^◌, min, map, fold, IfOk, slice_index};
ghost use Rattle.blif_flattening.specs.Hierarchy.{placements_in};
ghost use Rattle.blif_hierarchy.specs.Sums.{bytes_after, line_bytes, long_from, with_lines, FindsLong, HasBytes};

use crate::cost::{Scale, line_bytes, number_at};
use blif_flattening::{DEEPEST, Item, Model, Placement};
use psl_base::{Items, NoMemory};
use std::alloc::Global;

/// The number of the first placement of the top, counted from 0, with which the lines of all instances have more bytes
/// together than `scale.size`. The sum begins with the lines of the top; signals, instances and names are not counted.
///
/// # Errors
///
/// `NoMemory` if memory is refused.
pub fn first_too_long<L>(
    alloc: Global,
    models: &Items<Model<L>>,
    scale: &Scale,
) -> Result<Option<usize>, NoMemory>
    requires { scale.now.size + 1 < 2 ^ 32 }
    ensures { IfOk result (λ found. FindsLong models.now scale.now found) }
{
    let below = bytes_of(alloc, models, scale)?;
    match models.as_slice().get(0) {
        Some(top) => {
            let start = line_bytes(scale, 0).min(scale.size + 1);
            Ok(first_long(&below, scale, start, top.items.as_slice()))
        }
        None => Ok(None),
    }
}

// What is below an instance of each model, as deep as a path may lead from a placement of the top.
fn bytes_of<L>(alloc: Global, models: &Items<Model<L>>, scale: &Scale) -> Result<Vec<u32>, NoMemory>
    requires { scale.now.size + 1 < 2 ^ 32 }
    ensures { IfOk result (λ below. HasBytes models.now scale.now (DEEPEST - 1) below.items) }
{
    let mut below = Vec::new(alloc);
    for round in 0..DEEPEST - 1 {
        let next = bytes_after(alloc, models, scale, &below)?;
        // where a round changes nothing, no later one does
        if next.as_slice() == below.as_slice() {
            return Ok(next);
        }
        below = next;
    }
    Ok(below)
}

// What is below each model, by what is below those that it places.
fn bytes_after<L>(
    alloc: Global,
    models: &Items<Model<L>>,
    scale: &Scale,
    below: &[u32],
) -> Result<Vec<u32>, NoMemory>
    requires { scale.now.size + 1 < 2 ^ 32 }
    ensures { IfOk result (λ next. next.items ≡ map (bytes_after scale.now below.now) models.now) }
{
    let mut next = Vec::with_capacity(alloc, models.len())?;
    for model in models.as_slice() {
        next.push(bytes_in(scale, below, model.items.as_slice()))?;
    }
    Ok(next)
}

// What the placements of a model make.
fn bytes_in<L>(scale: &Scale, below: &[u32], items: &[Item<L>]) -> u32
    requires { scale.now.size + 1 < 2 ^ 32 }
    ensures { result ≡ fold (with_lines scale.now below.now) 0 (placements_in items.now) }
{
    let mut sum = 0u32;
    for item in items {
        if let Item::Place(placement) = item {
            sum = with_lines(scale, below, sum, placement);
        }
    }
    sum
}

// The number of the first placement with which the limit is passed.
fn first_long<L>(below: &[u32], scale: &Scale, start: u32, items: &[Item<L>]) -> Option<usize>
    requires { scale.now.size + 1 < 2 ^ 32 }
    ensures { result ≡ long_from scale.now below.now start 0 (placements_in items.now) }
{
    let mut number = 0usize;
    let mut sum = start;
    for item in items {
        if let Item::Place(placement) = item {
            sum = with_lines(scale, below, sum, placement);
            if sum > scale.size {
                return Some(number);
            }
            number += 1;
        }
    }
    None
}

// A sum with one placement more, counted up to one more than is allowed.
fn with_lines(scale: &Scale, below: &[u32], sum: u32, placement: &Placement) -> u32
    requires { scale.now.size + 1 < 2 ^ 32 }
    ensures { result ≡ with_lines scale.now below.now sum placement.now }
{
    let lines = line_bytes(scale, placement.model);
    let inside = number_at(below, placement.model as usize);
    let all = u64::from(sum) + u64::from(lines) + u64::from(inside);
    all.min(u64::from(scale.size) + 1) as u32
}
