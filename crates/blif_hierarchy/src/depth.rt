// How deep models are.
ghost use Rattle.std.specs.Prelude.{◌≡◌, ◌<◌, ◌≤◌, suc, nat_le, length, map, All, IfOk, IfNone, slice_index};
ghost use Rattle.std.specs.List.{position_from};
ghost use Rattle.blif_flattening.specs.Hierarchy.{placements_in};
ghost use Rattle.blif_hierarchy.specs.Depth.{largest, depths_after, HasDepths, IsShallow, IsTooDeep};
ghost use Rattle.blif_hierarchy.specs.First.{Finds, IsClosed};

use crate::place::PlacementAt;
use blif_flattening::{DEEPEST, Item, Model};
use psl_base::{Items, NoMemory};
use std::alloc::Global;

/// The first placement of a model that is so deep that no path may lead through it; a model without a placement has
/// depth 1, any other one more than the deepest that it places. It is found also where models contain themselves.
///
/// # Errors
///
/// `NoMemory` if memory is refused.
pub fn first_too_deep<L>(
    alloc: Global,
    models: &Items<Model<L>>,
) -> Result<Option<PlacementAt>, NoMemory>
    requires closed { IsClosed models.now }
    ensures found { IfOk result (λ found. Finds (IsTooDeep models.now) found) }
    // where there is none, no path is too long
    ensures shallow { IfOk result (λ found. IfNone found (IsShallow models.now)) }
{
    let depths = depths_of(alloc, models)?;
    for model in 0..models.len() {
        if let Some(placement) = first_deep(models.at(model).items.as_slice(), &depths) {
            return Ok(Some(PlacementAt { model, placement }));
        }
    }
    Ok(None)
}

// The depth of each model, counted up to `DEEPEST`.
fn depths_of<L>(alloc: Global, models: &Items<Model<L>>) -> Result<Vec<u32>, NoMemory>
    requires closed { IsClosed models.now }
    ensures { IfOk result (λ depths. HasDepths models.now DEEPEST depths.items) }
{
    let mut depths = vec![in alloc; 0u32; models.len()]?;
    for round in 0..DEEPEST {
        depths = deeper(alloc, models, &depths)?;
    }
    Ok(depths)
}

// The depth of each model, by the depths of those that it places.
fn deeper<L>(alloc: Global, models: &Items<Model<L>>, depths: &[u32]) -> Result<Vec<u32>, NoMemory>
    requires few { All (λ depth. depth < DEEPEST) depths.now }
    ensures { IfOk result (λ next. next.items ≡ map (depths_after depths.now) models.now) }
{
    let mut next = Vec::with_capacity(alloc, models.len())?;
    for model in models.as_slice() {
        next.push(deepest(model.items.as_slice(), depths) + 1)?;
    }
    Ok(next)
}

// The largest depth of the models that are placed.
fn deepest<L>(items: &[Item<L>], depths: &[u32]) -> u32
    requires few { All (λ depth. depth < DEEPEST) depths.now }
    ensures is { result ≡ largest (map (λ placement. slice_index depths.now placement.model) (placements_in items.now)) }
    ensures few { result < DEEPEST }
{
    let mut most = 0u32;
    for item in items {
        if let Item::Place(placement) = item {
            most = most.max(number_at(depths, placement.model));
        }
    }
    most
}

// The number of the first placement of a model that is too deep.
fn first_deep<L>(items: &[Item<L>], depths: &[u32]) -> Option<usize>
    ensures { result ≡ position_from (λ placement. nat_le DEEPEST (slice_index depths.now placement.model)) 0 (placements_in items.now) }
{
    let mut number = 0usize;
    for item in items {
        if let Item::Place(placement) = item {
            if number_at(depths, placement.model) >= DEEPEST {
                return Some(number);
            }
            number += 1;
        }
    }
    None
}

// The number at a place of a list, 0 past its end.
fn number_at(numbers: &[u32], place: u32) -> u32
    ensures { result ≡ slice_index numbers.now place }
{
    match numbers.get(place as usize) {
        Some(number) => *number,
        None => 0,
    }
}
