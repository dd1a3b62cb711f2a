// Models that contain themselves.
ghost use Rattle.std.specs.Prelude.{◌≡◌, ℕ, ◌+◌, ◌<◌, ◌≤◌, ◌^◌, ◌↔◌, List, length, map, take, All, IfOk, IfSome, IsTrue, Some, None, slice_index_or, slice_set};
ghost use Rattle.blif_flattening.specs.Hierarchy.{placements_in};
ghost use Rattle.netlist_order.specs.Graph.{Depends, IsFirstOnCycle};
ghost use Rattle.netlist_order.specs.Wires.{graph_of};
ghost use Rattle.blif_hierarchy.specs.First.{Finds, IsClosed};
ghost use Rattle.blif_hierarchy.specs.Order.{placed_by, IsRecursive};
ghost use Rattle.blif_hierarchy.specs.Recursion.{IsItself, ComesBack, IsLeast};

use crate::place::PlacementAt;
use blif_flattening::{Item, Model};
use netlist_order::{Wiring, order_of};
use psl_base::{Items, NoMemory, Numbers};
use std::alloc::Global;

/// The first placement of a model that contains the one in which it stands, at any depth, or is that one.
///
/// # Errors
///
/// `NoMemory` if memory is refused.
pub fn first_recursive<L>(
    alloc: Global,
    models: &Items<Model<L>>,
) -> Result<Option<PlacementAt>, NoMemory>
    requires closed { IsClosed models.now }
    requires few { length models.now < 2 ^ 32 }
    ensures { IfOk result (λ found. Finds (IsRecursive models.now) found) }
{
    let placed = placed_lists(alloc, models)?;
    let drivers = each_itself(alloc, placed.len())?;
    let mut lists = lists_of(alloc, &placed)?;
    let wiring = Wiring::new(lists.as_slice(), drivers.as_slice());
    let Err(model) = order_of(alloc, &wiring)? else {
        return Ok(None);
    };
    let model = model as usize;
    let placement = first_back(alloc, &mut lists, &drivers, model)?;
    Ok(Some(PlacementAt { model, placement }))
}

// Of the models that a model on a cycle places, the first that leads back to it: the number of models before it. The
// fewer of them are kept, the fewer chains there are, so it is searched by halves.
fn first_back<'a>(
    alloc: Global,
    lists: &mut Vec<&'a [u32]>,
    drivers: &[Option<u32>],
    model: usize,
) -> Result<usize, NoMemory>
    requires tables { All (λ driver. IfSome driver (λ table. table < length lists.old.items)) drivers.now }
    requires few { length lists.old.items < 2 ^ 32 }
    requires first { IsFirstOnCycle (graph_of (map (λ list. list.now) lists.old.items) drivers.now) model }
    ensures { IfOk result (λ place. IsLeast (map (λ list. list.now) lists.old.items) drivers.now model place) }
{
    let all = lists[model];
    let mut low = 0usize;
    let mut high = all.len();
    while low + 1 < high {
        let middle = low + (high - low) / 2;
        lists[model] = &all[..middle];
        if comes_back(alloc, lists, drivers, model)? {
            high = middle;
        } else {
            low = middle;
        }
    }
    Ok(low)
}

// Whether a model depends on itself, where no earlier one does.
fn comes_back(
    alloc: Global,
    lists: &[&[u32]],
    drivers: &[Option<u32>],
    model: usize,
) -> Result<bool, NoMemory>
    requires tables { All (λ driver. IfSome driver (λ table. table < length lists.now)) drivers.now }
    requires few { length lists.now < 2 ^ 32 }
    requires first { (earlier : ℕ) → earlier < model
        → Depends (graph_of (map (λ list. list.now) lists.now) drivers.now) earlier earlier → ⊥ }
    ensures { IfOk result (λ back. ComesBack (map (λ list. list.now) lists.now) drivers.now model back) }
{
    let wiring = Wiring::new(lists, drivers);
    let Err(table) = order_of(alloc, &wiring)? else {
        return Ok(false);
    };
    Ok(table as usize == model)
}

// The models that each model places.
fn placed_lists<L>(alloc: Global, models: &Items<Model<L>>) -> Result<Vec<Numbers>, NoMemory>
    ensures { IfOk result (λ lists. lists.items ≡ map placed_by models.now) }
{
    let mut lists = Vec::with_capacity(alloc, models.len())?;
    for model in models.as_slice() {
        lists.push(placed_in(alloc, model.items.as_slice())?)?;
    }
    Ok(lists)
}

// The models that are placed.
fn placed_in<L>(alloc: Global, items: &[Item<L>]) -> Result<Numbers, NoMemory>
    ensures { IfOk result (λ placed. placed ≡ map (λ placement. placement.model) (placements_in items.now)) }
{
    let mut placed = Items::new(alloc);
    for item in items {
        if let Item::Place(placement) = item {
            placed.push(placement.model)?;
        }
    }
    Ok(placed)
}

// The lists as slices.
fn lists_of<'a>(alloc: Global, placed: &'a [Numbers]) -> Result<Vec<&'a [u32]>, NoMemory>
    ensures { IfOk result (λ lists. map (λ list. list.now) lists.items ≡ placed.now) }
{
    let mut lists = Vec::with_capacity(alloc, placed.len())?;
    for list in placed {
        lists.push(list.as_slice())?;
    }
    Ok(lists)
}

// Of each of so many numbers, itself.
fn each_itself(alloc: Global, count: usize) -> Result<Vec<Option<u32>>, NoMemory>
    requires few { count < 2 ^ 32 }
    ensures { IfOk result (λ numbers. IsItself count numbers.items) }
{
    let mut numbers = Vec::with_capacity(alloc, count)?;
    for number in 0..count {
        numbers.push(Some(number as u32))?;
    }
    Ok(numbers)
}
