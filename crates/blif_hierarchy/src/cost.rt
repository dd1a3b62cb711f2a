// How large a hierarchy is, before it is flattened.
ghost use Rattle.std.specs.Prelude.{◌≡◌, ◌+◌, ◌-◌, ◌<◌, ◌≤◌, ◌^◌, length, map, fold, IfOk, IfNone, slice_index, slice_index_or};
ghost use Rattle.blif_flattening.specs.Hierarchy.{placements_in};
ghost use Rattle.blif_flattening.specs.Instances.{names_of};
ghost use Rattle.blif_hierarchy.specs.First.{IsClosed};
ghost use Rattle.blif_hierarchy.specs.Sums.{no_cost, capped, with_placement, cost_after, cost_alone, past_from, is_over};
ghost use Rattle.blif_hierarchy.specs.Sums.{HasCosts, AreInForm, FindsPast, FitsWords, instance_size, line_bytes, signal_count};

use blif_flattening::{DEEPEST, Item, Model, Placement};
use psl_base::{Items, NoMemory, Numbers};
use std::alloc::Global;

/// How much a name of an instance takes besides the lines, in bytes: about what a program keeps of it.
pub const NAME_SIZE: u32 = 64;

/// How large a hierarchy may be, and where the lines of its models stand in their text.
#[derive(Drop)]
pub struct Scale {
    /// How many signals there may be, and how many instances.
    pub count: u32,
    /// How many bytes the lines of all instances may have together, with `NAME_SIZE` more for each name of each instance.
    pub size: u32,
    /// How many bytes of the text stand before the lines of each model, and then before the end of the last one's.
    pub starts: Numbers,
}

// What is below an instance, each number counted up to one more than is allowed.
#[derive(Clone, Copy)]
pub(crate) struct Cost {
    // The signals that are no formals of the instances there with a connection.
    pub(crate) signals: u32,
    // The instances.
    pub(crate) instances: u32,
    // What their lines and names take.
    pub(crate) size: u32,
}

/// The number of the first placement of the top, counted from 0, with which a limit is passed: there are more signals or
/// more instances, or their lines and names take more. The sums begin with the names and lines of the top, and with no
/// instance.
///
/// # Errors
///
/// `NoMemory` if memory is refused.
pub fn first_too_large<L>(
    alloc: Global,
    models: &Items<Model<L>>,
    scale: &Scale,
) -> Result<Option<usize>, NoMemory>
    requires closed { IsClosed models.now }
    requires form { AreInForm models.now }
    requires words { FitsWords scale.now }
    ensures found { IfOk result (λ found. FindsPast models.now scale.now found) }
    // where there is none, and the top has no more names, a hierarchy has no more signals
    ensures few { names_of models.now 0 ≤ scale.now.count
        → IfOk result (λ found. IfNone found (signal_count models.now ≤ scale.now.count)) }
{
    let costs = costs_of(alloc, models, scale)?;
    match models.as_slice().get(0) {
        Some(top) => {
            let start = cost_alone(models, scale);
            Ok(first_past(models, &costs, scale, start, top.items.as_slice()))
        }
        None => Ok(None),
    }
}

// The top alone.
fn cost_alone<L>(models: &Items<Model<L>>, scale: &Scale) -> Cost
    requires { FitsWords scale.now }
    ensures { result ≡ cost_alone models.now scale.now }
{
    let names = u64::from(name_count(models, 0));
    capped(scale, names, 0, instance_size(models, scale, 0))
}

// What is below an instance of each model, as deep as a path may lead from a placement of the top.
fn costs_of<L>(
    alloc: Global,
    models: &Items<Model<L>>,
    scale: &Scale,
) -> Result<Vec<Cost>, NoMemory>
    requires closed { IsClosed models.now }
    requires form { AreInForm models.now }
    requires words { FitsWords scale.now }
    ensures { IfOk result (λ costs. HasCosts models.now scale.now (DEEPEST - 1) costs.items) }
{
    let none = no_cost();
    let mut costs = vec![in alloc; none; models.len()]?;
    for round in 0..DEEPEST - 1 {
        costs = costs_after(alloc, models, &costs, scale)?;
    }
    Ok(costs)
}

// What is below each model, by what is below those that it places.
fn costs_after<L>(
    alloc: Global,
    models: &Items<Model<L>>,
    costs: &[Cost],
    scale: &Scale,
) -> Result<Vec<Cost>, NoMemory>
    requires { FitsWords scale.now }
    ensures { IfOk result (λ next. next.items ≡ map (cost_after models.now scale.now costs.now) models.now) }
{
    let mut next = Vec::with_capacity(alloc, models.len())?;
    for model in models.as_slice() {
        next.push(cost_in(models, costs, scale, model.items.as_slice()))?;
    }
    Ok(next)
}

// What the placements of a model make.
fn cost_in<L>(models: &Items<Model<L>>, costs: &[Cost], scale: &Scale, items: &[Item<L>]) -> Cost
    requires { FitsWords scale.now }
    ensures { result ≡ fold (with_placement models.now scale.now costs.now) no_cost (placements_in items.now) }
{
    let mut sum = no_cost();
    for item in items {
        if let Item::Place(placement) = item {
            sum = with_placement(models, costs, scale, sum, placement);
        }
    }
    sum
}

// The number of the first placement with which a limit is passed.
fn first_past<L>(
    models: &Items<Model<L>>,
    costs: &[Cost],
    scale: &Scale,
    start: Cost,
    items: &[Item<L>],
) -> Option<usize>
    requires { FitsWords scale.now }
    ensures { result ≡ past_from models.now scale.now costs.now start 0 (placements_in items.now) }
{
    let mut number = 0usize;
    let mut sum = start;
    for item in items {
        if let Item::Place(placement) = item {
            sum = with_placement(models, costs, scale, sum, placement);
            if is_over(scale, sum) {
                return Some(number);
            }
            number += 1;
        }
    }
    None
}

// Whether a limit is passed.
fn is_over(scale: &Scale, sum: Cost) -> bool
    ensures { result ≡ is_over scale.now sum }
{
    sum.signals > scale.count || (sum.instances > scale.count || sum.size > scale.size)
}

// A sum with one placement more.
fn with_placement<L>(
    models: &Items<Model<L>>,
    costs: &[Cost],
    scale: &Scale,
    sum: Cost,
    placement: &Placement,
) -> Cost
    requires { FitsWords scale.now }
    ensures { result ≡ with_placement models.now scale.now costs.now sum placement.now }
{
    let below = cost_at(costs, placement.model);
    let own = u64::from(name_count(models, placement.model)).saturating_sub(
        placement.connections.len() as u64,
    );
    let size = instance_size(models, scale, placement.model);
    capped(
        scale,
        u64::from(sum.signals) + own + u64::from(below.signals),
        u64::from(sum.instances) + 1 + u64::from(below.instances),
        u64::from(sum.size) + size + u64::from(below.size),
    )
}

// How much an instance of a model takes.
fn instance_size<L>(models: &Items<Model<L>>, scale: &Scale, model: u32) -> u64
    ensures is { result ≡ instance_size models.now scale.now.starts model }
    ensures few { result < 2 ^ 40 }
{
    let bytes = line_bytes(scale, model);
    u64::from(bytes) + u64::from(NAME_SIZE) * u64::from(name_count(models, model))
}

// How many bytes the lines of a model have.
pub(crate) fn line_bytes(scale: &Scale, model: u32) -> u32
    ensures { result ≡ line_bytes scale.now.starts model }
{
    let starts = scale.starts.as_slice();
    let end = number_at(starts, model as usize + 1);
    end.saturating_sub(number_at(starts, model as usize))
}

// Numbers counted up to one more than is allowed.
fn capped(scale: &Scale, signals: u64, instances: u64, size: u64) -> Cost
    requires { FitsWords scale.now }
    ensures { result ≡ capped scale.now signals instances size }
{
    Cost {
        signals: signals.min(u64::from(scale.count) + 1) as u32,
        instances: instances.min(u64::from(scale.count) + 1) as u32,
        size: size.min(u64::from(scale.size) + 1) as u32,
    }
}

// What is below a model, nothing past the end of the list.
fn cost_at(costs: &[Cost], model: u32) -> Cost
    ensures { result ≡ slice_index_or costs.now model no_cost }
{
    match costs.get(model as usize) {
        Some(cost) => *cost,
        None => no_cost(),
    }
}

// Nothing.
fn no_cost() -> Cost
    ensures { result ≡ no_cost }
{
    Cost {
        signals: 0,
        instances: 0,
        size: 0,
    }
}

// How many names the model of a number has; none where there is no such model.
fn name_count<L>(models: &Items<Model<L>>, model: u32) -> u32
    ensures { result ≡ names_of models.now model }
{
    match models.as_slice().get(model as usize) {
        Some(model) => model.names,
        None => 0,
    }
}

// The number at a place of a list, 0 past its end.
pub(crate) fn number_at(numbers: &[u32], place: usize) -> u32
    ensures { result ≡ slice_index numbers.now place }
{
    match numbers.get(place) {
        Some(number) => *number,
        None => 0,
    }
}
