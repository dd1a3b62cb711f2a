// The walk through all instances, in flat order.
ghost use Rattle.std.specs.Prelude.{◌≡◌, ◌+◌, ◌<◌, ◌≤◌, ◌^◌, [], ◌∷◌, ◌++◌, length, All, IfOk, OnOk, Some, slice_get};
ghost use Rattle.blif_flattening.specs.Hierarchy.{items_of, placement_at, mentioned, expand};
ghost use Rattle.blif_flattening.specs.Numbers.{onto};
ghost use Rattle.blif_flattening.specs.Cells.{named};
ghost use Rattle.blif_flattening.specs.Instances.{names_of, IsNamed, IsOpened, IsFresh, Opens, Grows};
ghost use Rattle.blif_flattening.specs.Listing.{IsSmall, Lists, instances_from, item_instances};
ghost use Rattle.blif_flattening.specs.Walks.{Walks, AddsLine, IsPlacedAs, item_lines, next_place};

use crate::cells::Cells;
use crate::instance::{Instance, actuals_of, open, path_below};
use crate::model::{Item, Line, Model, Placement};
use psl_base::{Items, NoMemory, Numbers};
use std::alloc::Global;

/// A line of an instance: where it stands, and the numbers of the signals that it mentions, in the line's order.
#[derive(Drop)]
pub struct FlatLine {
    /// The number of its model.
    pub model: usize,
    /// Its place in what the model lists.
    pub item: usize,
    /// The numbers of the signals that it mentions.
    pub numbers: Numbers,
}

/// How far a walk has come: the signals of the instances that were opened, the lines that were found, and the instances.
#[derive(Drop)]
pub(crate) struct Progress {
    pub(crate) table: Cells,
    pub(crate) lines: Items<FlatLine>,
    pub(crate) instances: Items<Instance>,
}

impl Progress {
    /// Nothing is open, and nothing was found.
    pub(crate) fn new(alloc: Global) -> Progress
        ensures owners { result.table.owners ≡ [] }
        ensures seen { result.table.seen ≡ [] }
        ensures lines { result.lines ≡ [] }
        ensures instances { result.instances ≡ [] }
    {
        Progress {
            table: Cells::new(alloc),
            lines: Items::new(alloc),
            instances: Items::new(alloc),
        }
    }

    /// An instance is listed.
    pub(crate) fn list(&mut self, alloc: Global, instance: &Instance) -> Result<(), NoMemory>
        ensures table { self.new.table ≡ self.old.table }
        ensures lines { self.new.lines ≡ self.old.lines }
        ensures instances { OnOk result (self.new.instances ≡ self.old.instances ++ instance.now ∷ []) }
    {
        let path = instance.path.copy(alloc)?;
        let cells = instance.cells.copy(alloc)?;
        self.instances.push(Instance {
            path,
            model: instance.model,
            cells,
        })
    }
}

/// What stays the same while a walk goes along what an instance lists: the models, the instance, and how many levels
/// deep the walk goes below it.
// A plain derive asks that the lines are `Copy` too.
#[derive_where(Clone, Copy)]
struct Inside<'a, L> {
    models: &'a Items<Model<L>>,
    instance: &'a Instance,
    levels: u32,
}

/// Lists an instance and those below it, and finds their lines, so many levels deep.
#[cycle(walking)]
pub(crate) fn walk<L: Line>(
    alloc: Global,
    models: &Items<Model<L>>,
    out: &mut Progress,
    instance: &Instance,
    levels: u32,
) -> Result<(), NoMemory>
    requires named { IsNamed L.mentions models.now }
    requires opened { IsOpened models.now out.old.table.owners instance.now }
    requires small { IsSmall instance.now.path }
    requires fresh { IsFresh out.old.table.owners instance.now.path 0 }
    requires room { length (onto out.old.table.seen
        (mentioned L.mentions models.now (expand models.now levels instance.now.path))) ≤ 2 ^ 32 }
    ensures walks { OnOk result
        (Walks L.mentions models.now (expand models.now levels instance.now.path) out.old out.new) }
    ensures lists { OnOk result
        (Lists models.now (instances_from models.now levels instance.now.path) out.old.instances out.new) }
    ensures grows { OnOk result (Grows instance.now.path out.old.table.owners out.new.table.owners) }
{
    if levels == 0 {
        return Ok(());
    }
    out.list(alloc, instance)?;
    let Some(model) = models.as_slice().get(instance.model) else {
        return Ok(());
    };
    let inside = Inside {
        models,
        instance,
        levels: levels - 1,
    };
    let mut k = 0usize;
    for item in 0..model.items.len() {
        k = visit(alloc, inside, out, item, model.items.at(item), k)?;
    }
    Ok(())
}

// Finds one line of an instance, or the lines of a placement in it; gives the number of the placement that comes next.
#[cycle(walking)]
fn visit<L: Line>(
    alloc: Global,
    inside: Inside<'_, L>,
    out: &mut Progress,
    item: usize,
    entry: &Item<L>,
    k: usize,
) -> Result<usize, NoMemory>
    requires named { IsNamed L.mentions inside.models.now }
    requires opened { IsOpened inside.models.now out.old.table.owners inside.instance.now }
    requires small { IsSmall inside.instance.now.path }
    requires fresh { IsFresh out.old.table.owners inside.instance.now.path k }
    requires listed { slice_get (items_of inside.models.now inside.instance.now.model) item ≡ Some entry.now }
    requires placed { IsPlacedAs inside.models.now inside.instance.now.path k entry.now }
    requires few { k + 1 < 2 ^ 64 }
    requires room { length (onto out.old.table.seen (mentioned L.mentions inside.models.now
        (item_lines (expand inside.models.now inside.levels) inside.instance.now.path k entry.now))) ≤ 2 ^ 32 }
    ensures walks { OnOk result (Walks L.mentions inside.entry.models.now
        (item_lines (expand inside.entry.models.now inside.entry.levels) inside.entry.instance.now.path k entry.now)
        out.old out.new) }
    ensures lists { OnOk result (Lists inside.entry.models.now
        (item_instances (instances_from inside.entry.models.now inside.entry.levels)
        inside.entry.instance.now.path k entry.now) out.old.instances out.new) }
    ensures grows { OnOk result (Grows inside.entry.instance.now.path out.old.table.owners out.new.table.owners) }
    ensures fresh { IfOk result (λ next. IsFresh out.new.table.owners inside.entry.instance.now.path next) }
    ensures next { IfOk result (λ next. next ≡ next_place k entry.now) }
{
    match entry {
        Item::Own(line) => {
            add_line(alloc, out, inside.instance, item, line.mentions())?;
            Ok(k)
        }
        Item::Place(placement) => {
            let child = open_placement(alloc, inside, out, placement, k)?;
            walk(alloc, inside.models, out, &child, inside.levels)?;
            Ok(k + 1)
        }
    }
}

// Opens the instance that a placement makes.
fn open_placement<L: Line>(
    alloc: Global,
    inside: Inside<'_, L>,
    out: &mut Progress,
    placement: &Placement,
    k: usize,
) -> Result<Instance, NoMemory>
    requires named { IsNamed L.mentions inside.models.now }
    requires opened { IsOpened inside.models.now out.old.table.owners inside.instance.now }
    requires fresh { IsFresh out.old.table.owners inside.instance.now.path k }
    requires placed { placement_at inside.models.now inside.instance.now.path k ≡ Some placement.now }
    ensures path { IfOk result (λ child. child.path ≡ k ∷ inside.entry.instance.now.path) }
    ensures opened { IfOk result (λ child. IsOpened inside.entry.models.now out.new.table.owners child) }
    ensures opens { IfOk result (λ child.
        Opens child.path (names_of inside.entry.models.now child.model) out.old.table.owners out.new.table.owners) }
    ensures seen { OnOk result (out.new.table.seen ≡ out.old.table.seen) }
    ensures lines { OnOk result (out.new.lines ≡ out.old.lines) }
    ensures instances { OnOk result (out.new.instances ≡ out.old.instances) }
{
    let path = path_below(alloc, inside.instance.path.as_slice(), k)?;
    let model = placement.model as usize;
    let count = name_count(inside.models, model);
    let actuals = actuals_of(alloc, placement.connections.as_slice(), count)?;
    let cells = open(
        alloc,
        &mut out.table,
        inside.instance.cells.as_slice(),
        &path,
        actuals.as_slice(),
    )?;
    Ok(Instance { path, model, cells })
}

/// Opens the top.
pub(crate) fn open_top<L>(
    alloc: Global,
    models: &Items<Model<L>>,
    out: &mut Progress,
) -> Result<Instance, NoMemory>
    requires first { out.old.table.owners ≡ [] }
    ensures path { IfOk result (λ top. top.path ≡ []) }
    ensures opened { IfOk result (λ top. IsOpened models.now out.new.table.owners top) }
    ensures fresh { OnOk result (IsFresh out.new.table.owners [] 0) }
    ensures seen { OnOk result (out.new.table.seen ≡ out.old.table.seen) }
    ensures lines { OnOk result (out.new.lines ≡ out.old.lines) }
    ensures instances { OnOk result (out.new.instances ≡ out.old.instances) }
{
    let path = Items::new(alloc);
    let actuals = actuals_of(alloc, &[], name_count(models, 0))?;
    let cells = open(alloc, &mut out.table, &[], &path, actuals.as_slice())?;
    Ok(Instance {
        path,
        model: 0,
        cells,
    })
}

// How many names the model of a number has; none where there is no such model.
fn name_count<L>(models: &Items<Model<L>>, model: usize) -> u32
    ensures { result ≡ names_of models.now model }
{
    match models.as_slice().get(model) {
        Some(model) => model.names,
        None => 0,
    }
}

// Finds one line of an instance.
fn add_line(
    alloc: Global,
    out: &mut Progress,
    instance: &Instance,
    item: usize,
    names: &[u32],
) -> Result<(), NoMemory>
    requires names { All (λ name. name < length instance.now.cells) names.now }
    requires cells { All (λ cell. cell < length out.old.table.owners) instance.now.cells }
    requires room { length
        (onto out.old.table.seen (named out.old.table.owners instance.now.cells names.now)) ≤ 2 ^ 32 }
    ensures { OnOk result (AddsLine instance.now item names.now out.old out.new) }
{
    let numbers = out
        .table
        .mention_all(alloc, instance.cells.as_slice(), names)?;
    out.lines.push(FlatLine {
        model: instance.model,
        item,
        numbers,
    })
}
