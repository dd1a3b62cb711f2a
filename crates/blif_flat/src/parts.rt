// The parts of a netlist, line by line.
ghost use Rattle.std.specs.Prelude.{◌≡◌, map, IfOk, OnOk, slice_get};
ghost use Rattle.std.specs.Option.{option_map};
ghost use Rattle.blif_flattening.specs.Hierarchy.{items_of};
ghost use Rattle.blif_flattening.specs.Walks.{line_view};
ghost use Rattle.blif_flat.specs.Lines.{table_by};
ghost use Rattle.blif_flat.specs.Listing.{parts_in, table_with, with_entry, with_kind};

use blif_flattening::{FlatLine, Item, Model};
use blif_model::{LineKind, ModelLine, TableRows};
use netlist::{Latch, Latches, Table, Tables};
use psl_base::{Items, NoMemory, Numbers};
use std::alloc::Global;

/// What flat lines list: the latches and tables of a netlist, and how many bytes of the text stand before the name of each
/// table's output.
#[derive(Drop)]
pub struct FlatParts {
    /// The latches.
    pub latches: Latches,
    /// The tables.
    pub tables: Tables,
    /// Where the outputs of the tables stand in the text.
    pub outputs: Numbers,
}

/// What flat lines list. The rows of tables are copied, as a model may be placed more than once.
pub(crate) fn parts_of(
    alloc: Global,
    models: &Items<Model<ModelLine>>,
    lines: &Items<FlatLine>,
) -> Result<FlatParts, NoMemory>
    ensures { IfOk result (λ parts. parts ≡ parts_in (map (line_view models.now) lines.now)) }
{
    let mut parts = FlatParts {
        latches: Items::new(alloc),
        tables: Items::new(alloc),
        outputs: Items::new(alloc),
    };
    for line in lines.as_slice() {
        let entry = entry_of(models, line.model, line.item);
        parts.add_entry(alloc, entry, line.numbers.as_slice())?;
    }
    Ok(parts)
}

// What stands at a place of a model.
fn entry_of<'a>(
    models: &'a Items<Model<ModelLine>>,
    model: usize,
    item: usize,
) -> Option<&'a Item<ModelLine>>
    ensures { option_map (λ entry. entry.now) result ≡ slice_get (items_of models.now model) item }
{
    match models.as_slice().get(model) {
        Some(model) => match model.items.as_slice().get(item) {
            Some(entry) => Some(entry),
            None => None,
        },
        None => None,
    }
}

impl FlatParts {
    // One line more.
    fn add_entry(
        &mut self,
        alloc: Global,
        entry: Option<&Item<ModelLine>>,
        numbers: &[u32],
    ) -> Result<(), NoMemory>
        ensures { OnOk result (self.new ≡ with_entry self.old (option_map (λ item. item.now) entry.entry) numbers.now) }
    {
        match entry {
            Some(Item::Own(line)) => self.add_line(alloc, &line.kind, numbers),
            Some(Item::Place(_)) => Ok(()),
            None => Ok(()),
        }
    }

    // What a line lists.
    fn add_line(&mut self, alloc: Global, kind: &LineKind, numbers: &[u32]) -> Result<(), NoMemory>
        ensures { OnOk result (self.new ≡ with_kind self.old kind.now numbers.now) }
    {
        match kind {
            LineKind::Inputs | LineKind::Outputs => Ok(()),
            LineKind::Latch(init) => match numbers {
                [input, output] => self.latches.push(Latch {
                    input: *input,
                    output: *output,
                    init: *init,
                }),
                _ => Ok(()),
            },
            LineKind::Table(rows) => {
                self.outputs.push(rows.output_at)?;
                self.tables.push(table_of(alloc, rows, numbers)?)
            }
        }
    }
}

// The table whose names are these signals, the last of which it drives.
fn table_of(alloc: Global, rows: &TableRows, numbers: &[u32]) -> Result<Table, NoMemory>
    ensures { IfOk result (λ table. table ≡ table_by rows.now numbers.now) }
{
    match numbers.split_last() {
        Some((output, inputs)) => table_with(alloc, rows, inputs, *output),
        None => table_with(alloc, rows, &[], 0),
    }
}

// The table that reads and drives these signals.
fn table_with(
    alloc: Global,
    rows: &TableRows,
    inputs: &[u32],
    output: u32,
) -> Result<Table, NoMemory>
    ensures { IfOk result (λ table. table ≡ table_with rows.now inputs.now output) }
{
    Ok(Table {
        inputs: Items::from_slice(alloc, inputs)?,
        output,
        rows: rows.rows.copy(alloc)?,
        value: rows.value,
    })
}
