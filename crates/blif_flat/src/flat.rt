// The netlist of a hierarchy.
ghost use Rattle.std.specs.Prelude.{◌≡◌, ℕ, ◌≤◌, ◌^◌, ◌++◌, length, map, IfOk, OnOk};
ghost use Rattle.blif_flattening.specs.Hierarchy.{flat_lines, items_of};
ghost use Rattle.blif_flattening.specs.Instances.{IsNamed, names_of};
ghost use Rattle.blif_flattening.specs.Numbers.{signals};
ghost use Rattle.blif_hierarchy.specs.Drivers.{inputs_in};
ghost use Rattle.blif_flat.specs.Flat.{flat_design, flat_outputs, texts_at};
ghost use Rattle.blif_flat.specs.Inputs.{design_in, first_numbers, inputs_at, number_in};
ghost use Rattle.blif_flat.specs.Lines.{inputs_of, mentions_of};

use crate::instance_names::names_of;
use crate::parts::{FlatParts, parts_of};
use blif_flattening::{FlatInstance, Item, Model, flatten};
use blif_model::{LineKind, ModelLine, NameTable};
use netlist::Signals;
use psl_base::{Items, NoMemory};
use psl_tree::Names;
use std::alloc::Global;

/// A hierarchy of models as one netlist, but for the order of its tables.
#[derive(Drop)]
pub struct FlatNetlist {
    /// How many signals there are. They are numbered from 0, in the order in which the flat lines first mention them.
    pub signals: usize,
    /// The inputs of the top, as listed.
    pub inputs: Signals,
    /// The latches and tables of all instances in flat order, and where the outputs of the tables stand in the text.
    pub parts: FlatParts,
    /// The names: those of the top, and then those of each instance in flat order.
    pub names: Names,
}

/// The netlist of a hierarchy of models, each of which has a table of names.
///
/// # Errors
///
/// `NoMemory` if memory is refused.
pub fn flat_netlist(
    alloc: Global,
    models: &Items<Model<ModelLine>>,
    texts: &Items<NameTable>,
) -> Result<FlatNetlist, NoMemory>
    requires named { IsNamed mentions_of models.now }
    requires room { length (signals mentions_of models.now) ≤ 2 ^ 32 }
    requires titled { (model : ℕ) → length (texts_at texts.now model) ≡ names_of models.now model }
    ensures design { IfOk result (λ made. design_in made ≡ flat_design models.now texts.now) }
    ensures outputs { IfOk result (λ made. made.parts.outputs ≡ flat_outputs (flat_lines models.now)) }
{
    let flat = flatten(alloc, models)?;
    let parts = parts_of(alloc, models, &flat.lines)?;
    let names = names_of(alloc, &flat.instances, texts)?;
    let inputs = top_inputs(alloc, models, &flat.instances)?;
    Ok(FlatNetlist {
        signals: flat.signals,
        inputs,
        parts,
        names,
    })
}

// The inputs of the top, which is the first of the instances.
fn top_inputs(
    alloc: Global,
    models: &Items<Model<ModelLine>>,
    instances: &Items<FlatInstance>,
) -> Result<Signals, NoMemory>
    ensures { IfOk result (λ inputs. inputs
        ≡ map (number_in (first_numbers instances.now)) (inputs_in inputs_of (items_of models.now 0))) }
{
    match models.as_slice().first() {
        Some(top) => listed_inputs(alloc, top.items.as_slice(), numbers_of_first(instances)),
        None => Ok(Items::new(alloc)),
    }
}

// The numbers of the signals that the names of the first instance are.
fn numbers_of_first<'a>(instances: &'a Items<FlatInstance>) -> &'a [Option<u32>]
    ensures { result.now ≡ first_numbers instances.now }
{
    match instances.as_slice().first() {
        Some(instance) => instance.numbers.as_slice(),
        None => &[],
    }
}

// The inputs that lines list, where names have these numbers.
fn listed_inputs(
    alloc: Global,
    items: &[Item<ModelLine>],
    numbers: &[Option<u32>],
) -> Result<Signals, NoMemory>
    ensures { IfOk result (λ inputs. inputs ≡ map (number_in numbers.now) (inputs_in inputs_of items.now)) }
{
    let mut inputs = Items::new(alloc);
    for item in items {
        add_inputs(&mut inputs, inputs_at(item), numbers)?;
    }
    Ok(inputs)
}

// The names that an item lists as inputs.
fn inputs_at<'a>(item: &'a Item<ModelLine>) -> &'a [u32]
    ensures { result.now ≡ inputs_at item.now }
{
    match item {
        Item::Own(line) => match line.kind {
            LineKind::Inputs => line.mentions.as_slice(),
            LineKind::Outputs | LineKind::Latch(_) | LineKind::Table(_) => &[],
        },
        Item::Place(_) => &[],
    }
}

// More inputs, by their names.
fn add_inputs(inputs: &mut Signals, names: &[u32], numbers: &[Option<u32>]) -> Result<(), NoMemory>
    ensures { OnOk result (inputs.new ≡ inputs.old ++ map (number_in numbers.now) names.now) }
{
    for name in names {
        inputs.push(number_in(numbers, *name))?;
    }
    Ok(())
}

// The number of the signal of a name, 0 where it is none.
fn number_in(numbers: &[Option<u32>], name: u32) -> u32
    ensures { result ≡ number_in numbers.now name }
{
    match numbers.get(name as usize) {
        Some(Some(number)) => *number,
        _ => 0,
    }
}
