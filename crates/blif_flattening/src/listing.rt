// The instances that a walk has listed.
ghost use Rattle.std.specs.Prelude.{◌≡◌, ◌<◌, length, map, All, IfOk};
ghost use Rattle.blif_flattening.specs.Listing.{instance_by};

use crate::cells::Cells;
use crate::instance::Instance;
use psl_base::{Items, NoMemory};
use std::alloc::Global;

/// An instance, and which signals its names are.
#[derive(Drop)]
pub struct FlatInstance {
    /// The numbers of the placements that lead to it from the top, the last one first.
    pub path: Items<usize>,
    /// The number of its model.
    pub model: usize,
    /// Of each name of the model the number of its signal, where some line mentions it.
    pub numbers: Items<Option<u32>>,
}

/// The instances, with the numbers of the signals that their names are.
pub(crate) fn listed(
    alloc: Global,
    table: &Cells,
    instances: &Items<Instance>,
) -> Result<Items<FlatInstance>, NoMemory>
    requires { All (λ instance. All (λ cell. cell < length table.now.owners) instance.cells) instances.now }
    ensures { IfOk result (λ found. found ≡ map (instance_by table.now) instances.now) }
{
    let mut found = Items::new(alloc);
    for instance in instances.as_slice() {
        found.push(numbered(alloc, table, instance)?)?;
    }
    Ok(found)
}

// An instance, with the numbers of the signals that its names are.
fn numbered(alloc: Global, table: &Cells, instance: &Instance) -> Result<FlatInstance, NoMemory>
    requires { All (λ cell. cell < length table.now.owners) instance.now.cells }
    ensures { IfOk result (λ found. found ≡ instance_by table.now instance.now) }
{
    Ok(FlatInstance {
        path: instance.path.copy(alloc)?,
        model: instance.model,
        numbers: table.numbers(alloc, instance.cells.as_slice())?,
    })
}
