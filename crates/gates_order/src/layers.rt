// Tables by their depths.
ghost use Rattle.std.specs.Prelude.{◌≡◌, ◌<◌, ◌^◌, suc, [], length, replicate, map, All, IfOk};
ghost use Rattle.std.specs.List.{flat_map, range_with_len};
ghost use Rattle.gates_order.specs.Depths.{layer};
ghost use Rattle.gates_order.specs.Kept.{TellDepths};

use netlist::{Signals, Table};
use psl_base::NoMemory;
use std::alloc::Global;

// So many layers without a table.
fn no_layers(alloc: Global, count: usize) -> Result<Vec<Signals>, NoMemory>
    ensures { IfOk result (λ layers. layers.items ≡ replicate count []) }
{
    let mut layers = Vec::new(alloc);
    for _added in 0..count {
        layers.push(Signals::new(alloc))?;
    }
    Ok(layers)
}

/// The tables of each depth, in the order of their numbers.
pub(crate) fn layers_of(
    alloc: Global,
    tables: &[Table],
    levels: &[usize],
) -> Result<Vec<Signals>, NoMemory>
    requires few { length tables.now < 2 ^ 32 }
    requires outputs { All (λ table. table.output < length levels.now) tables.now }
    requires levels { TellDepths tables.now levels.now }
    ensures { IfOk result (λ layers. layers.items ≡ map (layer tables.now) (range_with_len 0 (suc (length tables.now)))) }
{
    let mut layers = no_layers(alloc, tables.len() + 1)?;
    for (number, table) in tables.iter().enumerate() {
        let depth = levels[table.output as usize] - 1;
        layers[depth].push(number as u32)?;
    }
    Ok(layers)
}

/// The tables of all layers, one layer behind another.
pub(crate) fn joined(alloc: Global, layers: &[Signals]) -> Result<Signals, NoMemory>
    ensures { IfOk result (λ order. order ≡ flat_map (λ layer. layer) layers.now) }
{
    let mut order = Vec::new(alloc);
    for layer in layers {
        order.extend_from_slice(layer.as_slice())?;
    }
    Ok(Signals::from_vec(order))
}
