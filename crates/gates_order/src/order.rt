ghost use Rattle.std.specs.Prelude.{◌≡◌, ◌<◌, ◌^◌, length, IfOk};
ghost use Rattle.netlist.specs.Sound.{IsOrder};
ghost use Rattle.gates_order.specs.Depths.{order_of};

use crate::layers::{joined, layers_of};
use crate::levels::levels_of;
use netlist::{Netlist, Signals, soundness_law};
use netlist_order::order_tables;
use psl_base::NoMemory;
use std::alloc::Global;

// Some order in which the tables can be computed. There are few enough tables to be numbered.
fn some_order(alloc: Global, netlist: &Netlist) -> Result<Signals, NoMemory>
    ensures order { IfOk result (λ order. IsOrder netlist.now.tables order) }
    ensures few { length netlist.now.tables < 2 ^ 32 }
{
    soundness_law(netlist);
    match order_tables(alloc, netlist.signals(), netlist.tables())? {
        Ok(order) => Ok(order),
        Err(_) => unreachable!(),
    }
}

/// The tables of a netlist by their depths, and those of one depth by their numbers: an order in which they can be
/// computed. The time is linear in the number of signals, tables and inputs of tables.
///
/// # Errors
///
/// `NoMemory` if memory is refused.
pub fn order_of(alloc: Global, netlist: &Netlist) -> Result<Signals, NoMemory>
    ensures is { IfOk result (λ order. order ≡ order_of netlist.now.tables) }
    ensures order { IfOk result (λ order. IsOrder netlist.now.tables order) }
{
    soundness_law(netlist);
    let some = some_order(alloc, netlist)?;
    let levels = levels_of(alloc, netlist, some.as_slice())?;
    let layers = layers_of(alloc, netlist.tables().as_slice(), levels.as_slice())?;
    joined(alloc, layers.as_slice())
}
