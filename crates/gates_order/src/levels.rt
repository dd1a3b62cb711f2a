// How deep each table stands above others.
ghost use Rattle.std.specs.Prelude.{◌≡◌, ◌<◌, length, map, All, IfOk, slice_index};
ghost use Rattle.netlist.specs.Sound.{IsOrder};
ghost use Rattle.gates_order.specs.Depths.{most};
ghost use Rattle.gates_order.specs.Kept.{TellDepths};

use netlist::{Netlist, soundness_law};
use psl_base::NoMemory;
use std::alloc::Global;

// The greatest level of some signals.
fn deepest(levels: &[usize], signals: &[u32]) -> usize
    requires { All (λ signal. signal < length levels.now) signals.now }
    ensures { result ≡ most (map (slice_index levels.now) signals.now) }
{
    let mut most = 0;
    for signal in signals {
        most = most.max(levels[*signal as usize]);
    }
    most
}

/// For each signal, one more than the depth of the table that drives it, and 0 where none does; from an order in which
/// the tables can be computed.
pub(crate) fn levels_of(
    alloc: Global,
    netlist: &Netlist,
    order: &[u32],
) -> Result<Vec<usize>, NoMemory>
    requires order { IsOrder netlist.now.tables order.now }
    ensures size { IfOk result (λ levels. length levels.items ≡ netlist.now.signals) }
    ensures levels { IfOk result (λ levels. TellDepths netlist.now.tables levels.items) }
{
    soundness_law(netlist);
    let tables = netlist.tables().as_slice();
    let mut levels = vec![in alloc; 0usize; netlist.signals() as usize]?;
    for number in order {
        let table = &tables[*number as usize];
        let depth = deepest(&levels, table.inputs.as_slice());
        levels[table.output as usize] = depth + 1;
    }
    Ok(levels)
}
