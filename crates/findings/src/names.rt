ghost use Rattle.std.specs.Prelude.{◌≡◌, ◌<◌, length, Any, IfOk, Some};
ghost use Rattle.findings.specs.Columns.{AreColumns};
ghost use Rattle.psl_tree.specs.Names.{first_name};
ghost use Rattle.trace.specs.FirstPlaces.{TellsFirst};

use netlist::{Netlist, soundness_law};
use psl_base::NoMemory;
use psl_tree::{Name, Names};
use std::alloc::Global;
use trace::first_places;

/// The first names of the inputs of a netlist and then of the outputs of its latches, as it lists them.
pub fn columns(alloc: Global, netlist: &Netlist) -> Result<Names, NoMemory>
    ensures { IfOk result (AreColumns netlist.now) }
{
    soundness_law(netlist);
    let names = netlist.names().as_slice();
    let first = first_places(alloc, names, netlist.signals())?;
    let mut columns = Names::new(alloc);
    for signal in netlist.inputs().as_slice() {
        columns.push(column(alloc, names, &first, *signal)?)?;
    }
    for latch in netlist.latches().as_slice() {
        columns.push(column(alloc, names, &first, latch.output)?)?;
    }
    Ok(columns)
}

// The first name of a signal, which has one.
fn column(alloc: Global, names: &[Name], first: &[usize], signal: u32) -> Result<Name, NoMemory>
    requires signal { signal < length first.now }
    requires first { TellsFirst names.now (length first.now) first.now }
    requires named { Any (λ name. name.signal ≡ signal) names.now }
    ensures { IfOk result (λ name. Some name ≡ first_name names.now signal) }
{
    match names.get(first[signal as usize]) {
        Some(name) => Ok(Name {
            text: name.text.copy(alloc)?,
            signal: name.signal,
            left: name.left,
            right: name.right,
        }),
        None => unreachable!(),
    }
}
