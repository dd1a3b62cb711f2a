// What feeds signals.
ghost use Rattle.std.specs.Prelude.{◌≡◌, ◌<◌, length, OnOk};
ghost use Rattle.gates_cone.specs.Drivers.{driver_at, reads_of, AreDrivers};
ghost use Rattle.gates_cone.specs.Keeping.{AreListed, GoesOn, Keeps, Spreads};

use crate::drivers::Driver;
use crate::keeping::{keep, keep_all};
use netlist::{Netlist, soundness_law};
use psl_base::NoMemory;

// Keeps what the driver of a signal reads.
fn follow(
    netlist: &Netlist,
    drivers: &[Driver],
    signal: u32,
    kept: &mut [bool],
    found: &mut Vec<u32>,
) -> Result<(), NoMemory>
    requires drivers { AreDrivers netlist.now drivers.now }
    requires signal { signal < netlist.now.signals }
    requires size { length kept.old ≡ netlist.now.signals }
    requires listed { AreListed kept.old found.old.items }
    ensures keeps { OnOk result (Keeps kept.old kept.new (reads_of netlist.now (driver_at drivers.now signal))) }
    ensures listed { OnOk result (AreListed kept.new found.new.items) }
    ensures goes_on { OnOk result (GoesOn found.old.items found.new.items) }
{
    soundness_law(netlist);
    match drivers[signal as usize] {
        Driver::Input => Ok(()),
        Driver::Latch(number) => keep(kept, found, netlist.latches().as_slice()[number].input),
        Driver::Table(number) => keep_all(
            kept,
            found,
            netlist.tables().as_slice()[number].inputs.as_slice(),
        ),
    }
}

/// Keeps all that feeds a kept signal. Each signal is looked at once.
pub(crate) fn spread(
    netlist: &Netlist,
    drivers: &[Driver],
    kept: &mut [bool],
    found: &mut Vec<u32>,
) -> Result<(), NoMemory>
    requires drivers { AreDrivers netlist.now drivers.now }
    requires size { length kept.old ≡ netlist.now.signals }
    requires listed { AreListed kept.old found.old.items }
    ensures { OnOk result (Spreads netlist.now kept.old kept.new) }
{
    let mut next = 0;
    while next < found.len() {
        let signal = found[next];
        follow(netlist, drivers, signal, kept, found)?;
        next += 1;
    }
    Ok(())
}
