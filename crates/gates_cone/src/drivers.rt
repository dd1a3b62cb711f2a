// What drives each signal of a netlist.
ghost use Rattle.std.specs.Prelude.{◌≡◌, length, replicate, IfOk};
ghost use Rattle.gates_cone.specs.declared.drivers.Driver.{Driver};
ghost use Rattle.gates_cone.specs.Drivers.{AreDrivers, AreNoted};

use netlist::{Netlist, soundness_law};
use psl_base::NoMemory;
use std::alloc::Global;

/// What drives a signal, by its place in the netlist's list.
#[derive(Clone, Copy)]
pub(crate) enum Driver {
    Input,
    Latch(usize),
    Table(usize),
}

// Notes the outputs of the tables.
fn note_tables(netlist: &Netlist, drivers: &mut [Driver])
    requires { AreNoted netlist.now 0 0 drivers.old }
    ensures { AreNoted netlist.now (length netlist.now.tables) 0 drivers.new }
{
    soundness_law(netlist);
    let tables = netlist.tables().as_slice();
    for number in 0..tables.len() {
        drivers[tables[number].output as usize] = Driver::Table(number);
    }
}

// Notes the outputs of the latches.
fn note_latches(netlist: &Netlist, drivers: &mut [Driver])
    requires { AreNoted netlist.now (length netlist.now.tables) 0 drivers.old }
    ensures { AreDrivers netlist.now drivers.new }
{
    soundness_law(netlist);
    let latches = netlist.latches().as_slice();
    for number in 0..latches.len() {
        drivers[latches[number].output as usize] = Driver::Latch(number);
    }
}

// So many signals that nothing is known to drive.
fn no_drivers(alloc: Global, count: u32) -> Result<Vec<Driver>, NoMemory>
    ensures { IfOk result (λ drivers. drivers.items ≡ replicate count Driver.Input) }
{
    Ok(vec![in alloc; Driver::Input; count as usize]?)
}

/// What drives each signal, in the order of their numbers.
pub(crate) fn drivers_of(alloc: Global, netlist: &Netlist) -> Result<Vec<Driver>, NoMemory>
    ensures { IfOk result (λ drivers. AreDrivers netlist.now drivers.items) }
{
    let mut drivers = no_drivers(alloc, netlist.signals())?;
    note_tables(netlist, &mut drivers);
    note_latches(netlist, &mut drivers);
    Ok(drivers)
}
