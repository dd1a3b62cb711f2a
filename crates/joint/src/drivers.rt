// What drives each signal of a netlist.
use netlist::{Latch, Netlist, Table};
use psl_base::{Items, NoMemory};
use std::alloc::Global;

/// What drives a signal, by its place in the netlist's list.
#[derive(Clone, Copy, Debug)]
pub(crate) enum Driver {
    Input,
    Table(usize),
    Latch(usize),
}

/// What drives each signal, in the order of their numbers.
pub(crate) type Drivers = Items<Driver>;

// Notes what drives a signal, if there is a place for it.
fn note(drivers: &mut Drivers, signal: u32, driver: Driver) {
    let place = signal as usize;
    if place < drivers.len() {
        drivers.set(place, driver);
    }
}

fn note_tables(drivers: &mut Drivers, tables: &[Table]) {
    for number in 0..tables.len() {
        note(drivers, tables[number].output, Driver::Table(number));
    }
}

/// Notes the latches too.
pub(crate) fn note_latches(drivers: &mut Drivers, latches: &[Latch]) {
    for number in 0..latches.len() {
        note(drivers, latches[number].output, Driver::Latch(number));
    }
}

/// The tables that drive signals: each other signal counts as an input.
pub(crate) fn table_drivers(alloc: Global, netlist: &Netlist) -> Result<Drivers, NoMemory> {
    let mut drivers = Drivers::new(alloc);
    for _ in 0..netlist.signals() {
        drivers.push(Driver::Input)?;
    }
    note_tables(&mut drivers, netlist.tables().as_slice());
    Ok(drivers)
}
