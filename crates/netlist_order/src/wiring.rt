// What tables read, as a dependency graph.
ghost use Rattle.std.specs.Prelude.{◌≡◌, ◌+◌, ◌<◌, ◌^◌, ◌↔◌, length, map, All, IfSome, OnSome, IsTrue, Contains, Some, None, slice_get, slice_index_or};
ghost use Rattle.netlist_order.specs.Graph.{inputs_of, IsGraph};
ghost use Rattle.netlist_order.specs.Wires.{drivers_of, graph_of};

use std::marker::Model;

/// The dependency graph of tables: the signals that each table reads, and the table that drives a signal.
///
/// Contracts see, of each table, the table that drives each of its inputs, or none. Tables and signals are numbered
/// from 0.
#[derive(Drop)]
pub struct Wiring<'a> {
    lists: &'a [&'a [u32]],
    drivers: &'a [Option<u32>],
}

impl<'a> Model for Wiring<'a> {
    ghost use Rattle.std.specs.Prelude.{map};
    ghost use Rattle.netlist_order.specs.Graph.{Graph};
    ghost use Rattle.netlist_order.specs.Wires.{graph_of};

    ghost Value = { Graph };

    ghost view = { λ wiring. graph_of (map (λ list. list.now) wiring.lists.now) wiring.drivers.now };
}

impl<'a> Wiring<'a> {
    /// The graph of tables, from the signals that each of them reads and the table that drives each signal. No table
    /// drives a signal past the end of `drivers`.
    pub fn new(lists: &'a [&'a [u32]], drivers: &'a [Option<u32>]) -> Wiring<'a>
        requires tables { All (λ driver. IfSome driver (λ table. table < length lists.now)) drivers.now }
        ensures graph { result ≡ graph_of (map (λ list. list.now) lists.now) drivers.now }
        ensures tables { IsGraph result }
    {
        Wiring { lists, drivers }
    }

    /// How many tables there are.
    pub fn len(&self) -> usize
        ensures { result ≡ length self.now }
    {
        self.lists.len()
    }

    // What drives an input of a table, counted from 0; none past its last input.
    pub(crate) fn driver(&self, table: u32, input: usize) -> Option<Option<u32>>
        requires table { table < length self.now }
        ensures driver { result ≡ slice_get (inputs_of self.now table) input }
        ensures fits { OnSome result (input + 1 < 2 ^ 64) }
    {
        let signals = self.lists[table as usize];
        driver_at(self.drivers, signals, input)
    }

    // Whether a table reads itself.
    pub(crate) fn reads_itself(&self, table: u32) -> bool
        requires table { table < length self.now }
        ensures { IsTrue result ↔ Contains (inputs_of self.now table) (Some table) }
    {
        let signals = self.lists[table as usize];
        reads(self.drivers, signals, table)
    }
}

// What drives the signal at a place of a list, counted from 0.
fn driver_at(drivers: &[Option<u32>], signals: &[u32], place: usize) -> Option<Option<u32>>
    ensures driver { result ≡ slice_get (drivers_of drivers.now signals.now) place }
    ensures fits { OnSome result (place + 1 < 2 ^ 64) }
{
    if place < signals.len() {
        Some(driver_of(drivers, signals[place]))
    } else {
        None
    }
}

// Whether a table drives a signal of a list.
fn reads(drivers: &[Option<u32>], signals: &[u32], table: u32) -> bool
    ensures { IsTrue result ↔ Contains (drivers_of drivers.now signals.now) (Some table) }
{
    for signal in signals {
        if driver_of(drivers, *signal) == Some(table) {
            return true;
        }
    }
    false
}

// The table that drives a signal.
fn driver_of(drivers: &[Option<u32>], signal: u32) -> Option<u32>
    ensures { result ≡ slice_index_or drivers.now signal None }
{
    match drivers.get(signal as usize) {
        Some(driver) => *driver,
        None => None,
    }
}
