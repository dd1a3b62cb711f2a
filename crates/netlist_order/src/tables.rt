// The tables of a netlist in order.
ghost use Rattle.std.specs.Prelude.{◌≡◌, ℕ, ◌<◌, ◌^◌, length, map, All, IfOk, IfErr, IfSome, None, replicate, slice_index_or};
ghost use Rattle.netlist_order.specs.Graph.{IsFirstOnCycle};
ghost use Rattle.netlist.specs.Sound.{AreApart, IsOrder};
ghost use Rattle.netlist_order.specs.TableGraph.{driver_in, table_graph, IsAcyclic};

use crate::order::order_of;
use crate::wiring::Wiring;
use netlist::{Signals, Table, Tables};
use psl_base::NoMemory;
use std::alloc::Global;

/// An order in which the tables of a netlist with so many signals can be computed; or, where there is none, the first
/// table that depends on itself through tables, by its place, counted from 0.
///
/// The time is linear in the number of signals, tables and inputs, and nothing recurses.
///
/// # Errors
///
/// `NoMemory` if memory is refused.
pub fn order_tables(
    alloc: Global,
    signals: u32,
    tables: &Tables,
) -> Result<Result<Signals, u32>, NoMemory>
    requires outputs { All (λ table. table.output < signals) tables.now }
    requires once { AreApart (map (λ table. table.output) tables.now) }
    requires size { length tables.now < 2 ^ 32 }
    ensures order { IfOk result (λ answer. IfOk answer (λ order. IsOrder tables.now order)) }
    ensures acyclic { IfOk result (λ answer. IfOk answer (λ _. IsAcyclic (table_graph tables.now))) }
    ensures cycle { IfOk result (λ answer. IfErr answer (λ table. IsFirstOnCycle (table_graph tables.now) table)) }
{
    let tables = tables.as_slice();
    let lists = lists_of(alloc, tables)?;
    let drivers = drivers_of(alloc, signals, tables)?;
    let wiring = Wiring::new(lists.as_slice(), drivers.as_slice());
    match order_of(alloc, &wiring)? {
        Ok(order) => Ok(Ok(Signals::from_vec(order))),
        Err(table) => Ok(Err(table)),
    }
}

// The signals that each table reads.
fn lists_of<'a>(alloc: Global, tables: &'a [Table]) -> Result<Vec<&'a [u32]>, NoMemory>
    ensures { IfOk result (λ lists. map (λ list. list.now) lists.items ≡ map (λ table. table.inputs) tables.now) }
{
    let mut lists = Vec::new(alloc);
    for table in tables {
        lists.push(table.inputs.as_slice())?;
    }
    Ok(lists)
}

// Of each signal the first table that drives it.
fn drivers_of(alloc: Global, signals: u32, tables: &[Table]) -> Result<Vec<Option<u32>>, NoMemory>
    requires outputs { All (λ table. table.output < signals) tables.now }
    requires size { length tables.now < 2 ^ 32 }
    ensures first { IfOk result (λ drivers. (signal : ℕ) → slice_index_or drivers.items signal None ≡ driver_in tables.now signal) }
    ensures within { IfOk result (λ drivers. All (λ driver. IfSome driver (λ table. table < length tables.now)) drivers.items) }
{
    let mut drivers = no_drivers(alloc, signals as usize)?;
    let mut left = tables.len();
    while left > 0 {
        left -= 1;
        drivers[tables[left].output as usize] = Some(left as u32);
    }
    Ok(drivers)
}

// So many signals that no table drives.
fn no_drivers(alloc: Global, count: usize) -> Result<Vec<Option<u32>>, NoMemory>
    ensures { IfOk result (λ drivers. drivers.items ≡ replicate count None) }
{
    let mut drivers = Vec::new(alloc);
    drivers.resize(count, None)?;
    Ok(drivers)
}
