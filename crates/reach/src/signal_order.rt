// The signals on which what an automaton asks hangs, in an order in which their values can be computed.
ghost use Rattle.std.specs.Prelude.{◌<◌, ◌^◌, length};

use crate::core_bits::{no_bits, set};
use crate::reading::value_at;
use crate::table_values::value_of_table;
use crate::ternary::{Ternaries, write};
use joint::{Joint, Slice};
use netlist::{Netlist, Signals, Table, soundness_law};
use netlist_order::order_tables;
use psl_base::{Bits, NoMemory};
use std::alloc::Global;

/// The signals on which what an automaton asks hangs.
#[derive(Debug, Drop)]
pub(crate) struct SignalOrder {
    /// These signals, and those of which an edge is tested.
    pub slice: Slice,
    /// The latches that drive them, by their numbers.
    pub latches: Signals,
    /// For each signal whether it is an input.
    pub is_input: Bits,
    /// The tables that drive them, by their numbers: each stands behind those whose outputs it reads.
    pub tables: Signals,
    /// Those of which the bits of a state can say enough: the latches' outputs, those that these alone determine, and the
    /// inputs, in this order.
    pub told: Signals,
}

/// An order in which the tables of a netlist can be computed, by their numbers.
fn order_of(alloc: Global, netlist: &Netlist) -> Result<Signals, NoMemory> {
    soundness_law(netlist);
    if netlist.tables().len() > u32::MAX as usize {
        return Ok(Signals::new(alloc));
    }
    match order_tables(alloc, netlist.signals(), netlist.tables())? {
        Ok(order) => Ok(order),
        Err(_) => Ok(Signals::new(alloc)),
    }
}

/// Those of some tables that drive kept signals, in the same order.
pub(crate) fn kept_tables(
    alloc: Global,
    netlist: &Netlist,
    order: &Signals,
    kept: &Bits,
) -> Result<Signals, NoMemory> {
    let mut tables = Signals::new(alloc);
    for number in order.as_slice() {
        if let Some(table) = netlist.tables().as_slice().get(*number as usize) {
            if value_at(kept, table.output as usize) {
                tables.push(*number)?;
            }
        }
    }
    Ok(tables)
}

/// Those of a netlist's latches that drive kept signals, by their numbers.
pub(crate) fn kept_latches(
    alloc: Global,
    netlist: &Netlist,
    kept: &Bits,
) -> Result<Signals, NoMemory> {
    let latches = netlist.latches().as_slice();
    let mut numbers = Signals::new(alloc);
    for place in 0..latches.len() {
        if value_at(kept, latches[place].output as usize) {
            push_number(&mut numbers, place)?;
        }
    }
    Ok(numbers)
}

/// Adds a number, if it is below 2^32.
fn push_number(numbers: &mut Signals, number: usize) -> Result<(), NoMemory> {
    match u32::try_from(number) {
        Ok(number) => numbers.push(number),
        Err(_) => Ok(()),
    }
}

/// The outputs of latches of these numbers.
fn outputs_of(alloc: Global, netlist: &Netlist, latches: &Signals) -> Result<Signals, NoMemory> {
    let mut outputs = Signals::new(alloc);
    for number in latches.as_slice() {
        if let Some(latch) = netlist.latches().as_slice().get(*number as usize) {
            outputs.push(latch.output)?;
        }
    }
    Ok(outputs)
}

/// For each of so many signals whether it is one of these.
fn marked(alloc: Global, count: u32, signals: &Signals) -> Result<Bits, NoMemory> {
    let mut bits = no_bits(alloc, count as usize)?;
    for signal in signals.as_slice() {
        set(&mut bits, *signal as usize);
    }
    Ok(bits)
}

/// Whether all that a table reads is among some signals.
fn reads_only(table: &Table, signals: &Bits) -> bool {
    for signal in table.inputs.as_slice() {
        if !value_at(signals, *signal as usize) {
            return false;
        }
    }
    true
}

/// Adds to some signals, and to their marks, those that they determine, by tables in their order.
fn add_determined(
    netlist: &Netlist,
    tables: &Signals,
    signals: &mut Signals,
    marks: &mut Bits,
) -> Result<(), NoMemory> {
    for number in tables.as_slice() {
        if let Some(table) = netlist.tables().as_slice().get(*number as usize) {
            if reads_only(table, marks) {
                set(marks, table.output as usize);
                signals.push(table.output)?;
            }
        }
    }
    Ok(())
}

/// Adds those of some signals that are kept behind others.
pub(crate) fn add_kept(signals: &mut Signals, more: &Signals, kept: &Bits) -> Result<(), NoMemory> {
    for signal in more.as_slice() {
        if value_at(kept, *signal as usize) {
            signals.push(*signal)?;
        }
    }
    Ok(())
}

impl SignalOrder {
    /// The signals on which what the automaton of some joint states asks hangs.
    pub fn new(alloc: Global, joint: &Joint) -> Result<SignalOrder, NoMemory> {
        let netlist = joint.netlist();
        let slice = joint.slice(alloc)?;
        let order = order_of(alloc, netlist)?;
        let tables = kept_tables(alloc, netlist, &order, &slice.now)?;
        let latches = kept_latches(alloc, netlist, &slice.now)?;
        let is_input = marked(alloc, netlist.signals(), netlist.inputs())?;
        let mut told = outputs_of(alloc, netlist, &latches)?;
        let mut marks = marked(alloc, netlist.signals(), &told)?;
        add_determined(netlist, &tables, &mut told, &mut marks)?;
        add_kept(&mut told, netlist.inputs(), &slice.now)?;
        Ok(SignalOrder {
            slice,
            latches,
            is_input,
            tables,
            told,
        })
    }

    /// Marks the signals from which marked ones are computed.
    pub fn mark_sources(&self, netlist: &Netlist, marks: &mut Bits) {
        let numbers = self.tables.as_slice();
        for back in 0..numbers.len() {
            let number = numbers[numbers.len() - 1 - back];
            if let Some(table) = netlist.tables().as_slice().get(number as usize) {
                if value_at(marks, table.output as usize) {
                    mark_all(marks, &table.inputs);
                }
            }
        }
    }
}

/// Marks some signals.
fn mark_all(marks: &mut Bits, signals: &Signals) {
    for signal in signals.as_slice() {
        set(marks, *signal as usize);
    }
}

/// Computes the outputs of some tables, in their order, that are not among some signals.
pub(crate) fn compute(netlist: &Netlist, order: &Signals, except: &Bits, values: &mut Ternaries) {
    let tables = netlist.tables().as_slice();
    for number in order.as_slice() {
        if let Some(table) = tables.get(*number as usize) {
            let output = table.output as usize;
            if !value_at(except, output) {
                let value = value_of_table(table, values);
                write(values, output, value);
            }
        }
    }
}
