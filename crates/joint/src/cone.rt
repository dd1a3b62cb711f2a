// The signals on which what an automaton asks hangs.
ghost use Rattle.std.specs.Prelude.{◌≡◌, length, replicate, false, IfOk, OnOk};

use crate::drivers::{Driver, Drivers, note_latches, table_drivers};
use crate::joined::Joint;
use crate::keeping::is_kept;
use crate::marking::{keep, mark_positive};
use crate::slice::Slice;
use netlist::{Netlist, Signals};
use psl_base::{Bits, NoMemory};
use std::alloc::Global;

// So many false values.
fn none_kept(alloc: Global, count: u32) -> Result<Bits, NoMemory>
    ensures { IfOk result (λ bits. length bits ≡ count) }
{
    let mut bits = Bits::new(alloc);
    for place in 0..count {
        bits.push(false)?;
    }
    Ok(bits)
}

// Those of so many signals that are kept, in order.
fn kept_of(alloc: Global, kept: &Bits, count: u32) -> Result<Signals, NoMemory> {
    let mut signals = Signals::new(alloc);
    for signal in 0..count {
        if is_kept(kept, signal) {
            signals.push(signal)?;
        }
    }
    Ok(signals)
}

// Keeps signals, and adds those that were not kept before to what was found.
fn find_all(kept: &mut Bits, found: &mut Signals, signals: &[u32]) -> Result<(), NoMemory>
    ensures { OnOk result (length kept.new ≡ length kept.old) }
{
    for signal in signals {
        if keep(kept, *signal) {
            found.push(*signal)?;
        }
    }
    Ok(())
}

// Keeps what a driver reads.
fn find_read(
    netlist: &Netlist,
    driver: Driver,
    kept: &mut Bits,
    found: &mut Signals,
) -> Result<(), NoMemory>
    ensures { OnOk result (length kept.new ≡ length kept.old) }
{
    match driver {
        Driver::Input => Ok(()),
        Driver::Table(number) => match netlist.tables().as_slice().get(number) {
            Some(table) => find_all(kept, found, table.inputs.as_slice()),
            None => Ok(()),
        },
        Driver::Latch(number) => match netlist.latches().as_slice().get(number) {
            Some(latch) => find_all(kept, found, &[latch.input]),
            None => Ok(()),
        },
    }
}

// Keeps all that feeds a kept signal.
fn spread(
    alloc: Global,
    netlist: &Netlist,
    drivers: &Drivers,
    kept: &mut Bits,
) -> Result<(), NoMemory>
    ensures { OnOk result (length kept.new ≡ length kept.old) }
{
    let mut found = kept_of(alloc, kept, netlist.signals())?;
    // Each signal is found at most once.
    for turn in 0..kept.len() {
        let Some(signal) = found.as_slice().get(turn) else {
            return Ok(());
        };
        if let Some(driver) = drivers.as_slice().get(*signal as usize) {
            find_read(netlist, *driver, kept, &mut found)?;
        }
    }
    Ok(())
}

// Keeps the signals that others keep.
fn keep_also(kept: &mut Bits, others: &Bits, signals: u32)
    ensures { length kept.new ≡ length kept.old }
{
    for signal in 0..signals {
        if is_kept(others, signal) {
            keep(kept, signal);
        }
    }
}

impl<'a> Joint<'a> {
    // The signals that the automaton tests.
    fn tested(&self, alloc: Global) -> Result<Slice, NoMemory>
        ensures now { IfOk result (λ slice. length slice.now ≡ self.now.design.signals) }
        ensures before { IfOk result (λ slice. length slice.before ≡ self.now.design.signals) }
        ensures tested { IfOk result (λ slice. length slice.tested ≡ self.now.design.signals) }
    {
        let (signals, violation) = (self.product.netlist.signals(), self.product.violation);
        let mut slice = Slice {
            now: none_kept(alloc, signals)?,
            before: none_kept(alloc, signals)?,
            tested: none_kept(alloc, signals)?,
        };
        for number in 0..violation.len() {
            mark_positive(violation.delta(number), &mut slice);
        }
        Ok(slice)
    }

    /// The signals on which what the automaton asks hangs: those that it tests, what feeds these through tables and
    /// latches, and of the valuation before those of which an edge is tested, and what feeds these through tables. Each of
    /// the slice's lists has a value for each signal.
    ///
    /// # Errors
    ///
    /// `NoMemory` if memory is refused.
    pub fn slice(&self, alloc: Global) -> Result<Slice, NoMemory>
        ensures now { IfOk result (λ slice. length slice.now ≡ self.now.design.signals) }
        ensures before { IfOk result (λ slice. length slice.before ≡ self.now.design.signals) }
        ensures tested { IfOk result (λ slice. length slice.tested ≡ self.now.design.signals) }
    {
        let netlist = self.product.netlist;
        let mut slice = self.tested(alloc)?;
        let mut drivers = table_drivers(alloc, netlist)?;
        spread(alloc, netlist, &drivers, &mut slice.before)?;
        keep_also(&mut slice.now, &slice.before, netlist.signals());
        note_latches(&mut drivers, netlist.latches().as_slice());
        spread(alloc, netlist, &drivers, &mut slice.now)?;
        Ok(slice)
    }
}
