ghost use Rattle.std.specs.Prelude.{◌≡◌, ℕ, ◌<◌, Bool as Truth, List, All, cond, map, length, IfOk};
ghost use Rattle.std.specs.List.{range_with_len};
ghost use Rattle.replay.specs.Leaving.{differ, differs_from, leaves, lower};
ghost use Rattle.replay.specs.ByBits.{AreBitsOf, differs_by, leaves_by, lowest_latch, lowest_table};
ghost use Rattle.replay.specs.Recorded.{AreComputed, recorded};

use crate::values::{free_count, free_values, no_hints, read_values, zeros};
use netlist::{Init, Latch, Netlist, Table, soundness_law};
use psl_base::NoMemory;
use psl_sugar::Bit;
use std::alloc::Global;
use vcd_reader::Recording;

/// The first sample, and there the first signal, where a recording leaves a netlist. All inputs and latches are recorded.
pub(crate) fn leaves(
    alloc: Global,
    netlist: &Netlist,
    recording: &Recording,
    bits: &[Option<Bit>],
) -> Result<Option<(u32, u32)>, NoMemory>
    requires bits { bits.now ≡ map (recorded netlist.now recording.now) (range_with_len 0 netlist.now.signals) }
    requires in_range { AreBitsOf recording.now.names bits.now }
    ensures { IfOk result (λ found. (valuations : ℕ → List Truth) → AreComputed netlist.now recording.now valuations → found ≡ leaves netlist.now recording.now valuations) }
{
    soundness_law(netlist);
    let signals = netlist.signals() as usize;
    let mut hints = no_hints(alloc, signals)?;
    let mut values = zeros(alloc, signals)?;
    let mut free = zeros(alloc, free_count(netlist))?;
    let mut earlier = zeros(alloc, signals)?;
    let mut valuation = zeros(alloc, signals)?;
    for sample in 0..recording.samples() {
        read_values(recording, sample, bits, &mut hints, &mut values);
        free_values(netlist, values.as_slice(), &mut free);
        netlist.evaluate(&free, &mut valuation);
        let at_first = sample == 0;
        let latches = leaving_latches(
            netlist.latches().as_slice(),
            at_first,
            earlier.as_slice(),
            values.as_slice(),
        );
        let first = leaving_tables(
            netlist.tables().as_slice(),
            latches,
            bits,
            valuation.as_slice(),
            values.as_slice(),
        );
        if let Some(signal) = first {
            return Ok(Some((sample, signal)));
        }
        let done = earlier;
        earlier = valuation;
        valuation = done;
    }
    Ok(None)
}

/// The lowest of the latches' outputs that leave the netlist, by their values and, unless at the first sample, by the
/// valuation before.
fn leaving_latches(
    latches: &[Latch],
    at_first: bool,
    earlier: &[bool],
    values: &[bool],
) -> Option<u32>
    requires inputs { All (λ latch. latch.input < length earlier.now) latches.now }
    requires outputs { All (λ latch. latch.output < length values.now) latches.now }
    ensures { result ≡ lowest_latch latches.now at_first earlier.now values.now }
{
    let mut lowest = None;
    for latch in latches {
        lowest = lower_if(
            leaves_by(at_first, earlier, values, latch),
            lowest,
            latch.output,
        );
    }
    lowest
}

/// Whether the value of a latch is not the one that the netlist says.
fn leaves_by(at_first: bool, earlier: &[bool], values: &[bool], latch: &Latch) -> bool
    requires input { latch.now.input < length earlier.now }
    requires output { latch.now.output < length values.now }
    ensures { result ≡ leaves_by at_first earlier.now values.now latch.now }
{
    let value = values[latch.output as usize];
    if at_first {
        differs_from(latch.init, value)
    } else {
        differ(value, earlier[latch.input as usize])
    }
}

/// Whether a value is not the first one of a latch.
fn differs_from(init: Init, value: bool) -> bool
    ensures { result ≡ differs_from init value }
{
    match init {
        Init::Zero => value,
        Init::One => !value,
        Init::Free => false,
    }
}

/// The lowest of the recorded outputs of tables that have not the value of the valuation, or of them and an older number.
fn leaving_tables(
    tables: &[Table],
    before: Option<u32>,
    bits: &[Option<Bit>],
    valuation: &[bool],
    values: &[bool],
) -> Option<u32>
    requires bits { All (λ table. table.output < length bits.now) tables.now }
    requires valuation { All (λ table. table.output < length valuation.now) tables.now }
    requires values { All (λ table. table.output < length values.now) tables.now }
    ensures { result ≡ lowest_table tables.now before bits.now valuation.now values.now }
{
    let mut lowest = before;
    for table in tables {
        lowest = lower_if(
            differs_by(bits, valuation, values, table),
            lowest,
            table.output,
        );
    }
    lowest
}

/// Whether the output of a table is recorded and has not the value of the valuation.
fn differs_by(bits: &[Option<Bit>], valuation: &[bool], values: &[bool], table: &Table) -> bool
    requires bit { table.now.output < length bits.now }
    requires valuation { table.now.output < length valuation.now }
    requires value { table.now.output < length values.now }
    ensures { result ≡ differs_by bits.now valuation.now values.now table.now }
{
    let output = table.output as usize;
    bits[output].is_some() && differ(values[output], valuation[output])
}

/// Whether two values differ.
fn differ(one: bool, other: bool) -> bool
    ensures { result ≡ differ one other }
{
    one != other
}

/// The lower of a number and an older one, where the number counts.
fn lower_if(counts: bool, old: Option<u32>, number: u32) -> Option<u32>
    ensures { result ≡ cond counts (lower old number) old }
{
    if counts { lower(old, number) } else { old }
}

/// The lower of a number and an older one, where that is there.
fn lower(old: Option<u32>, number: u32) -> Option<u32>
    ensures { result ≡ lower old number }
{
    match old {
        Some(other) => Some(if number < other { number } else { other }),
        None => Some(number),
    }
}
