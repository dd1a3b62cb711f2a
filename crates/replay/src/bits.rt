ghost use Rattle.std.specs.Prelude.{◌≡◌, ◌<◌, length, map, All, IfOk};
ghost use Rattle.std.specs.List.{range_with_len};
ghost use Rattle.netlist.specs.Design.{free_of};
ghost use Rattle.psl_layer_theory.specs.Buses.{indexed};
ghost use Rattle.psl_layer_theory.specs.References as references;
ghost use Rattle.replay.specs.ByBits.{AreBitsOf, missing_among};
ghost use Rattle.replay.specs.Recorded.{bit_found, bit_indexed, bit_named, bit_with_index, recorded};
ghost use Rattle.trace.specs.FirstPlaces.{TellsFirst};

use netlist::{Latch, Netlist, soundness_law};
use psl_base::NoMemory;
use psl_layer_theory::Found;
use psl_names::{NameIndex, split_index};
use psl_sugar::Bit;
use std::alloc::Global;
use trace::first_text;
use vcd_reader::Recording;

/// By the number of a signal of the netlist, the bit of the recording that it stands for.
pub(crate) fn bits_of(
    alloc: Global,
    netlist: &Netlist,
    first: &[usize],
    recording: &Recording,
) -> Result<Vec<Option<Bit>>, NoMemory>
    requires size { length first.now ≡ netlist.now.signals }
    requires first { TellsFirst netlist.now.names netlist.now.signals first.now }
    ensures bits { IfOk result (λ bits. bits.items ≡ map (recorded netlist.now recording.now) (range_with_len 0 netlist.now.signals)) }
    ensures in_range { IfOk result (λ bits. AreBitsOf recording.now.names bits.items) }
{
    let index = NameIndex::of(alloc, recording.names())?;
    let names = netlist.names().as_slice();
    let mut bits = Vec::new(alloc);
    for signal in 0..netlist.signals() {
        let bit = bit_named(&index, first_text(names, first, signal));
        bits.push(bit)?;
    }
    Ok(bits)
}

/// The bit that a text stands for among names: the only one of a signal, or else the one of a vector whose index stands
/// behind the text.
pub fn bit_named(names: &NameIndex, text: &[u8]) -> Option<Bit>
    ensures { result ≡ bit_named names.now text.now }
{
    match names.look_up(text) {
        Found::Nothing => bit_indexed(names, text),
        found => bit_found(found),
    }
}

/// The bit of what was found, where that is one signal of one bit.
fn bit_found(found: Found) -> Option<Bit>
    ensures { result ≡ bit_found found }
{
    match found {
        Found::One {
            signal,
            left,
            right,
        } if left == right => Some(Bit { signal, place: 0 }),
        _ => None,
    }
}

/// The bit that a text with an index behind it stands for.
fn bit_indexed(names: &NameIndex, text: &[u8]) -> Option<Bit>
    ensures { result ≡ bit_indexed names.now (indexed text.now) }
{
    match split_index(text) {
        Some(name) => bit_with_index(names.look_up(name.text), name.index),
        None => None,
    }
}

/// The bit of what was found that has an index, where that is one signal of several bits.
fn bit_with_index(found: Found, index: u32) -> Option<Bit>
    ensures { result ≡ bit_with_index found index }
{
    match found {
        Found::One {
            signal,
            left,
            right,
        } if left != right && is_index(left, right, index) => Some(Bit {
            signal,
            place: index.abs_diff(right),
        }),
        _ => None,
    }
}

/// Whether a number is an index from one end of a range to the other.
fn is_index(left: u32, right: u32, index: u32) -> bool
    ensures { result ≡ references.is_index left right index }
{
    (left <= index && index <= right) || (right <= index && index <= left)
}

/// The first input or latch, as listed, that stands for none.
pub(crate) fn first_missing(netlist: &Netlist, bits: &[Option<Bit>]) -> Option<u32>
    requires { length bits.now ≡ netlist.now.signals }
    ensures { result ≡ missing_among bits.now (free_of netlist.now) }
{
    soundness_law(netlist);
    match missing_input(netlist.inputs().as_slice(), bits) {
        Some(signal) => Some(signal),
        None => missing_latch(netlist.latches().as_slice(), bits),
    }
}

/// The first of some signals that stands for none.
fn missing_input(signals: &[u32], bits: &[Option<Bit>]) -> Option<u32>
    requires { All (λ signal. signal < length bits.now) signals.now }
    ensures { result ≡ missing_among bits.now signals.now }
{
    for signal in signals {
        if bits[*signal as usize].is_none() {
            return Some(*signal);
        }
    }
    None
}

/// The first output of a latch that stands for none.
fn missing_latch(latches: &[Latch], bits: &[Option<Bit>]) -> Option<u32>
    requires { All (λ latch. latch.output < length bits.now) latches.now }
    ensures { result ≡ missing_among bits.now (map (λ latch. latch.output) latches.now) }
{
    for latch in latches {
        if bits[latch.output as usize].is_none() {
            return Some(latch.output);
        }
    }
    None
}
