ghost use Rattle.std.specs.Prelude.{◌≡◌, ◌+◌, ◌<◌, map, length, replicate, false, All, IfOk, IfSome};
ghost use Rattle.netlist.specs.Design.{free_of};
ghost use Rattle.netlist.specs.Valuations.{values};
ghost use Rattle.psl_tree.specs.Names.{AtomInRange};
ghost use Rattle.replay.specs.ByBits.{AreBitsOf, atom_of};
ghost use Rattle.replay.specs.Recorded.{value_of};

use netlist::{Latch, Netlist, soundness_law};
use psl_base::{Bits, NoMemory};
use psl_sugar::Bit;
use psl_tree::{Atom, Edge};
use std::alloc::Global;
use vcd_reader::Recording;

/// So many zeros.
pub(crate) fn zeros(alloc: Global, count: usize) -> Result<Bits, NoMemory>
    ensures { IfOk result (λ bits. bits ≡ replicate count false) }
{
    Ok(Bits::from_vec(vec![in alloc; false; count]?))
}

/// So many hints for looking values up.
pub(crate) fn no_hints(alloc: Global, count: usize) -> Result<Vec<usize>, NoMemory>
    ensures { IfOk result (λ hints. length hints.items ≡ count) }
{
    let hints = vec![in alloc; 0; count]?;
    Ok(hints)
}

/// The values of recorded bits at a sample, 0 where there is none.
pub(crate) fn read_values(
    recording: &Recording,
    sample: u32,
    bits: &[Option<Bit>],
    hints: &mut [usize],
    into: &mut Bits,
)
    requires sample { sample < length recording.now.samples }
    requires in_range { AreBitsOf recording.now.names bits.now }
    requires hints { length hints.old ≡ length bits.now }
    requires room { length into.old ≡ length bits.now }
    ensures values { into.new ≡ map (value_of recording.now sample) bits.now }
    ensures hints { length hints.new ≡ length bits.now }
{
    for place in 0..bits.len() {
        let value = value_at(recording, sample, bits[place], &mut hints[place]);
        into.set(place, value);
    }
}

/// The value of a recorded bit at a sample, 0 where there is none.
fn value_at(recording: &Recording, sample: u32, bit: Option<Bit>, hint: &mut usize) -> bool
    requires sample { sample < length recording.now.samples }
    requires in_range { IfSome bit (λ some. AtomInRange recording.now.names (atom_of some)) }
    ensures { result ≡ value_of recording.now sample bit }
{
    match bit {
        Some(bit) => {
            let atom = Atom {
                signal: bit.signal,
                bit: bit.place,
                edge: Edge::Value,
            };
            recording.bit_near(sample, &atom, hint)
        }
        None => false,
    }
}

/// How many inputs and latches there are.
pub(crate) fn free_count(netlist: &Netlist) -> usize
    ensures { result ≡ length (free_of netlist.now) }
{
    let inputs = netlist.inputs().as_slice();
    let latches = netlist.latches().as_slice();
    inputs.len() + latches.len()
}

/// The values of inputs and latches, in the order in which a netlist lists them.
pub(crate) fn free_values(netlist: &Netlist, of_signals: &[bool], into: &mut Bits)
    requires signals { length of_signals.now ≡ netlist.now.signals }
    requires room { length into.old ≡ length (free_of netlist.now) }
    ensures { into.new ≡ values of_signals.now (free_of netlist.now) }
{
    soundness_law(netlist);
    let inputs = netlist.inputs().as_slice();
    let latches = netlist.latches().as_slice();
    for (place, signal) in inputs.iter().enumerate() {
        into.set(place, of_signals[*signal as usize]);
    }
    for (place, latch) in latches.iter().enumerate() {
        into.set(inputs.len() + place, of_signals[latch.output as usize]);
    }
}
