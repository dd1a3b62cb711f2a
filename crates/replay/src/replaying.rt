ghost use Rattle.std.specs.Prelude.{IfOk, IfErr};
ghost use Rattle.replay.specs.Answers.{IsMissing, IsReplay};

use crate::answer::{Replay, ReplayFault};
use crate::bits::{bits_of, first_missing};
use crate::leaving::leaves;
use netlist::{Netlist, one_valuation_law, soundness_law};
use psl_base::Text;
use std::alloc::Global;
use trace::{first_places, first_text};
use vcd_reader::Recording;

/// Where a recording leaves a netlist, if it does: the first sample, and there the first signal by its number, whose value
/// is not what the netlist says. A latch has its first value at the first sample, and later the value of its input at the
/// sample before; the output of a table, where it is one bit of the recording, has the value that its rows say. The values
/// of tables are computed from the recorded inputs and latches. A signal of the netlist is looked up in the recording by its
/// first name, as a path without an index is, and is one signal of one bit there. Where nothing has the name, and an index
/// stands behind it, as in `count[3]`, the signal is the bit of that index of the one vector that the name without the index
/// stands for.
///
/// # Errors
/// `MissingSignal` where some input or latch is not one bit of the recording; `NoMemory` where the allocator refuses memory.
pub fn replay(
    alloc: Global,
    netlist: &Netlist,
    recording: &Recording,
) -> Result<Replay, ReplayFault>
    ensures answer { IfOk result (IsReplay netlist.now recording.now) }
    ensures missing { IfErr result (IsMissing netlist.now recording.now) }
{
    soundness_law(netlist);
    one_valuation_law(netlist);
    let names = netlist.names().as_slice();
    let first = first_places(alloc, names, netlist.signals())?;
    let bits = bits_of(alloc, netlist, &first, recording)?;
    if let Some(signal) = first_missing(netlist, &bits) {
        let name = Text::from_slice(alloc, first_text(names, &first, signal))?;
        return Err(ReplayFault::MissingSignal(name));
    }
    match leaves(alloc, netlist, recording, &bits)? {
        Some((sample, signal)) => {
            let name = Text::from_slice(alloc, first_text(names, &first, signal))?;
            Ok(Replay::Leaves(sample, signal, name))
        }
        None => Ok(Replay::Path),
    }
}
