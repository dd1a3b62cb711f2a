// The signals that no table drives.
ghost use Rattle.std.specs.Prelude.{◌≡◌, ◌<◌, ◌∷◌, ◌++◌, [], cond, filter, map, length, All, IfOk, OnOk};
ghost use Rattle.netlist.specs.Design.{free_of};
ghost use Rattle.netlist.specs.Valuations.{bit};

use netlist::{Latch, Netlist, Signals};
use psl_base::NoMemory;
use std::alloc::Global;

// Signals, and then the outputs of latches.
fn with_latches(alloc: Global, signals: &[u32], latches: &[Latch]) -> Result<Signals, NoMemory>
    ensures { IfOk result (λ all. all ≡ signals.now ++ map (λ latch. latch.output) latches.now) }
{
    let mut all = Signals::from_slice(alloc, signals)?;
    for latch in latches {
        all.push(latch.output)?;
    }
    Ok(all)
}

/// The inputs of a netlist, and then the outputs of its latches.
pub(crate) fn free_signals(alloc: Global, netlist: &Netlist) -> Result<Signals, NoMemory>
    ensures { IfOk result (λ free. free ≡ free_of netlist.now) }
{
    with_latches(
        alloc,
        netlist.inputs().as_slice(),
        netlist.latches().as_slice(),
    )
}

// One signal more, if it is kept.
fn keep(those: &mut Signals, signal: u32, is_kept: bool) -> Result<(), NoMemory>
    ensures { OnOk result (those.new ≡ those.old ++ cond is_kept (signal ∷ []) []) }
{
    if is_kept { those.push(signal) } else { Ok(()) }
}

/// Those of some signals that are kept.
pub(crate) fn kept_of(alloc: Global, signals: &[u32], kept: &[bool]) -> Result<Signals, NoMemory>
    requires { All (λ signal. signal < length kept.now) signals.now }
    ensures { IfOk result (λ those. those ≡ filter (bit kept.now) signals.now) }
{
    let mut those = Signals::new(alloc);
    for signal in signals {
        keep(&mut those, *signal, kept[*signal as usize])?;
    }
    Ok(those)
}
