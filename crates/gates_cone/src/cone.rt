ghost use Rattle.std.specs.Prelude.{◌≡◌, ℕ, ◌<◌, ◌++◌, false, length, map, replicate, All, IfOk};
ghost use Rattle.netlist.specs.Valuations.{bit};
ghost use Rattle.gates_cone.specs.Cones.{with_latches, IsLeast};
ghost use Rattle.gates_cone.specs.Fed.{cone_in};

use crate::drivers::drivers_of;
use crate::keeping::keep_all;
use crate::spreading::spread;
use netlist::{Latch, Netlist, Signals, soundness_law};
use psl_base::{Bits, NoMemory};
use std::alloc::Global;

// So many signals of which none is kept.
fn none_kept(alloc: Global, count: u32) -> Result<Vec<bool>, NoMemory>
    ensures { IfOk result (λ kept. kept.items ≡ replicate count false) }
{
    let mut kept = Vec::new(alloc);
    kept.resize(count as usize, false)?;
    Ok(kept)
}

/// The signals that feed some, through tables and latches, and these themselves: of each signal whether it is one.
///
/// # Errors
///
/// `NoMemory` if memory is refused.
pub fn cone_of(alloc: Global, netlist: &Netlist, signals: &[u32]) -> Result<Bits, NoMemory>
    requires { All (λ signal. signal < netlist.now.signals) signals.now }
    ensures size { IfOk result (λ cone. length cone ≡ netlist.now.signals) }
    ensures least { IfOk result (λ cone. IsLeast netlist.now signals.now (bit cone)) }
    ensures is { IfOk result (λ cone. (signal : ℕ) → signal < netlist.now.signals
        → bit cone signal ≡ cone_in netlist.now signals.now signal) }
{
    soundness_law(netlist);
    let drivers = drivers_of(alloc, netlist)?;
    let mut kept = none_kept(alloc, netlist.signals())?;
    let mut found = Vec::new(alloc);
    keep_all(&mut kept, &mut found, signals)?;
    spread(netlist, &drivers, &mut kept, &mut found)?;
    Ok(Bits::from_vec(kept))
}

// Some signals, and the outputs of latches.
fn with_outputs(alloc: Global, signals: &[u32], latches: &[Latch]) -> Result<Signals, NoMemory>
    ensures { IfOk result (λ all. all ≡ signals.now ++ map (λ latch. latch.output) latches.now) }
{
    let mut all = Signals::from_slice(alloc, signals)?;
    for latch in latches {
        all.push(latch.output)?;
    }
    Ok(all)
}

/// The signals that feed some or any latch, and these themselves with the outputs of all latches.
///
/// # Errors
///
/// `NoMemory` if memory is refused.
pub fn cone_with_latches(
    alloc: Global,
    netlist: &Netlist,
    signals: &[u32],
) -> Result<Bits, NoMemory>
    requires { All (λ signal. signal < netlist.now.signals) signals.now }
    ensures size { IfOk result (λ cone. length cone ≡ netlist.now.signals) }
    ensures least { IfOk result (λ cone. IsLeast netlist.now (with_latches netlist.now signals.now) (bit cone)) }
    ensures is { IfOk result (λ cone. (signal : ℕ) → signal < netlist.now.signals
        → bit cone signal ≡ cone_in netlist.now (with_latches netlist.now signals.now) signal) }
{
    soundness_law(netlist);
    let all = with_outputs(alloc, signals, netlist.latches().as_slice())?;
    cone_of(alloc, netlist, all.as_slice())
}
