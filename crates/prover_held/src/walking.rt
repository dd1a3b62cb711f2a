// The path that choices of values give.
ghost use Rattle.std.specs.Prelude.{◌≡◌, ◌<◌, ◌++◌, ℕ, true, false, [], length, map, slice_index_or, All, IfOk};
ghost use Rattle.gates_frames.specs.Paths.{valuation_of, IsPath};
ghost use Rattle.netlist.specs.Design.{free_of};
ghost use Rattle.netlist.specs.Valuations.{bit, values, IsFilled, IsInitial, IsStep, IsValuation};
ghost use Rattle.netlist.specs.declared.latch.Latch.{Latch as SomeLatch};
ghost use Rattle.prover_held.specs.Choices.{HasFirsts, HasInputs, IsFirst};

use crate::bits::no_bits;
use netlist::{Init, Latch, Netlist, Valuations, soundness_law};
use psl_base::{Bits, Items, NoMemory};
use std::alloc::Global;

/// Values of what a path is free in.
#[derive(Debug, Drop)]
pub struct Choices {
    /// A value for each latch, in the netlist's order: its first one, if it has no other.
    pub latches: Bits,
    /// For each valuation a value for each input, in the netlist's order.
    pub inputs: Items<Bits>,
}

/// The path from an initial valuation that choices give.
///
/// # Errors
///
/// `NoMemory` if memory is refused.
pub fn walk(alloc: Global, netlist: &Netlist, choices: &Choices) -> Result<Valuations, NoMemory>
    requires some { 0 < length choices.now.inputs }
    requires latches { length choices.now.latches ≡ length netlist.now.latches }
    requires inputs { All (λ values. length values ≡ length netlist.now.inputs) choices.now.inputs }
    ensures path { IfOk result (IsPath netlist.now true) }
    ensures size { IfOk result (λ path. length path ≡ length choices.now.inputs) }
    ensures inputs { IfOk result (λ path. HasInputs netlist.now path choices.now.inputs) }
    ensures latches { IfOk result (λ path. HasFirsts netlist.now.latches (valuation_of path 0) choices.now.latches) }
{
    let inputs = &choices.inputs;
    let first = first_valuation(alloc, netlist, choices.latches.as_slice(), inputs.at(0))?;
    follow(alloc, netlist, first, inputs)
}

/// The path that goes on from a valuation, which has the first ones of some inputs, with the others.
///
/// # Errors
///
/// `NoMemory` if memory is refused.
pub fn follow(
    alloc: Global,
    netlist: &Netlist,
    first: Bits,
    inputs: &Items<Bits>,
) -> Result<Valuations, NoMemory>
    requires some { 0 < length inputs.now }
    requires inputs { All (λ values. length values ≡ length netlist.now.inputs) inputs.now }
    requires valuation { IsValuation netlist.now first }
    requires begins { values first netlist.now.inputs ≡ slice_index_or inputs.now 0 [] }
    ensures path { IfOk result (IsPath netlist.now false) }
    ensures size { IfOk result (λ path. length path ≡ length inputs.now) }
    ensures inputs { IfOk result (λ path. HasInputs netlist.now path inputs.now) }
    ensures first { IfOk result (λ path. valuation_of path 0 ≡ first) }
{
    let mut path = Valuations::new(alloc);
    path.push(first)?;
    for place in 1..inputs.len() {
        let next = next_valuation(alloc, netlist, path.at(place - 1), inputs.at(place))?;
        path.push(next)?;
    }
    Ok(path)
}

// The initial valuation with these inputs, in which the latches that may have any first value have these.
fn first_valuation(
    alloc: Global,
    netlist: &Netlist,
    chosen: &[bool],
    inputs: &Bits,
) -> Result<Bits, NoMemory>
    requires latches { length chosen.now ≡ length netlist.now.latches }
    requires inputs { length inputs.now ≡ length netlist.now.inputs }
    ensures initial { IfOk result (IsInitial netlist.now) }
    ensures inputs { IfOk result (λ first. values first netlist.now.inputs ≡ inputs.now) }
    ensures latches { IfOk result (λ first. HasFirsts netlist.now.latches first chosen.now) }
{
    let values = first_values(alloc, netlist.latches().as_slice(), chosen)?;
    filled(alloc, netlist, inputs, values.as_slice())
}

// The valuation with these inputs that follows another one.
fn next_valuation(
    alloc: Global,
    netlist: &Netlist,
    earlier: &Bits,
    inputs: &Bits,
) -> Result<Bits, NoMemory>
    requires earlier { IsValuation netlist.now earlier.now }
    requires inputs { length inputs.now ≡ length netlist.now.inputs }
    ensures step { IfOk result (IsStep netlist.now earlier.now) }
    ensures inputs { IfOk result (λ next. values next netlist.now.inputs ≡ inputs.now) }
{
    soundness_law(netlist);
    let values = moved_values(alloc, netlist.latches().as_slice(), earlier.as_slice())?;
    filled(alloc, netlist, inputs, values.as_slice())
}

// The first values of latches; of those that may have any, these.
fn first_values(alloc: Global, latches: &[Latch], chosen: &[bool]) -> Result<Bits, NoMemory>
    requires { length chosen.now ≡ length latches.now }
    ensures size { IfOk result (λ values. length values ≡ length latches.now) }
    ensures begin { IfOk result (λ values. (place : ℕ) (other : SomeLatch) → place < length latches.now
        → IsFirst (slice_index_or latches.now place other).init (slice_index_or chosen.now place false)
        (slice_index_or values place false)) }
{
    let mut values = Bits::new(alloc);
    for (place, latch) in latches.iter().enumerate() {
        values.push(first_value(latch.init, chosen[place]))?;
    }
    Ok(values)
}

// The first value of a latch: this one, if it may have any.
fn first_value(init: Init, chosen: bool) -> bool
    ensures { IsFirst init chosen result }
{
    match init {
        Init::Zero => false,
        Init::One => true,
        Init::Free => chosen,
    }
}

// What the inputs of latches have in a valuation, which their outputs have in the next one.
fn moved_values(alloc: Global, latches: &[Latch], earlier: &[bool]) -> Result<Bits, NoMemory>
    requires { All (λ latch. latch.input < length earlier.now) latches.now }
    ensures { IfOk result (λ values. values ≡ map (λ latch. bit earlier.now latch.input) latches.now) }
{
    let mut values = Bits::new(alloc);
    for latch in latches {
        values.push(earlier[latch.input as usize])?;
    }
    Ok(values)
}

/// The valuation with these values of the inputs and of the latches, each in the netlist's order.
///
/// # Errors
///
/// `NoMemory` if memory is refused.
pub fn filled(
    alloc: Global,
    netlist: &Netlist,
    inputs: &Bits,
    latches: &[bool],
) -> Result<Bits, NoMemory>
    requires inputs { length inputs.now ≡ length netlist.now.inputs }
    requires latches { length latches.now ≡ length netlist.now.latches }
    ensures { IfOk result (IsFilled netlist.now (inputs.now ++ latches.now)) }
{
    let free = joined(alloc, inputs, latches)?;
    let mut valuation = no_bits(alloc, netlist.signals())?;
    netlist.evaluate(&free, &mut valuation);
    Ok(valuation)
}

// Bits, and then others.
fn joined(alloc: Global, front: &Bits, back: &[bool]) -> Result<Bits, NoMemory>
    ensures { IfOk result (λ bits. bits ≡ front.now ++ back.now) }
{
    let mut bits = front.copy(alloc)?;
    for bit in back {
        bits.push(*bit)?;
    }
    Ok(bits)
}
