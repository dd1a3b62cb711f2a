// The pair of states that a model over a slice stands for. The signals outside the slice have any values in such a model,
// so both valuations are evaluated anew from what drives them.
ghost use Rattle.std.specs.Prelude.{◌≡◌, ◌+◌, ◌≤◌, length, IfOk, OnOk};
ghost use Rattle.joint_theory.specs.Bits.{joint_width};
ghost use Rattle.netlist.specs.Design.{free_of};

use crate::reading::{bits_in, value_at};
use joint::Joint;
use netlist::{Latch, Netlist};
use psl_base::{Bits, NoMemory};
use reach_frames::Entry;
use std::alloc::Global;

/// So many bits that are not set.
fn no_bits(alloc: Global, count: u32) -> Result<Bits, NoMemory>
    ensures { IfOk result (λ bits. length bits ≡ count) }
{
    let mut bits = Bits::new(alloc);
    for _ in 0..count {
        bits.push(false)?;
    }
    Ok(bits)
}

/// More bits behind some.
fn append(bits: &mut Bits, more: &Bits) -> Result<(), NoMemory> {
    for bit in more.as_slice() {
        bits.push(*bit)?;
    }
    Ok(())
}

/// The values of signals in a valuation whose bits stand from a place on.
fn values_of(alloc: Global, signals: &[u32], values: &Bits, start: u32) -> Result<Bits, NoMemory>
    ensures { IfOk result (λ bits. length bits ≡ length signals.now) }
{
    let mut bits = Bits::new(alloc);
    for signal in signals {
        bits.push(value_at(values, start as usize + *signal as usize))?;
    }
    Ok(bits)
}

/// The same of the outputs of latches, behind what is there.
fn push_outputs(
    bits: &mut Bits,
    latches: &[Latch],
    values: &Bits,
    start: u32,
) -> Result<(), NoMemory>
    ensures { OnOk result (length bits.new ≡ length bits.old + length latches.now) }
{
    for latch in latches {
        bits.push(value_at(values, start as usize + latch.output as usize))?;
    }
    Ok(())
}

/// What the inputs of latches have in a valuation, behind what is there: what their outputs have in the next one.
fn push_moved(bits: &mut Bits, latches: &[Latch], valuation: &Bits) -> Result<(), NoMemory>
    ensures { OnOk result (length bits.new ≡ length bits.old + length latches.now) }
{
    for latch in latches {
        bits.push(value_at(valuation, latch.input as usize))?;
    }
    Ok(())
}

/// The valuation in which the signals that no table drives have these values.
fn filled(alloc: Global, netlist: &Netlist, free: &Bits) -> Result<Bits, NoMemory>
    requires { length free.now ≡ length (free_of netlist.now) }
{
    let mut valuation = no_bits(alloc, netlist.signals())?;
    netlist.evaluate(free, &mut valuation);
    Ok(valuation)
}

/// The valuation whose inputs and latches have the values that stand from a place on.
fn evaluated(
    alloc: Global,
    netlist: &Netlist,
    values: &Bits,
    start: u32,
) -> Result<Bits, NoMemory> {
    let mut free = values_of(alloc, netlist.inputs().as_slice(), values, start)?;
    push_outputs(&mut free, netlist.latches().as_slice(), values, start)?;
    filled(alloc, netlist, &free)
}

/// The valuation that follows one, whose inputs have the values that stand from a place on.
fn evaluated_next(
    alloc: Global,
    netlist: &Netlist,
    valuation: &Bits,
    values: &Bits,
    start: u32,
) -> Result<Bits, NoMemory> {
    let mut free = values_of(alloc, netlist.inputs().as_slice(), values, start)?;
    push_moved(&mut free, netlist.latches().as_slice(), valuation)?;
    filled(alloc, netlist, &free)
}

/// The valuation before the first state, if there is one.
fn evaluated_before(alloc: Global, netlist: &Netlist, values: &Bits) -> Result<Bits, NoMemory> {
    if value_at(values, 0) {
        evaluated(alloc, netlist, values, 1)
    } else {
        no_bits(alloc, netlist.signals())
    }
}

/// What a state has beside its valuations: what is owed and pending, and the count, of the state whose bits stand from a
/// place on.
fn rest_of(alloc: Global, joint: &Joint, values: &Bits, base: u32) -> Result<Bits, NoMemory>
    requires { base ≤ joint_width joint.now.design joint.now.automaton joint.now.visits }
{
    let width = joint.state_bits();
    let signals = joint.netlist().signals();
    let narrow = 1 + signals + signals;
    bits_in(alloc, values, base + narrow, width - narrow)
}

/// The bits of a state: whether a valuation is before it, that valuation, its own, and the rest.
fn state_of(
    alloc: Global,
    had: bool,
    before: &Bits,
    valuation: &Bits,
    rest: &Bits,
) -> Result<Bits, NoMemory> {
    let mut bits = Bits::new(alloc);
    bits.push(had)?;
    append(&mut bits, before)?;
    append(&mut bits, valuation)?;
    append(&mut bits, rest)?;
    Ok(bits)
}

/// The first state, with this valuation.
fn first_state(
    alloc: Global,
    joint: &Joint,
    values: &Bits,
    valuation: &Bits,
) -> Result<Bits, NoMemory> {
    let before = evaluated_before(alloc, joint.netlist(), values)?;
    let rest = rest_of(alloc, joint, values, 0)?;
    state_of(alloc, value_at(values, 0), &before, valuation, &rest)
}

/// The second state, where the first has this valuation.
fn second_state(
    alloc: Global,
    joint: &Joint,
    values: &Bits,
    valuation: &Bits,
) -> Result<Bits, NoMemory> {
    let netlist = joint.netlist();
    let width = joint.state_bits();
    let start = width + 1 + netlist.signals();
    let next = evaluated_next(alloc, netlist, valuation, values, start)?;
    let rest = rest_of(alloc, joint, values, width)?;
    state_of(alloc, true, valuation, &next, &rest)
}

/// The pair of states that a model over a slice stands for. Whether it is one of two neighbours is not said.
pub(crate) fn completed(alloc: Global, joint: &Joint, values: &Bits) -> Result<Entry, NoMemory> {
    joint.state_bits();
    let netlist = joint.netlist();
    let valuation = evaluated(alloc, netlist, values, 1 + netlist.signals())?;
    let before = first_state(alloc, joint, values, &valuation)?;
    let after = second_state(alloc, joint, values, &valuation)?;
    Ok(Entry { before, after })
}
