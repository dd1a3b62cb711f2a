ghost use Rattle.std.specs.Prelude.{◌≡◌, [], ◌∷◌, ◌++◌, length, IfOk, OnOk};
ghost use Rattle.netlist.specs.Runs.{IsMade};
ghost use Rattle.trace.specs.Codes.{code_of, codes_of};
ghost use Rattle.trace.specs.FirstPlaces.{TellsFirst};
ghost use Rattle.trace.specs.Trace.{count_of, declaration_of, declarations, trace_text, valuation_in};
ghost use Rattle.vcd_writer.specs.Lines.{digit, line, samples_from, value_lines};

use crate::codes::add_code;
use crate::lengths::length_of;
use crate::names::{first_places, first_text};
use crate::printed::add_printed;
use crate::valuations::{count_of, valuation_in};
use netlist::{Netlist, Run, soundness_law};
use psl_base::{Bytes, NoMemory, add_bytes};
use psl_tree::Name;
use std::alloc::Global;
use vcd_writer::add_time;

/// How many bytes a text has at most: more are in no memory.
const MOST_BYTES: u64 = 0x7fff_ffff_ffff_ffff;

/// The text of a recording of a run, or of any stem and loop of valuations: of its stem, and of its loop so many times. Signal `i` of the netlist, counted from
/// 0, has its first name and the code `i` in base 94, the lowest digit first, each digit `d` as the byte `33 + d`. A name
/// that is `$end`, or ends in a range of one index, has `_` behind it. The times are the numbers of the valuations,
/// from 0; at each of them all signals have their values, in the order of their numbers.
///
/// # Errors
/// `NoMemory` where the allocator refuses memory.
pub fn write_trace(
    alloc: Global,
    netlist: &Netlist,
    run: &Run,
    loops: u32,
) -> Result<Bytes, NoMemory>
    requires { IsMade netlist.now run.now }
    ensures { IfOk result (λ text. text ≡ trace_text netlist.now run.now loops) }
{
    soundness_law(netlist);
    let names = netlist.names().as_slice();
    let first = first_places(alloc, names, netlist.signals())?;
    let mut text = with_room(alloc, length_of(netlist, &first, run, loops, MOST_BYTES))?;
    add_declarations(&mut text, names, &first, netlist.signals())?;
    add_bytes(&mut text, b"$enddefinitions $end\n")?;
    add_samples(&mut text, netlist, run, loops)?;
    Ok(Bytes::from_vec(text))
}

/// An empty text with room for so many bytes; none is a number of bytes that no memory has.
fn with_room(alloc: Global, length: Option<u64>) -> Result<Vec<u8>, NoMemory>
    ensures { IfOk result (λ text. text.items ≡ []) }
{
    match length {
        Some(length) => Ok(Vec::with_capacity(alloc, length as usize)?),
        None => Err(NoMemory),
    }
}

/// Adds the declarations of the first signals.
fn add_declarations(
    text: &mut Vec<u8>,
    names: &[Name],
    first: &[usize],
    signals: u32,
) -> Result<(), NoMemory>
    requires size { length first.now ≡ signals }
    requires first { TellsFirst names.now signals first.now }
    ensures { OnOk result (text.new.items ≡ text.old.items ++ declarations names.now signals) }
{
    for signal in 0..signals {
        add_declaration(text, first_text(names, first, signal), signal)?;
    }
    Ok(())
}

/// Adds the declaration of a signal of one bit.
fn add_declaration(text: &mut Vec<u8>, name: &[u8], signal: u32) -> Result<(), NoMemory>
    ensures { OnOk result (text.new.items ≡ text.old.items ++ declaration_of name.now signal) }
{
    add_bytes(text, b"$var wire 1 ")?;
    add_code(text, signal as u64)?;
    add_bytes(text, b" ")?;
    add_printed(text, name)?;
    add_bytes(text, b" $end\n")?;
    Ok(())
}

/// Adds the samples of a run.
fn add_samples(text: &mut Vec<u8>, netlist: &Netlist, run: &Run, loops: u32) -> Result<(), NoMemory>
    requires { IsMade netlist.now run.now }
    ensures { OnOk result (text.new.items ≡ text.old.items ++ samples_from (codes_of netlist.now.signals) (valuation_in run.now) 0 (count_of run.now loops)) }
{
    let Some(count) = count_of(run, loops) else {
        return Err(NoMemory);
    };
    for sample in 0..count {
        add_time(text, sample as u64)?;
        add_values(text, valuation_in(run, sample), netlist.signals())?;
    }
    Ok(())
}

/// Adds the values of all signals, each with its code.
fn add_values(text: &mut Vec<u8>, values: &[bool], signals: u32) -> Result<(), NoMemory>
    requires { length values.now ≡ signals }
    ensures { OnOk result (text.new.items ≡ text.old.items ++ value_lines (codes_of signals) values.now) }
{
    for signal in 0..signals {
        add_value(text, values[signal as usize], signal)?;
    }
    Ok(())
}

/// Adds the value of a signal.
fn add_value(text: &mut Vec<u8>, value: bool, signal: u32) -> Result<(), NoMemory>
    ensures { OnOk result (text.new.items ≡ text.old.items ++ line (digit value ∷ code_of signal)) }
{
    text.push(if value { b'1' } else { b'0' })?;
    add_code(text, signal as u64)?;
    text.push(b'\n')?;
    Ok(())
}
