ghost use Rattle.std.specs.Prelude.{◌≡◌, ◌∷◌, length, decimal, IfOk};
ghost use Rattle.netlist.specs.Runs.{IsMade};
ghost use Rattle.trace.specs.Codes.{codes_of};
ghost use Rattle.trace.specs.FirstPlaces.{TellsFirst};
ghost use Rattle.trace.specs.Lengths.{plus, values_size, within};
ghost use Rattle.trace.specs.Trace.{count_of, declaration_of, declarations, trace_text, valuation_in};
ghost use Rattle.vcd_writer.specs.Lines.{line, samples_from};

use crate::codes::code_length;
use crate::names::{first_places, first_text};
use crate::printed::printed_length;
use crate::valuations::count_of;
use itoa::Buffer;
use netlist::{Netlist, Run, soundness_law};
use psl_base::NoMemory;
use psl_tree::Name;
use std::alloc::Global;

/// How many bytes the trace of a run has, its loop so many times, where these are at most so many. The trace is not
/// built: memory is taken for a number a signal alone.
///
/// # Errors
/// `NoMemory` where the allocator refuses memory.
pub fn trace_length(
    alloc: Global,
    netlist: &Netlist,
    run: &Run,
    loops: u32,
    most: u64,
) -> Result<Option<u64>, NoMemory>
    requires { IsMade netlist.now run.now }
    ensures { IfOk result (λ found. found ≡ within most (length (trace_text netlist.now run.now loops))) }
{
    soundness_law(netlist);
    let first = first_places(alloc, netlist.names().as_slice(), netlist.signals())?;
    Ok(length_of(netlist, &first, run, loops, most))
}

/// The same by the places of the first names.
pub(crate) fn length_of(
    netlist: &Netlist,
    first: &[usize],
    run: &Run,
    loops: u32,
    most: u64,
) -> Option<u64>
    requires run { IsMade netlist.now run.now }
    requires size { length first.now ≡ netlist.now.signals }
    requires first { TellsFirst netlist.now.names netlist.now.signals first.now }
    ensures { result ≡ within most (length (trace_text netlist.now run.now loops)) }
{
    let signals = netlist.signals();
    let declared = declarations_length(netlist.names().as_slice(), first, signals, most);
    let defined = plus(most, declared, within(most, 21));
    plus(most, defined, samples_length(netlist, run, loops, most))
}

/// How many bytes the declarations of the first signals have.
fn declarations_length(names: &[Name], first: &[usize], signals: u32, most: u64) -> Option<u64>
    requires size { length first.now ≡ signals }
    requires first { TellsFirst names.now signals first.now }
    ensures { result ≡ within most (length (declarations names.now signals)) }
{
    let mut sum = within(most, 0);
    for signal in 0..signals {
        let more = declaration_length(first_text(names, first, signal), signal, most);
        sum = plus(most, sum, more);
    }
    sum
}

/// How many bytes the declaration of a signal has.
fn declaration_length(name: &[u8], signal: u32, most: u64) -> Option<u64>
    ensures { result ≡ within most (length (declaration_of name.now signal)) }
{
    let words = within(most, code_length(signal) + 19);
    plus(most, words, within(most, printed_length(name)))
}

/// How many bytes the samples of a run have.
fn samples_length(netlist: &Netlist, run: &Run, loops: u32, most: u64) -> Option<u64>
    requires { IsMade netlist.now run.now }
    ensures { result ≡ within most (length (samples_from (codes_of netlist.now.signals) (valuation_in run.now) 0 (count_of run.now loops))) }
{
    match count_of(run, loops) {
        Some(count) => first_samples(netlist, run, count, most),
        None => None,
    }
}

/// How many bytes the first samples of a run have.
fn first_samples(netlist: &Netlist, run: &Run, count: usize, most: u64) -> Option<u64>
    requires { IsMade netlist.now run.now }
    ensures { result ≡ within most (length (samples_from (codes_of netlist.now.signals) (valuation_in run.now) 0 count)) }
{
    let values = values_length(netlist.signals(), most);
    let mut sum = within(most, 0);
    for sample in 0..count {
        sum = plus(
            most,
            sum,
            plus(most, time_length(sample as u64, most), values),
        );
        if sum.is_none() {
            return None;
        }
    }
    sum
}

/// How many bytes the line of a time has.
fn time_length(time: u64, most: u64) -> Option<u64>
    ensures { result ≡ within most (length (line (35 ∷ decimal time))) }
{
    within(most, Buffer::new().format(time).len() as u64 + 2)
}

/// How many bytes the lines of the values of the first signals have.
fn values_length(signals: u32, most: u64) -> Option<u64>
    ensures { result ≡ within most (values_size (codes_of signals)) }
{
    let mut sum = within(most, 0);
    for signal in 0..signals {
        sum = plus(most, sum, within(most, code_length(signal) + 2));
    }
    sum
}

/// A number, where it is at most so large.
fn within(most: u64, number: u64) -> Option<u64>
    ensures { result ≡ within most number }
{
    if number <= most { Some(number) } else { None }
}

/// The sum of two numbers, where both are there and it is at most so large.
fn plus(most: u64, left: Option<u64>, right: Option<u64>) -> Option<u64>
    ensures { result ≡ plus most left right }
{
    let sum = left?.checked_add(right?)?;
    within(most, sum)
}
