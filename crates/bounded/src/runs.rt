// The run that a model gives.
ghost use Rattle.std.specs.Prelude.{◌≡◌, ◌+◌, ◌*◌, ◌<◌, ◌≤◌, suc, false, length, map, slice_index_or, All, IfOk, IsTrue};
ghost use Rattle.std.specs.List.{range_with_len};
ghost use Rattle.bounded_theory.specs.Found.{first_passing, IsFound};
ghost use Rattle.clauses.specs.Literals.{is_literal};
ghost use Rattle.clauses.specs.Models.{is_true, IsModel};
ghost use Rattle.gates_builder.specs.Adding.{AreLiterals};
ghost use Rattle.gates_frames.specs.Frames.{literal_at};
ghost use Rattle.netlist.specs.Design.{free_of};
ghost use Rattle.run_terms.specs.Automata.{TestsSignals};
ghost use Rattle.run_terms.specs.Formulas.{values_of};
ghost use Rattle.bounded.specs.Adding.{frame_in};
ghost use Rattle.bounded.specs.Found as spec;
ghost use Rattle.bounded.specs.Found.{run_of};
ghost use Rattle.bounded.specs.Places.{begins_at, place_bits};
ghost use Rattle.bounded.specs.Searches.{search_clauses, search_variables};

use crate::counting::{bits_of, number_width};
use crate::facts::automaton_law;
use crate::framing::search_frames;
use crate::free::free_signals;
use crate::laws::filled_law;
use alternating::Alternating;
use gates_theory::Literals;
use netlist::{Netlist, Run, Valuations, soundness_law};
use psl_base::{Bits, NoMemory};
use std::alloc::Global;

// The value of a literal; that of a variable behind the last one is 0.
fn value_of(values: &[bool], literal: i32) -> bool
    requires { IsTrue (is_literal literal) }
    ensures { result ≡ is_true (values_of values.now) literal }
{
    let place = literal.unsigned_abs() as usize - 1;
    let value = place < values.len() && values[place];
    if literal > 0 { value } else { !value }
}

// The values of signals, of which a frame has literals.
fn values_in(
    alloc: Global,
    values: &[bool],
    frame: &[i32],
    signals: &[u32],
) -> Result<Bits, NoMemory>
    requires literals { AreLiterals frame.now }
    requires within { All (λ signal. signal < length frame.now) signals.now }
    ensures { IfOk result (λ read. read
        ≡ map (λ signal. is_true (values_of values.now) (literal_at 0 frame.now signal)) signals.now) }
{
    let mut read = Bits::new(alloc);
    for i in 0..signals.len() {
        read.push(value_of(values, frame[signals[i] as usize]))?;
    }
    Ok(read)
}

// So many bits, all of them 0.
fn no_bits(alloc: Global, count: u32) -> Result<Bits, NoMemory>
    ensures { IfOk result (λ bits. length bits ≡ count) }
{
    Ok(Bits::from_vec(vec![in alloc; false; count as usize]?))
}

// The valuation in which the signals that no table drives have these values.
fn filled(alloc: Global, netlist: &Netlist, free: &Bits) -> Result<Bits, NoMemory>
    requires { length free.now ≡ length (free_of netlist.now) }
    ensures { IfOk result (λ valuation. valuation ≡ spec.filled netlist.now free.now) }
{
    soundness_law(netlist);
    filled_law();
    let mut valuation = no_bits(alloc, netlist.signals())?;
    netlist.evaluate(free, &mut valuation);
    Ok(valuation)
}

// The valuation of a frame.
fn valuation(
    alloc: Global,
    netlist: &Netlist,
    free: &[u32],
    frame: &[i32],
    values: &[bool],
) -> Result<Bits, NoMemory>
    requires free { free.now ≡ free_of netlist.now }
    requires literals { AreLiterals frame.now }
    requires size { length frame.now ≡ netlist.now.signals }
    ensures { IfOk result (λ valuation. valuation ≡ spec.filled netlist.now
        (spec.free_values netlist.now (values_of values.now) frame.now)) }
{
    soundness_law(netlist);
    let read = values_in(alloc, values, frame, free)?;
    filled(alloc, netlist, &read)
}

// The valuations of so many frames from one on.
fn valuations(
    alloc: Global,
    netlist: &Netlist,
    free: &[u32],
    frames: &[Literals],
    values: &[bool],
    first: u32,
    count: u32,
) -> Result<Valuations, NoMemory>
    requires free { free.now ≡ free_of netlist.now }
    requires room { first + count ≤ length frames.now }
    requires frames { All AreLiterals frames.now }
    requires sizes { All (λ literals. length literals ≡ netlist.now.signals) frames.now }
    ensures { IfOk result (λ all. all ≡ map (λ place. spec.filled netlist.now
        (spec.free_values netlist.now (values_of values.now) (frame_in frames.now place)))
        (range_with_len first count)) }
{
    let mut all = Valuations::new(alloc);
    for step in 0..count {
        let frame = frames[first as usize + step as usize].as_slice();
        all.push(valuation(alloc, netlist, free, frame, values)?)?;
    }
    Ok(all)
}

// The first of so many values behind others that is 1, or their number.
fn first_true(values: &[bool], before: usize, count: u32) -> u32
    requires { before + count ≤ length values.now }
    ensures is { result ≡ first_passing count (λ place. slice_index_or values.now (before + place) false) }
    ensures few { result ≤ count }
{
    for place in 0..count {
        if values[before + place as usize] {
            return place;
        }
    }
    count
}

// The first place with which the loop may begin, where there are so many variables before the bits of places.
fn loop_place(values: &[bool], violation: &Alternating, before: u32, n: u32) -> u32
    requires { before + (suc (suc n) * place_bits violation.now + n) ≤ length values.now }
    ensures is { result
        ≡ first_passing n (λ place. is_true (values_of values.now) (begins_at violation.now n before place)) }
    ensures few { result ≤ n }
{
    let bits = bits_of(violation, number_width(violation.len()));
    let begins = before as usize + (n as usize + 2) * bits as usize;
    first_true(values, begins, n)
}

/// The run that a model of a search gives. Its loop begins with the first valuation of which the model says so; the
/// word of the run is one that the automaton accepts.
///
/// # Errors
///
/// `NoMemory` if memory is refused, or if the model has more variables than a formula may have.
pub fn read_run(
    alloc: Global,
    netlist: &Netlist,
    violation: &Alternating,
    n: u32,
    model: &Bits,
) -> Result<Run, NoMemory>
    requires tests { TestsSignals netlist.now violation.now }
    requires size { length model.now ≡ search_variables netlist.now violation.now n }
    requires model { IsModel (values_of model.now) (search_clauses netlist.now violation.now n) }
    ensures read { IfOk result (λ run. run ≡ run_of netlist.now violation.now n (values_of model.now)) }
    ensures found { IfOk result (λ run. IsFound netlist.now violation.now n run) }
{
    soundness_law(netlist);
    automaton_law(violation);
    let Ok(framed) = search_frames(alloc, netlist, violation, n) else {
        return Err(NoMemory);
    };
    let (values, frames) = (model.as_slice(), framed.frames.as_slice());
    let first = loop_place(values, violation, framed.builder.variables(), n);
    let free = free_signals(alloc, netlist)?;
    let free = free.as_slice();
    Ok(Run {
        stem: valuations(alloc, netlist, free, frames, values, 0, first)?,
        loop_part: valuations(alloc, netlist, free, frames, values, first, n - first)?,
    })
}
