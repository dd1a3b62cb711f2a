// Signals and buses in order.
ghost use Rattle.std.specs.Option.{option_map};
ghost use Rattle.std.specs.Prelude.{◌≡◌, ◌<◌, ◌^◌, ◌++◌, length, IfOk, OnOk};
ghost use Rattle.trace.specs.Vectors.{single};
ghost use Rattle.trace_buses.specs.Buses as spec;
ghost use Rattle.trace_buses.specs.Spans.{Tells};

use crate::names::text_at;
use crate::spans::Spans;
use psl_base::{NoMemory, Numbers, Text};
use psl_names::split_index;
use psl_tree::Name;
use std::alloc::Global;
use trace::{Vector, Vectors};

/// The first names of signals, the spans of the indices behind their texts, and all buses.
#[derive(Clone, Copy)]
pub(crate) struct Buses<'a, 'n> {
    pub names: &'a [Name],
    pub spans: &'a Spans<'n>,
    pub buses: &'a [Option<Vector>],
}

/// The signals alone, and the buses that are kept, each where the first of its signals stands.
pub(crate) fn vectors_with(
    alloc: Global,
    buses: Buses<'_, '_>,
    kept: &[bool],
) -> Result<Vectors, NoMemory>
    requires few { length buses.names.now < 2 ^ 32 }
    requires spans { Tells buses.spans.now buses.names.now }
    requires buses { buses.buses.now ≡ spec.all_buses buses.names.now }
    ensures vectors { IfOk result (λ vectors. vectors ≡ spec.vectors_with buses.entry.names.now kept.now) }
    ensures few { IfOk result (λ vectors. length vectors < 2 ^ 32) }
{
    let mut vectors = Vectors::new(alloc);
    for signal in 0..buses.names.len() {
        add_written(alloc, &mut vectors, buses, kept, signal)?;
    }
    Ok(vectors)
}

/// Adds a signal alone, or the bus whose first signal it is, or nothing more of its bus.
fn add_written(
    alloc: Global,
    vectors: &mut Vectors,
    buses: Buses<'_, '_>,
    kept: &[bool],
    signal: usize,
) -> Result<(), NoMemory>
    requires few { signal < 2 ^ 32 }
    requires spans { Tells buses.spans.now buses.names.now }
    requires buses { buses.buses.now ≡ spec.all_buses buses.names.now }
    ensures { OnOk result (vectors.new ≡ vectors.old ++ spec.written_at buses.entry.names.now kept.now signal) }
{
    let first = first_of(buses, signal);
    match kept_bus(kept, buses.buses, first) {
        Some(bus) if first == signal => vectors.push(copied(alloc, bus)?),
        Some(_) => Ok(()),
        None => vectors.push(single(alloc, text_at(buses.names, signal), signal as u32)?),
    }
}

/// The first of the signals that have a signal's text before their indices.
fn first_of(buses: Buses<'_, '_>, signal: usize) -> usize
    requires { Tells buses.spans.now buses.names.now }
    ensures { result ≡ spec.first_of buses.entry.names.now signal }
{
    let Some(name) = split_index(text_at(buses.names, signal)) else {
        return signal;
    };
    match buses.spans.get(name.text) {
        Some(span) => span.first as usize,
        None => signal,
    }
}

/// The bus of a first signal, where it is kept.
fn kept_bus<'a>(kept: &[bool], buses: &'a [Option<Vector>], first: usize) -> Option<&'a Vector>
    ensures { option_map (λ bus. bus.now) result ≡ spec.kept_bus kept.now buses.now first }
{
    match (kept.get(first), buses.get(first)) {
        (Some(true), Some(Some(bus))) => Some(bus),
        _ => None,
    }
}

/// A vector once more.
fn copied(alloc: Global, vector: &Vector) -> Result<Vector, NoMemory>
    ensures { IfOk result (λ new. new ≡ vector.now) }
{
    Ok(Vector {
        text: vector.text.copy(alloc)?,
        high: vector.high,
        low: vector.low,
        signals: vector.signals.copy(alloc)?,
    })
}

/// Each signal alone.
pub(crate) fn alone(alloc: Global, names: &[Name]) -> Result<Vectors, NoMemory>
    requires { length names.now < 2 ^ 32 }
    ensures { IfOk result (λ vectors. vectors ≡ spec.alone names.now) }
{
    let mut vectors = Vectors::new(alloc);
    for signal in 0..names.len() {
        vectors.push(single(alloc, text_at(names, signal), signal as u32)?)?;
    }
    Ok(vectors)
}

/// A signal alone.
fn single(alloc: Global, text: &[u8], signal: u32) -> Result<Vector, NoMemory>
    ensures { IfOk result (λ vector. vector ≡ single text.now signal) }
{
    Ok(Vector {
        text: Text::from_slice(alloc, text)?,
        high: 0,
        low: 0,
        signals: Numbers::from_slice(alloc, &[signal])?,
    })
}
