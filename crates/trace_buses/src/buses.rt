// Buses: texts behind which each index from the lowest to the highest stands in just one name.
ghost use Rattle.std.specs.Prelude.{◌≡◌, ◌+◌, ◌<◌, ◌≤◌, length, IfOk};
ghost use Rattle.std.specs.Str.{bytes_eq};
ghost use Rattle.psl_layer_theory.specs.Texts.{indexed_text};
ghost use Rattle.trace_buses.specs.Buses as spec;
ghost use Rattle.trace_buses.specs.Spans.{Tells, span_in};

use crate::names::text_at;
use crate::spans::{Span, Spans};
use psl_base::{NoMemory, Numbers, Text, add_bytes, add_number};
use psl_layer_theory::Found;
use psl_names::{NameIndex, split_index};
use psl_tree::Name;
use std::alloc::Global;
use trace::Vector;

/// By the number of a signal, the bus whose first signal it is.
pub(crate) fn all_buses(
    alloc: Global,
    names: &[Name],
    index: &NameIndex,
    spans: &Spans,
) -> Result<Vec<Option<Vector>>, NoMemory>
    requires spans { Tells spans.now names.now }
    requires index { index.now ≡ names.now }
    ensures { IfOk result (λ buses. buses.items ≡ spec.all_buses names.now) }
{
    let mut buses = Vec::new(alloc);
    for signal in 0..names.len() {
        let bus = bus_at(alloc, names, index, spans, signal)?;
        buses.push(bus)?;
    }
    Ok(buses)
}

/// The bus whose first signal this is.
fn bus_at(
    alloc: Global,
    names: &[Name],
    index: &NameIndex,
    spans: &Spans,
    signal: usize,
) -> Result<Option<Vector>, NoMemory>
    requires spans { Tells spans.now names.now }
    requires index { index.now ≡ names.now }
    requires inside { signal < length names.now }
    ensures { IfOk result (λ bus. bus ≡ spec.bus_at names.now signal) }
{
    let Some(name) = split_index(names[signal].text.as_slice()) else {
        return Ok(None);
    };
    match spans.get(name.text) {
        Some(span) if span.first as usize == signal => bus_of(
            alloc, names, index, name.text, *span,
        ),
        _ => Ok(None),
    }
}

/// The bus of a text, by the span of its indices.
fn bus_of(
    alloc: Global,
    names: &[Name],
    index: &NameIndex,
    text: &[u8],
    span: Span,
) -> Result<Option<Vector>, NoMemory>
    requires index { index.now ≡ names.now }
    ensures { IfOk result (λ bus. bus ≡ spec.bus_of names.now text.now (span_in span)) }
{
    if !may_be_bus(index, text, span) {
        return Ok(None);
    }
    let count = span.high as u64 - span.low as u64 + 1;
    match signals_down(alloc, names, index, text, span.high as u64, count)? {
        Some(signals) => Ok(Some(Vector {
            text: Text::from_slice(alloc, text)?,
            high: span.high,
            low: span.low,
            signals,
        })),
        None => Ok(None),
    }
}

/// Whether a text with several indices can be declared, and is not found as a name.
fn may_be_bus(index: &NameIndex, text: &[u8], span: Span) -> bool
    ensures { result ≡ spec.may_be_bus index.now text.now (span_in span) }
{
    span.low < span.high
        && !text.is_empty()
        && text != "$end".as_bytes()
        && is_nothing(index.look_up(text))
}

fn is_nothing(found: Found) -> bool
    ensures { result ≡ spec.is_nothing found }
{
    match found {
        Found::Nothing => true,
        _ => false,
    }
}

/// The signals of the indices of a text, from one down, as many as asked for; none where an index has no signal or
/// several.
fn signals_down(
    alloc: Global,
    names: &[Name],
    index: &NameIndex,
    text: &[u8],
    high: u64,
    count: u64,
) -> Result<Option<Numbers>, NoMemory>
    requires index { index.now ≡ names.now }
    requires inside { count ≤ high + 1 }
    ensures { IfOk result (λ signals. signals ≡ spec.signals_down names.now text.now high count) }
{
    let mut signals = Numbers::new(alloc);
    for distance in 0..count {
        let name = indexed_text(alloc, text, high - distance)?;
        let Some(signal) = signal_named(names, index, name.as_slice()) else {
            return Ok(None);
        };
        signals.push(signal)?;
    }
    Ok(Some(signals))
}

/// A text with an index behind it.
fn indexed_text(alloc: Global, text: &[u8], index: u64) -> Result<Text, NoMemory>
    ensures { IfOk result (λ name. name ≡ indexed_text text.now index) }
{
    let mut name = Vec::new(alloc);
    add_bytes(&mut name, text)?;
    add_bytes(&mut name, b"[")?;
    add_number(&mut name, index)?;
    add_bytes(&mut name, b"]")?;
    Ok(Text::from_vec(name))
}

/// The one signal whose name is a text.
fn signal_named(names: &[Name], index: &NameIndex, text: &[u8]) -> Option<u32>
    requires { index.now ≡ names.now }
    ensures { result ≡ spec.signal_named names.now text.now }
{
    match index.look_up(text) {
        Found::One {
            signal,
            left: _,
            right: _,
        } if is_text_of(names, signal, text) => Some(signal),
        _ => None,
    }
}

/// Whether a text is the name of a signal.
fn is_text_of(names: &[Name], signal: u32, text: &[u8]) -> bool
    ensures { result ≡ bytes_eq (spec.name_text names.now signal) text.now }
{
    text_at(names, signal as usize) == text
}
