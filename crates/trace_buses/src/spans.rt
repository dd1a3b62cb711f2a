// The indices that stand behind texts.
ghost use Rattle.std.specs.Prelude.{◌≡◌, ℕ, List, IfOk, OnOk};
ghost use Rattle.psl_layer_theory.specs.Buses.{indexed};
ghost use Rattle.trace_buses.specs.Buses as spec;
ghost use Rattle.trace_buses.specs.Spans.{Tells, option_span, span_at, span_in};

use psl_base::NoMemory;
use psl_names::split_index;
use psl_tree::Name;
use std::alloc::Global;
use std::collections::BTreeMap;

/// The lowest and the highest of some indices, and the first signal, by its number, that has one.
#[derive(Clone, Copy, Debug)]
pub(crate) struct Span {
    pub low: u32,
    pub high: u32,
    pub first: u32,
}

/// By each text behind which indices stand, their span.
pub(crate) type Spans<'a> = BTreeMap<&'a [u8], Span>;

/// The spans of the indices that stand behind texts in names.
#[tactic(auto, using(crate::proofs::Spanning::tells_more, std::proofs::lemmas::List::drop_all))]
pub(crate) fn spans_of<'a>(alloc: Global, names: &'a [Name]) -> Result<Spans<'a>, NoMemory>
    ensures { IfOk result (λ spans. Tells spans names.now) }
{
    let mut spans = Spans::new(alloc);
    for distance in 0..names.len() {
        add_index(&mut spans, &names[names.len() - 1 - distance])?;
    }
    Ok(spans)
}

/// Adds the index that stands at the end of a name, if one does.
#[tactic(auto, using(crate::proofs::Spanning::span_written, crate::proofs::Spanning::copied_span))]
fn add_index<'a>(spans: &mut Spans<'a>, name: &'a Name) -> Result<(), NoMemory>
    ensures { OnOk result ((text : List ℕ) → span_at spans.new text ≡ spec.with_name text name.now.signal (indexed name.now.text) (span_at spans.old text)) }
{
    let Some(indexed) = split_index(name.text.as_slice()) else {
        return Ok(());
    };
    let span = widened(name.signal, indexed.index, spans.get(indexed.text));
    spans.insert(indexed.text, span)?;
    Ok(())
}

/// A span with the index of a signal more, which stands before the others.
fn widened(signal: u32, index: u32, span: Option<&Span>) -> Span
    ensures { span_in result ≡ spec.widened signal index (option_span span.entry) }
{
    match span {
        None => Span {
            low: index,
            high: index,
            first: signal,
        },
        Some(span) => Span {
            low: span.low.min(index),
            high: span.high.max(index),
            first: signal,
        },
    }
}
