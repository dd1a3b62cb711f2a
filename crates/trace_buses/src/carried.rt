// Whether signals are found again among vectors.
ghost use Rattle.std.specs.List.{list_all, range_with_len};
ghost use Rattle.std.specs.Prelude.{◌≡◌, ◌==◌, ◌-◌, ◌&&◌, nat_le, nat_lt, length, slice_index_or, IfOk};
ghost use Rattle.trace.specs.Vectors.{bits_in, vector_names};
ghost use Rattle.trace_buses.specs.Buses as spec;

use crate::names::text_at;
use psl_base::NoMemory;
use psl_names::NameIndex;
use psl_sugar::Bit;
use psl_tree::Name;
use replay::bit_named;
use std::alloc::Global;
use trace::Vector;

/// By the number of a signal, whether it is the first of a bus of which each signal is found.
pub(crate) fn found_kept(
    alloc: Global,
    names: &[Name],
    index: &NameIndex,
    vectors: &[Vector],
    buses: &[Option<Vector>],
) -> Result<Vec<bool>, NoMemory>
    requires index { index.now ≡ vector_names vectors.now }
    requires vectors { vectors.now ≡ spec.vectors_with names.now (spec.all_kept names.now) }
    requires buses { buses.now ≡ spec.all_buses names.now }
    ensures { IfOk result (λ kept. kept.items ≡ spec.found_kept names.now) }
{
    let mut kept = Vec::new(alloc);
    for signal in 0..names.len() {
        let keeps = is_kept(names, index, vectors, buses, signal);
        kept.push(keeps)?;
    }
    Ok(kept)
}

/// Whether a signal is the first of a bus of which each signal is found.
fn is_kept(
    names: &[Name],
    index: &NameIndex,
    vectors: &[Vector],
    buses: &[Option<Vector>],
    signal: usize,
) -> bool
    requires { index.now ≡ vector_names vectors.now }
    ensures { result ≡ spec.is_kept names.now vectors.now (slice_index_or buses.now signal None) }
{
    match buses.get(signal) {
        Some(Some(bus)) => are_carried(names, index, vectors, bus.signals.as_slice()),
        _ => false,
    }
}

/// Whether each of some signals is found.
fn are_carried(names: &[Name], index: &NameIndex, vectors: &[Vector], signals: &[u32]) -> bool
    requires { index.now ≡ vector_names vectors.now }
    ensures { result ≡ list_all (spec.is_carried names.now vectors.now) signals.now }
{
    for signal in signals {
        if !is_carried(names, index, vectors, *signal as usize) {
            return false;
        }
    }
    true
}

/// Whether vectors have no more bits than there are signals, and each signal is found among them.
pub(crate) fn is_exact(names: &[Name], index: &NameIndex, vectors: &[Vector]) -> bool
    requires { index.now ≡ vector_names vectors.now }
    ensures { result ≡ spec.is_exact names.now vectors.now }
{
    has_at_most(vectors, names.len()) && all_carried(names, index, vectors)
}

/// Whether vectors have at most so many bits.
fn has_at_most(vectors: &[Vector], most: usize) -> bool
    ensures { result ≡ nat_le (bits_in vectors.now) most }
{
    let mut left = most;
    for vector in vectors {
        let more = vector.signals.len();
        if more > left {
            return false;
        }
        left -= more;
    }
    true
}

/// Whether all signals are found.
fn all_carried(names: &[Name], index: &NameIndex, vectors: &[Vector]) -> bool
    requires { index.now ≡ vector_names vectors.now }
    ensures { result ≡ list_all (spec.is_carried names.now vectors.now) (range_with_len 0 (length names.now)) }
{
    for signal in 0..names.len() {
        if !is_carried(names, index, vectors, signal) {
            return false;
        }
    }
    true
}

/// Whether a signal is found under its first name.
fn is_carried(names: &[Name], index: &NameIndex, vectors: &[Vector], signal: usize) -> bool
    requires { index.now ≡ vector_names vectors.now }
    ensures { result ≡ spec.is_carried names.now vectors.now signal }
{
    carries(vectors, signal, bit_named(index, text_at(names, signal)))
}

/// Whether a bit of vectors is that of a signal.
fn carries(vectors: &[Vector], signal: usize, bit: Option<Bit>) -> bool
    ensures { result ≡ spec.carries vectors.now signal bit }
{
    let Some(bit) = bit else {
        return false;
    };
    match vectors.get(bit.signal as usize) {
        Some(vector) => stands_at(vector.signals.as_slice(), bit.place as usize, signal),
        None => false,
    }
}

/// Whether a signal stands at a place, counted from the right.
fn stands_at(signals: &[u32], place: usize, signal: usize) -> bool
    ensures { result ≡ (nat_lt place (length signals.now) && (slice_index_or signals.now (length signals.now - 1 - place) 0 == signal)) }
{
    place < signals.len() && signals[signals.len() - 1 - place] as usize == signal
}
