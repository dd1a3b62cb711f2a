// Which bits a path stands for.
ghost use Rattle.std.specs.Prelude.{◌≡◌, ◌<◌, ◌^◌, None, Some, IfOk, IsTrue};
ghost use Rattle.psl_layer_theory.specs.References as spec;

use crate::bus_bits::bus;
use crate::paths::PathIndex;
use crate::texts::indexed_text;
use crate::values::number_of;
use psl_base::NoMemory;
use psl_layer_theory::{Found, Reference};
use psl_lexer::Token;
use psl_sugar::Vector;
use std::alloc::Global;

/// What a text stands for, perhaps with an index.
pub fn refers_to(
    alloc: Global,
    names: &PathIndex,
    text: &[u8],
    index: Option<u64>,
) -> Result<Reference, NoMemory>
    ensures { IfOk result (λ reference. reference ≡ spec.refers_to names.now text.now index) }
{
    match index {
        Some(index) => with_index(alloc, names, text, index),
        None => without_index(alloc, names, text),
    }
}

// What a path without an index stands for: a signal, or, if none matches, a bus.
fn without_index(alloc: Global, names: &PathIndex, text: &[u8]) -> Result<Reference, NoMemory>
    ensures { IfOk result (λ reference. reference ≡ spec.refers_to names.now text.now None) }
{
    match names.names().look_up(text) {
        Found::Nothing => bus(alloc, names, text),
        found => Ok(whole_of(found)),
    }
}

// What a path with an index stands for: a signal of that name, or, if none matches, a bit.
fn with_index(
    alloc: Global,
    names: &PathIndex,
    text: &[u8],
    index: u64,
) -> Result<Reference, NoMemory>
    ensures { IfOk result (λ reference. reference ≡ spec.refers_to names.now text.now (Some index)) }
{
    let indexed = indexed_text(alloc, text, index)?;
    Ok(match names.names().look_up(indexed.as_slice()) {
        Found::Nothing => bit_of(names.names().look_up(text), index),
        found => whole_of(found),
    })
}

/// The number of an index, if there is one.
pub fn index_number(index: &Option<Token>) -> Option<u64>
    ensures { result ≡ spec.index_number index.now }
{
    match index {
        Some(token) => Some(number_of(token)),
        None => None,
    }
}

// All bits of what was found.
fn whole_of(found: Found) -> Reference
    ensures { result ≡ spec.whole_of found }
{
    match found {
        Found::Nothing => Reference::Nothing,
        Found::One {
            signal,
            left,
            right,
        } => {
            let width = distance(u64::from(left), u64::from(right)) + 1;
            Reference::Bits(Vector::side_by_side(signal, 0, width))
        }
        Found::Several => Reference::Several,
    }
}

// The bit of what was found that an index stands for.
fn bit_of(found: Found, index: u64) -> Reference
    ensures { result ≡ spec.bit_of found index }
{
    match found {
        Found::Nothing => Reference::Nothing,
        Found::One {
            signal,
            left,
            right,
        } => {
            if !is_index(left, right, index) {
                return Reference::Nothing;
            }
            let place = distance(index, u64::from(right)) as u32;
            Reference::Bits(Vector::side_by_side(signal, place, 1))
        }
        Found::Several => Reference::Several,
    }
}

// Whether a number is an index from one end of a range to the other.
fn is_index(left: u32, right: u32, index: u64) -> bool
    ensures is { result ≡ spec.is_index left right index }
    ensures small { IsTrue result → spec.distance index right < 2 ^ 32 }
{
    let left = u64::from(left);
    let right = u64::from(right);
    (left <= index && index <= right) || (right <= index && index <= left)
}

// How far two numbers are apart.
fn distance(first: u64, second: u64) -> u64
    ensures { result ≡ spec.distance first second }
{
    if first < second {
        second - first
    } else {
        first - second
    }
}
