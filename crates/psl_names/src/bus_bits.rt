// The bits of buses.
ghost use Rattle.std.specs.Prelude.{◌≡◌, ◌&&◌, not, map, IfOk, if◌then◌else◌};
ghost use Rattle.psl_layer_theory.specs.Buses as spec;
ghost use Rattle.psl_layer_theory.specs.declared.found.Reference.TheVariants as references;
ghost use Rattle.psl_sugar.specs.Vectors.{only_bit};

use crate::matching::{NameIndex, named};
use crate::paths::PathIndex;
use crate::texts::indexed_text;
use psl_base::{NoMemory, Numbers};
use psl_layer_theory::{Found, Reference};
use psl_sugar::Vector;
use std::alloc::Global;

/// The bus that a text stands for.
pub(crate) fn bus(alloc: Global, names: &PathIndex, text: &[u8]) -> Result<Reference, NoMemory>
    ensures { IfOk result (λ reference. reference ≡ spec.bus names.now text.now) }
{
    match names.buses().look_up(text) {
        Found::Nothing => Ok(Reference::Nothing),
        Found::One { left, right, .. } => joined(alloc, names.names(), text, left, right),
        Found::Several => Ok(Reference::Several),
    }
}

// The bits of a bus, from its highest index down to its lowest.
#[tactic(auto, using(crate::proofs::Bits::read_none))]
fn joined(
    alloc: Global,
    names: &NameIndex,
    text: &[u8],
    high: u32,
    low: u32,
) -> Result<Reference, NoMemory>
    ensures { IfOk result (λ reference. reference ≡ spec.joined (spec.bits_behind names.now text.now high low)) }
{
    let low = u64::from(low);
    let is_whole = is_found(bit_behind(alloc, names, text, true, low)?);
    let mut is_clear = true;
    let mut signals = Vec::new(alloc);
    for more in 0..u64::from(high).saturating_sub(low) + 1 {
        let found = bit_behind(alloc, names, text, is_whole, low + more)?;
        if is_hole(found) {
            return Ok(Reference::Nothing);
        }
        is_clear = is_still_clear(is_clear, found);
        signals.push(signal_in(found))?;
    }
    Ok(bits_or_several(is_clear, signals))
}

// The only bits of signals, unless some bit is more than one signal.
fn bits_or_several(is_clear: bool, signals: Vec<u32>) -> Reference
    ensures { result ≡ (if is_clear then references.Bits (map only_bit signals.items) else references.Several) }
{
    if is_clear {
        Reference::Bits(Vector::of_signals(Numbers::from_vec(signals)))
    } else {
        Reference::Several
    }
}

// What stands at an index of a text; where a name has to have the text, only what has it.
fn bit_behind(
    alloc: Global,
    names: &NameIndex,
    text: &[u8],
    is_whole: bool,
    index: u64,
) -> Result<Found, NoMemory>
    ensures { IfOk result (λ found. found ≡ spec.bit_behind names.now text.now is_whole index) }
{
    let indexed = indexed_text(alloc, text, index)?;
    Ok(if is_whole {
        named(names, indexed.as_slice())
    } else {
        names.look_up(indexed.as_slice())
    })
}

// Whether some name is matched.
fn is_found(found: Found) -> bool
    ensures { result ≡ spec.is_found found }
{
    !matches!(found, Found::Nothing)
}

// Whether it is no signal of one bit.
fn is_hole(found: Found) -> bool
    ensures { result ≡ spec.is_hole found }
{
    match found {
        Found::Nothing => true,
        Found::One { left, right, .. } => left != right,
        Found::Several => false,
    }
}

// Whether it is more than one signal.
fn is_several(found: Found) -> bool
    ensures { result ≡ spec.is_several found }
{
    matches!(found, Found::Several)
}

// Whether no bit is more than one signal, with one bit more.
fn is_still_clear(is_clear: bool, found: Found) -> bool
    ensures { result ≡ (is_clear && not (spec.is_several found)) }
{
    is_clear && !is_several(found)
}

// The signal that was found.
fn signal_in(found: Found) -> u32
    ensures { result ≡ spec.signal_in found }
{
    match found {
        Found::Nothing | Found::Several => 0,
        Found::One { signal, .. } => signal,
    }
}
