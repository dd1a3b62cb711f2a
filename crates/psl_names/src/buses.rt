// The buses of a list of names.
ghost use Rattle.std.specs.Prelude.{◌≡◌, ◌++◌, ℕ, List, IfOk, OnOk};
ghost use Rattle.psl_layer_theory.specs.Buses as spec;
ghost use Rattle.psl_names.specs.Ranges.{Tells, bus_told, option_range, range_in, range_at};

use crate::split::{Indexed, split_index};
use psl_base::{Items, NoMemory, Text};
use psl_tree::{Name, Names};
use std::alloc::Global;
use std::collections::BTreeMap;

/// The lowest and the highest of some indices.
#[derive(Clone, Copy, Debug)]
pub(crate) struct Indices {
    pub low: u32,
    pub high: u32,
}

/// By each text behind which indices stand, the lowest and the highest of them.
pub(crate) type Ranges<'a> = BTreeMap<&'a [u8], Indices>;

/// Each text behind which indices stand, as a name with the range from the highest of them down to the lowest.
#[tactic(auto, using(crate::proofs::Ranging::all_told))]
pub fn bus_names(alloc: Global, names: &Names) -> Result<Names, NoMemory>
    ensures { IfOk result (λ buses. buses ≡ spec.bus_names names.now) }
{
    let ranges = ranges_of(alloc, names.as_slice())?;
    let mut buses = Items::new(alloc);
    for name in names.as_slice() {
        add_bus(alloc, &mut buses, &ranges, name)?;
    }
    Ok(buses)
}

// The ranges of the indices that stand behind texts.
#[tactic(auto, using(crate::proofs::Ranging::tells_more, std::proofs::lemmas::List::drop_all))]
fn ranges_of<'a>(alloc: Global, names: &'a [Name]) -> Result<Ranges<'a>, NoMemory>
    ensures { IfOk result (λ ranges. Tells ranges names.now) }
{
    let mut ranges = Ranges::new(alloc);
    for distance in 0..names.len() {
        add_index(&mut ranges, &names[names.len() - 1 - distance])?;
    }
    Ok(ranges)
}

// Adds the index that stands at the end of a name, if one does.
#[tactic(auto, using(crate::proofs::Ranging::range_written, crate::proofs::Ranging::copied_range))]
fn add_index<'a>(ranges: &mut Ranges<'a>, name: &'a Name) -> Result<(), NoMemory>
    ensures { OnOk result ((text : List ℕ) → range_at ranges.new text ≡ spec.with_name text (spec.indexed name.now.text) (range_at ranges.old text)) }
{
    let Some(indexed) = split_index(name.text.as_slice()) else {
        return Ok(());
    };
    let range = widened(indexed.index, ranges.get(indexed.text));
    ranges.insert(indexed.text, range)?;
    Ok(())
}

// A range with one index more.
fn widened(index: u32, range: Option<&Indices>) -> Indices
    ensures { range_in result ≡ spec.widened index (option_range range.entry) }
{
    match range {
        None => Indices {
            low: index,
            high: index,
        },
        Some(range) => Indices {
            low: range.low.min(index),
            high: range.high.max(index),
        },
    }
}

// Adds the bus of a name that has its lowest index, if it is one.
#[tactic(auto, using(crate::proofs::Ranging::copied_range))]
fn add_bus(alloc: Global, buses: &mut Names, ranges: &Ranges, name: &Name) -> Result<(), NoMemory>
    ensures { OnOk result (buses.new ≡ buses.old ++ bus_told ranges.now (spec.indexed name.now.text)) }
{
    let Some(name) = split_index(name.text.as_slice()) else {
        return Ok(());
    };
    let Some(range) = ranges.get(name.text) else {
        return Ok(());
    };
    if name.index == range.low {
        buses.push(bus_name(alloc, name, range)?)?;
    }
    Ok(())
}

// A text as a name with a range.
fn bus_name(alloc: Global, name: Indexed, range: &Indices) -> Result<Name, NoMemory>
    ensures { IfOk result (λ bus. bus ≡ record { text = name.entry.text.now; signal = 0; left = range.now.high; right = range.now.low }) }
{
    Ok(Name {
        text: Text::from_slice(alloc, name.text)?,
        signal: 0,
        left: range.high,
        right: range.low,
    })
}
