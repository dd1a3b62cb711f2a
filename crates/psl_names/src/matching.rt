// Which entries of a list of names a text matches.
ghost use Rattle.std.specs.Prelude.{◌≡◌, ◌+◌, ◌^◌, ◌<◌, ◌≤◌, drop, length, slice_index, IfOk};
ghost use Rattle.psl_layer_theory.specs.LookUp as spec;
ghost use Rattle.psl_names.specs.Alike.{alike_each, chosen, first_passes, said, with_name};
ghost use Rattle.psl_names.specs.Sorting.{found_in, found_with, named_in, is_before, names_of, IsPlaceOf};
ghost use Rattle.std.specs.List.Sorted.{IsSortedBy};

use crate::ends::compare_ends;
use crate::sorting::{alike_counts, sorted_by_ends};
use psl_base::NoMemory;
use psl_layer_theory::Found;
use psl_tree::{Name, Names};
use std::alloc::Global;
use std::marker::Model;

/// Names in the order of their ends, for looking many texts up. Contracts see it as the list of the names.
#[derive(Drop)]
pub struct NameIndex<'a> {
    names: &'a Names,
    sorted: Vec<&'a Name>,
    counts: Vec<usize>,
}

impl<'a> Model for NameIndex<'a> {
    ghost use Rattle.std.specs.Prelude.{List};
    ghost use Rattle.psl_tree.specs.declared.name.Name.{Name};
    ghost use Rattle.psl_names.specs.Sorting.{IsIndex};

    ghost Value = { List Name };

    ghost view = { λ index. index.names.now };

    ghost invariant = { λ index. IsIndex index.names.now index.sorted.items index.counts.items };
}

impl<'a> NameIndex<'a> {
    /// The index of names. It takes time that grows as the number of names and its logarithm.
    pub fn of(alloc: Global, names: &'a Names) -> Result<NameIndex<'a>, NoMemory>
        ensures { IfOk result (λ index. index ≡ names.now) }
    {
        let sorted = sorted_by_ends(alloc, names.as_slice())?;
        let counts = alike_counts(alloc, sorted.as_slice())?;
        Ok(NameIndex {
            names,
            sorted,
            counts,
        })
    }

    /// What a text stands for among the names, as `look_up` says. It takes no memory, and time that grows with the logarithm
    /// of the number of names.
    pub fn look_up(&self, text: &[u8]) -> Found
        ensures { result ≡ spec.look_up self.now text.now }
    {
        let sorted = self.sorted.as_slice();
        found_from(sorted, self.counts.as_slice(), place_of(sorted, text), text)
    }
}

/// What a text stands for among names: the entries that have it, or, if none has it, those that end with a dot and it.
/// Entries of one signal with one range count as one. It takes no memory, and time that grows as the bytes of the names;
/// where many texts are looked up a `NameIndex` is faster.
pub fn look_up(names: &Names, text: &[u8]) -> Found
    ensures { result ≡ spec.look_up names.now text.now }
{
    let mut named = Found::Nothing;
    let mut ending = Found::Nothing;
    let all = names.as_slice();
    for name in all {
        named = with(named, is_named(name, text), name);
        ending = with(ending, ends_named(name, text), name);
    }
    chosen(named, ending)
}

// The first of two that found something.
fn chosen(first: Found, second: Found) -> Found
    ensures { result ≡ chosen first second }
{
    match first {
        Found::Nothing => second,
        _ => first,
    }
}

// What was found, with a name more if it matches.
fn with(found: Found, is_match: bool, name: &Name) -> Found
    ensures { result ≡ with_name found is_match name.now }
{
    if !is_match {
        return found;
    }
    match found {
        Found::Nothing => said(name, false),
        Found::One {
            signal,
            left,
            right,
        } => {
            let is_same = signal == name.signal && left == name.left && right == name.right;
            if is_same { found } else { Found::Several }
        }
        Found::Several => found,
    }
}

/// What a text stands for among names where the entries have to have it.
pub(crate) fn named(names: &NameIndex, text: &[u8]) -> Found
    ensures { result ≡ spec.named names.now text.now }
{
    let sorted = names.sorted.as_slice();
    named_from(
        sorted,
        names.counts.as_slice(),
        place_of(sorted, text),
        text,
    )
}

// What a text finds among the names from a place on that have it.
fn named_from(sorted: &[&Name], counts: &[usize], place: usize, text: &[u8]) -> Found
    requires { counts.now ≡ alike_each (names_of sorted.now) }
    ensures { result ≡ named_in text.now (drop place (names_of sorted.now)) }
{
    if is_named_at(sorted, place, text) {
        found_from(sorted, counts, place, text)
    } else {
        Found::Nothing
    }
}

// Whether the name at a place has a text.
fn is_named_at(sorted: &[&Name], place: usize, text: &[u8]) -> bool
    ensures { result ≡ first_passes (spec.is_named text.now) (drop place (names_of sorted.now)) }
{
    place < sorted.len() && is_named(sorted[place], text)
}

// The place of the first name whose end is not before a text.
fn place_of(sorted: &[&Name], text: &[u8]) -> usize
    requires { IsSortedBy is_before (names_of sorted.now) }
    ensures place { IsPlaceOf text.now (names_of sorted.now) result }
    ensures within { result ≤ length sorted.now }
{
    sorted.partition_point(|name| compare_ends(name.text.as_slice(), text).is_lt())
}

// What a text finds among the names from a place on, of which those that match stand first.
fn found_from(sorted: &[&Name], counts: &[usize], place: usize, text: &[u8]) -> Found
    requires { counts.now ≡ alike_each (names_of sorted.now) }
    ensures { result ≡ found_in text.now (drop place (names_of sorted.now)) }
{
    if place < sorted.len() {
        found_with(
            text,
            sorted[place],
            &sorted[next_other(sorted, counts, place)..],
        )
    } else {
        Found::Nothing
    }
}

// The first place behind one whose name is not alike to the one there.
fn next_other(sorted: &[&Name], counts: &[usize], place: usize) -> usize
    requires counted { counts.now ≡ alike_each (names_of sorted.now) }
    requires inside { place < length sorted.now }
    requires fits { length sorted.now < 2 ^ 64 }
    ensures place { result ≡ place + 1 + slice_index counts.now place }
    ensures within { result ≤ length sorted.now }
{
    place + 1 + counts[place]
}

// What a text finds, by the first name and the others from the first that is not alike to it.
fn found_with(text: &[u8], first: &Name, others: &[&Name]) -> Found
    ensures { result ≡ found_with text.now first.now (names_of others.now) }
{
    if is_named(first, text) {
        said(first, starts_named(others, text))
    } else if ends_named(first, text) {
        said(first, starts_ending(others, text))
    } else {
        Found::Nothing
    }
}

// What a name says, by whether another one that is not alike matches too.
fn said(name: &Name, is_other: bool) -> Found
    ensures { result ≡ said name.now is_other }
{
    if is_other {
        Found::Several
    } else {
        Found::One {
            signal: name.signal,
            left: name.left,
            right: name.right,
        }
    }
}

// Whether the first of names has a text.
fn starts_named(names: &[&Name], text: &[u8]) -> bool
    ensures { result ≡ first_passes (spec.is_named text.now) (names_of names.now) }
{
    match names {
        [first, ..] => is_named(first, text),
        [] => false,
    }
}

// Whether the first of names ends with a dot and a text.
fn starts_ending(names: &[&Name], text: &[u8]) -> bool
    ensures { result ≡ first_passes (spec.ends_named text.now) (names_of names.now) }
{
    match names {
        [first, ..] => ends_named(first, text),
        [] => false,
    }
}

// Whether a name has a text.
fn is_named(name: &Name, text: &[u8]) -> bool
    ensures { result ≡ spec.is_named text.now name.now }
{
    name.text.as_slice() == text
}

// Whether a name ends with a dot and a text.
fn ends_named(name: &Name, text: &[u8]) -> bool
    ensures { result ≡ spec.ends_named text.now name.now }
{
    let whole = name.text.as_slice();
    if whole.len() <= text.len() {
        return false;
    }
    let start = whole.len() - text.len();
    whole[start - 1] == b'.' && whole.ends_with(text)
}
