// Names in the order of their ends.
ghost use Rattle.std.specs.Prelude.{◌≡◌, ◌+◌, ◌^◌, ◌<◌, ◌++◌, ◌∷◌, [], IfOk, OnOk};
ghost use Rattle.psl_names.specs.Alike.{alike, alike_each, front_count};
ghost use Rattle.psl_layer_theory.specs.LookUp.{is_same_range};
ghost use Rattle.psl_names.specs.Sorting.{names_of, IsSorting};

use crate::ends::compare_ends;
use psl_base::NoMemory;
use psl_tree::Name;
use std::alloc::Global;

/// References to names, in the order of their ends.
pub(crate) fn sorted_by_ends<'a>(
    alloc: Global,
    names: &'a [Name],
) -> Result<Vec<&'a Name>, NoMemory>
    ensures { IfOk result (λ sorted. IsSorting names.now (names_of sorted.items)) }
{
    let mut sorted = references(alloc, names)?;
    sort_by_ends(&mut sorted)?;
    Ok(sorted)
}

// A reference to each name.
fn references<'a>(alloc: Global, names: &'a [Name]) -> Result<Vec<&'a Name>, NoMemory>
    ensures { IfOk result (λ references. names_of references.items ≡ names.now) }
{
    Ok(names.iter().collect(alloc)?)
}

// Sorts names by their ends.
fn sort_by_ends(names: &mut Vec<&Name>) -> Result<(), NoMemory>
    ensures { OnOk result (IsSorting (names_of names.old.items) (names_of names.new.items)) }
{
    names.sort_by(|first, second| compare_ends(first.text.as_slice(), second.text.as_slice()))?;
    Ok(())
}

/// For each name, how many directly behind it have its signal and its range.
pub(crate) fn alike_counts(alloc: Global, names: &[&Name]) -> Result<Vec<usize>, NoMemory>
    ensures { IfOk result (λ counts. counts.items ≡ alike_each (names_of names.now)) }
{
    let mut counts = Vec::new(alloc);
    let mut count = 0;
    for distance in 0..names.len() {
        let place = names.len() - 1 - distance;
        count = alike_count(names[place], &names[place + 1..], count);
        add_count(&mut counts, count)?;
    }
    counts.reverse();
    Ok(counts)
}

// Adds a count at the end.
fn add_count(counts: &mut Vec<usize>, count: usize) -> Result<(), NoMemory>
    ensures { OnOk result (counts.new.items ≡ counts.old.items ++ count ∷ []) }
{
    counts.push(count)?;
    Ok(())
}

// How many directly behind a name have its signal and its range, where it is known for the first of those.
fn alike_count(name: &Name, behind: &[&Name], count: usize) -> usize
    requires known { count ≡ front_count (names_of behind.now) }
    requires fits { count + 1 < 2 ^ 64 }
    ensures { result ≡ alike name.now (names_of behind.now) }
{
    match behind {
        [next, ..] if is_same_range(name, next) => count + 1,
        _ => 0,
    }
}

// Whether two names have one signal and one range.
fn is_same_range(first: &Name, second: &Name) -> bool
    ensures { result ≡ is_same_range first.now second.now }
{
    first.signal == second.signal && first.left == second.left && first.right == second.right
}
