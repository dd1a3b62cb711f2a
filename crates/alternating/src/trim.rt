ghost use Rattle.std.specs.Prelude.{◌≡◌, ◌+◌, ◌^◌, ◌<◌, ◌≤◌, ◌++◌, [], ◌∷◌, if◌then◌else◌, length, map, slice_index, IfOk, OnOk};
ghost use Rattle.sere_nfa.specs.Marking.{is_marked};
ghost use Rattle.alternating_theory.specs.Trimmed.{kept, renumbered_obligation};
ghost use Rattle.alternating.specs.Search.{Names};
ghost use Rattle.alternating_theory.specs.Positive.{OwesWithin};
ghost use Rattle.alternating.specs.Views.{positive_of, obligation_of, obligations_of_code, ObligationsWithin};

use crate::obligation::Obligation;
use psl_base::NoMemory;
use std::alloc::Global;

/// The new number of each obligation: how many marked ones stand before it.
pub(crate) fn names_of(alloc: Global, marks: &[bool]) -> Result<Vec<u32>, NoMemory>
    requires { length marks.now < 2 ^ 32 }
    ensures { IfOk result (λ names. Names marks.now names.items) }
{
    let mut names = Vec::new(alloc);
    let mut count: u32 = 0;
    for marked in marks {
        names.push(count)?;
        count = counted(count, *marked);
    }
    Ok(names)
}

// One more, if it is marked.
fn counted(count: u32, marked: bool) -> u32
    requires { count + 1 < 2 ^ 32 }
    ensures { result ≡ count + (if marked then 1 else 0) }
{
    if marked { count + 1 } else { count }
}

/// The marked obligations in order, with the numbers that stand in a table.
pub(crate) fn kept(
    alloc: Global,
    obligations: &[Obligation],
    marks: &[bool],
    names: &[u32],
) -> Result<Vec<Obligation>, NoMemory>
    requires marks { length marks.now ≡ length obligations.now }
    requires within { ObligationsWithin 0 (length names.now) obligations.now }
    ensures { IfOk result (λ new. obligations_of_code new.items ≡ map (λ obligation. renumbered_obligation (λ number. slice_index names.now number) obligation) (kept (is_marked marks.now) (obligations_of_code obligations.now))) }
{
    let mut found = Vec::new(alloc);
    for (number, obligation) in obligations.iter().enumerate() {
        keep(alloc, obligation, marks[number], names, &mut found)?;
    }
    Ok(found)
}

// Adds the obligation, if it is marked, with the numbers that stand in a table.
fn keep(
    alloc: Global,
    obligation: &Obligation,
    marked: bool,
    names: &[u32],
    into: &mut Vec<Obligation>,
) -> Result<(), NoMemory>
    requires { OwesWithin 0 (length names.now) (positive_of obligation.now.delta) }
    ensures { OnOk result (obligations_of_code into.new.items ≡ obligations_of_code into.old.items ++ (if marked then renumbered_obligation (λ number. slice_index names.now number) (obligation_of obligation.now) ∷ [] else [])) }
{
    if marked {
        let new = obligation.renamed(alloc, names)?;
        into.push(new)?;
    }
    Ok(())
}
