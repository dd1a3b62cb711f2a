// Clauses that are added.
ghost use Rattle.std.specs.Prelude.{◌≡◌, ◌≢◌, ◌⊎◌, ℕ, suc, [], ◌∷◌, ◌++◌, ◌+◌, ◌-◌, ◌^◌, ◌<◌, ◌≤◌, List, length, replicate, nat_eq, Some, None, IfOk, OnOk, OnErr};
ghost use Rattle.cdcl_propagation.specs.declared.watch.Watch.{Watch};
ghost use Rattle.clause_store.specs.declared.region.TheConstants.{MOST_WORDS};
ghost use Rattle.clause_store.specs.Stored.{stored_words};
ghost use Rattle.cdcl_propagation.specs.Adding.{Adds, IsRefused, with_both};

use crate::watch::{Pair, Watch, WatchList};
use clause_store::Store;
use psl_base::NoMemory;
use std::alloc::Global;

/// So many empty lists.
pub(crate) fn empty_lists(alloc: Global, count: usize) -> Result<Vec<WatchList>, NoMemory>
    ensures { IfOk result (λ lists. lists.items ≡ replicate count []) }
{
    let mut lists = Vec::with_capacity(alloc, count)?;
    for _ in 0..count {
        lists.push_reserved(WatchList::new(alloc));
    }
    Ok(lists)
}

/// Stores a clause and its pair, and gives its number.
pub(crate) fn store(
    clauses: &mut Store,
    pairs: &mut Vec<Pair>,
    clause: &[u32],
    pair: Pair,
) -> Result<u32, NoMemory>
    requires words { stored_words clauses.old + length clause.now ≤ MOST_WORDS }
    requires numbers { length clauses.old < 2 ^ 31 - 1 }
    ensures ok { OnOk result (Adds clauses.old pairs.old.items (Some clause.now) pair clauses.new pairs.new.items) }
    ensures number { IfOk result (λ number. number ≡ suc (length clauses.old)) }
    ensures err { OnErr result ((clauses.new ≡ clauses.old) × (pairs.new.items ≡ pairs.old.items)) }
{
    pairs.reserve(1)?;
    clauses.push(clause)?;
    pairs.push_reserved(pair);
    Ok(clauses.len() as u32)
}

/// Names a clause in the lists of the two literals that it watches. Where memory is refused, the lists stay.
fn name_in_both(
    lists: &mut [WatchList],
    number: u32,
    pair: Pair,
    is_short: bool,
) -> Result<(), NoMemory>
    requires first { pair.first < length lists.old }
    requires second { pair.second < length lists.old }
    requires number { number < 2 ^ 31 }
    ensures ok { OnOk result (lists.new ≡ with_both lists.old number pair is_short) }
    ensures err { OnErr result (lists.new ≡ lists.old) }
{
    lists[pair.first as usize].push(Watch {
        number,
        blocker: pair.second,
        is_short,
    })?;
    let named = lists[pair.second as usize].push(Watch {
        number,
        blocker: pair.first,
        is_short,
    });
    if named.is_err() {
        lists[pair.first as usize].pop();
    }
    named
}

/// Stores a clause with the pair that it is to watch, and names it in the lists of both. It gives its number.
pub(crate) fn add(
    clauses: &mut Store,
    pairs: &mut Vec<Pair>,
    lists: &mut [WatchList],
    clause: &[u32],
    pair: Pair,
) -> Result<u32, NoMemory>
    requires first { pair.first < length lists.old }
    requires second { pair.second < length lists.old }
    requires words { stored_words clauses.old + length clause.now ≤ MOST_WORDS }
    requires numbers { length clauses.old < 2 ^ 31 - 1 }
    ensures ok { OnOk result (Adds clauses.old pairs.old.items (Some clause.now) pair clauses.new pairs.new.items) }
    ensures lists { OnOk result (lists.new ≡ with_both lists.old (suc (length clauses.old)) pair (nat_eq (length clause.now) 2)) }
    ensures number { IfOk result (λ number. number ≡ suc (length clauses.old)) }
    ensures err { OnErr result (IsRefused clauses.old pairs.old.items pair clauses.new pairs.new.items) }
    ensures err_lists { OnErr result (lists.new ≡ lists.old) }
{
    let number = store(clauses, pairs, clause, pair)?;
    if name_in_both(lists, number, pair, clause.len() == 2).is_err() {
        clauses.remove(number as usize - 1);
        return Err(NoMemory);
    }
    Ok(number)
}
