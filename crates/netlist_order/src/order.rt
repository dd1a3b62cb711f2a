// The search through all tables.
ghost use Rattle.std.specs.Prelude.{◌≡◌, ◌≢◌, ◌<◌, ◌^◌, ◌↔◌, [], length, IfOk, IfErr, OnOk, IsTrue};
ghost use Rattle.netlist_order.specs.Graph.{IsGraph, IsOrder, IsFirstOnCycle};
ghost use Rattle.netlist_order.specs.State.{mark_of, table_at, work};
ghost use Rattle.netlist_order.specs.Sound.{IsSound, IsLast, IsFollowed, IsCyclic, KeepsMet};

use crate::search::{Search, Visit};
use crate::wiring::Wiring;
use psl_base::NoMemory;
use std::alloc::Global;

/// A topological order of the tables, in which each stands after all those that it reads; or, where there is none,
/// the table with the lowest number of those that depend on themselves (the first on a combinational cycle).
///
/// The time is linear in the number of tables and inputs, and nothing recurses.
///
/// # Errors
///
/// `NoMemory` if memory is refused.
pub fn order_of(alloc: Global, wiring: &Wiring) -> Result<Result<Vec<u32>, u32>, NoMemory>
    requires graph { IsGraph wiring.now }
    requires size { length wiring.now < 2 ^ 32 }
    ensures order { IfOk result (λ answer. IfOk answer (λ order. IsOrder wiring.now order.items)) }
    ensures cycle { IfOk result (λ answer. IfErr answer (λ table. IsFirstOnCycle wiring.now table)) }
{
    let count = wiring.len();
    let mut search = Search::new(alloc, count)?;
    for table in 0..count {
        explore(wiring, &mut search, table as u32)?;
    }
    Ok(search.into_answer())
}

// Meets a table and all those that it leads to, where it was not met.
fn explore(wiring: &Wiring, search: &mut Search, table: u32) -> Result<(), NoMemory>
    requires graph { IsGraph wiring.now }
    requires sound { IsSound wiring.now search.old }
    requires ended { search.old.path ≡ [] }
    requires table { table < length wiring.now }
    ensures sound { OnOk result (IsSound wiring.now search.new) }
    ensures ended { OnOk result (search.new.path ≡ []) }
    ensures kept { OnOk result (KeepsMet search.old search.new) }
    ensures met { OnOk result (mark_of search.new table ≢ Visit.New) }
{
    let Visit::New = search.mark(table) else {
        return Ok(());
    };
    search.enter(table)?;
    while let Some(place) = search.place() {
        turn(wiring, search, place)?;
    }
    Ok(())
}

// One step of the search, at the last place of the path: follows one more input of the table there, or leaves it.
fn turn(wiring: &Wiring, search: &mut Search, place: usize) -> Result<(), NoMemory>
    requires graph { IsGraph wiring.now }
    requires sound { IsSound wiring.now search.old }
    requires at { IsLast search.old.path place }
    ensures sound { OnOk result (IsSound wiring.now search.new) }
    ensures kept { OnOk result (KeepsMet search.old search.new) }
    ensures nearer { OnOk result (work wiring.now search.new < work wiring.now search.old) }
{
    let table = search.table(place);
    match wiring.driver(table, search.next(table)) {
        Some(Some(driver)) => {
            search.reach(driver)?;
            search.advance(table);
            Ok(())
        }
        Some(None) => {
            search.advance(table);
            Ok(())
        }
        None => leave(wiring, search, place),
    }
}

// Leaves the last place of the path, and closes the component that begins there.
fn leave(wiring: &Wiring, search: &mut Search, place: usize) -> Result<(), NoMemory>
    requires sound { IsSound wiring.now search.old }
    requires at { IsLast search.old.path place }
    requires followed { IsFollowed wiring.now search.old (table_at search.old place) }
    ensures sound { OnOk result (IsSound wiring.now search.new) }
    ensures kept { OnOk result (KeepsMet search.old search.new) }
    ensures nearer { OnOk result (work wiring.now search.new < work wiring.now search.old) }
{
    search.leave();
    if search.head() != Some(place) {
        return Ok(());
    }
    let cyclic = is_cyclic(wiring, search, place);
    search.close(place, cyclic)
}

// Whether the open tables from a place on, which are one component, are on a cycle.
fn is_cyclic(wiring: &Wiring, search: &Search, place: usize) -> bool
    requires place { place < length search.now.met }
    requires table { table_at search.now place < length wiring.now }
    ensures { IsTrue result ↔ IsCyclic wiring.now search.now place }
{
    search.open() - place > 1 || wiring.reads_itself(search.table(place))
}
