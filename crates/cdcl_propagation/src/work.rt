// Visits to the entries of a false literal's list, which is worked in place.
ghost use Rattle.std.specs.Prelude.{◌^◌, ◌≡◌, ◌≢◌, ◌⊎◌, ℕ, [], ◌*◌, ◌<◌, ◌≤◌, List, length, take, drop, slice_index, Some, None, IfSome, IfNone};
ghost use Rattle.std.specs.List.{All, Contains};
ghost use Rattle.clauses.specs.Live.{clause_of};
ghost use Rattle.cdcl_trail.specs.Literals.{opposite};
ghost use Rattle.cdcl_propagation.specs.State.{HasReasons, Extends};
ghost use Rattle.cdcl_propagation.specs.Watching.{IsPaired, IsEntry, IsVisiting};
ghost use Rattle.cdcl_propagation.specs.Visits.{Moves, Visited, StopsFor};

use crate::visit::look_at;
use crate::watch::{Outcome, Packed, Pair, Stop, Visit, Watch, WatchList};
use cdcl_trail::{Trail, opposite};
use clause_store::Store;

/// Visits an entry of the list of a false literal.
#[inline(always)]
fn visit(
    clauses: &Store,
    pairs: &mut [Pair],
    lists: &mut [WatchList],
    trail: &mut Trail,
    watch: Watch,
    literal: u32,
) -> Outcome
    requires paired { IsPaired clauses.now pairs.old (2 * trail.old.variables) }
    requires within { (number : ℕ) (clause : List ℕ) → clause_of clauses.now number ≡ Some clause → All (λ literal. literal < 2 * trail.old.variables) clause }
    requires size { length lists.old ≡ 2 * trail.old.variables }
    requires entry { IsEntry clauses.now (length pairs.old) (2 * trail.old.variables) literal watch }
    requires small { watch.number < 2 ^ 31 }
    requires false_ { Contains trail.old.literals (opposite literal) }
    ensures { Visited clauses.now pairs.old lists.old trail.old literal watch result pairs.new lists.new trail.new }
{
    match look_at(clauses, pairs, trail, watch, literal) {
        Visit::Keep(watch) => Outcome::Keep(watch),
        Visit::Force(watch) => {
            trail.push(watch.blocker, watch.number);
            Outcome::Keep(watch)
        }
        Visit::Move(pair) => move_watch(pairs, lists, watch.number, pair),
        Visit::Gone => Outcome::Gone,
        Visit::Conflict => Outcome::Stop(Stop::Conflict(watch.number)),
    }
}

/// Lets a clause watch another pair, of which the second literal was watched before.
#[inline(always)]
fn move_watch(pairs: &mut [Pair], lists: &mut [WatchList], number: u32, pair: Pair) -> Outcome
    requires number { number < length pairs.old }
    requires small { number < 2 ^ 31 }
    requires first { pair.first < length lists.old }
    ensures { ((result ≡ Outcome.Gone) × Moves pairs.old lists.old number pair pairs.new lists.new)
        ⊎ ((result ≡ Outcome.Stop Stop.NoMemory) × (pairs.new ≡ pairs.old) × (lists.new ≡ lists.old)) }
{
    let entry = Watch {
        number,
        blocker: pair.second,
        is_short: false,
    };
    match lists[pair.first as usize].push(entry) {
        Ok(()) => {
            pairs[number as usize] = pair;
            Outcome::Gone
        }
        Err(_) => Outcome::Stop(Stop::NoMemory),
    }
}

/// Where visits to a list stopped: so many entries stay of those in front of the next one.
#[derive(Drop)]
pub(crate) struct Gap {
    pub(crate) kept: usize,
    pub(crate) next: usize,
    pub(crate) stop: Option<Stop>,
}

/// Visits the entries of the list of the literal that a place of the trail makes false.
pub(crate) fn visit_list(
    clauses: &Store,
    pairs: &mut [Pair],
    lists: &mut [WatchList],
    trail: &mut Trail,
    list: &mut [Packed],
    head: usize,
) -> Gap
    requires head { head < length trail.old.literals }
    requires visiting { IsVisiting clauses.now pairs.old lists.old trail.old head (opposite (slice_index trail.old.literals head)) [] list.old }
    requires reasons { HasReasons clauses.now trail.old }
    ensures visiting { IsVisiting clauses.now pairs.new lists.new trail.new head (opposite (slice_index trail.old.literals head))
        (take result.kept list.new) (drop result.next list.new) }
    ensures reasons { HasReasons clauses.now trail.new }
    ensures grown { Extends trail.old trail.new }
    ensures order { result.kept ≤ result.next }
    ensures within { result.next ≤ length list.new }
    ensures ended { IfNone result.stop (result.next ≡ length list.new) }
    ensures stopped { IfSome result.stop (StopsFor clauses.now trail.new) }
{
    let literal = opposite(trail.literals()[head]);
    let mut kept = 0;
    let mut next = 0;
    while next < list.len() {
        match visit(clauses, pairs, lists, trail, list[next].watch(), literal) {
            Outcome::Keep(watch) => {
                list[kept] = Packed::new(watch);
                kept += 1;
            }
            Outcome::Gone => {}
            Outcome::Stop(stop) => {
                return Gap {
                    kept,
                    next,
                    stop: Some(stop),
                };
            }
        }
        next += 1;
    }
    Gap {
        kept,
        next,
        stop: None,
    }
}
