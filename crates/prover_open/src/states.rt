// Joint states from what is owed and pending.
ghost use Rattle.std.specs.Prelude.{◌≡◌, ◌+◌, ◌^◌, ◌<◌, filter, length, All, IfOk, IfSome};
ghost use Rattle.joint_theory.specs.States.{is_asked, AreAsked};
ghost use Rattle.netlist.specs.Valuations.{bit};
ghost use Rattle.prover_held.specs.Judged.{HaveSignals};
ghost use Rattle.prover_held.specs.Lasting.{before_in, letter_in};
ghost use Rattle.run_terms.specs.Automata.{TestsSignals};
ghost use Rattle.prover_open.specs.Standing.{state_of, AreOwed, AreRising, AreWaiting, Stands};
ghost use Rattle.prover_open.specs.Standing.{Follows, IsOffered, IsPendingBy};

use crate::asking::asked_by;
use crate::listing::{all_numbers, chosen, put_off};
use crate::meeting::{owed_met, pending_met};
use crate::reading::Reading;
use alternating::Alternating;
use joint_theory::{JointState, Places};
use netlist::Valuations;
use psl_base::{Bits, NoMemory};
use std::alloc::Global;

// The valuation before a place of a path, if there is one.
fn valuation_before(
    alloc: Global,
    path: &Valuations,
    place: usize,
) -> Result<Option<Bits>, NoMemory>
    requires { place < length path.now }
    ensures { IfOk result (λ before. before ≡ before_in path.now place) }
{
    if place == 0 {
        return Ok(None);
    }
    let before = path.at(place - 1).copy(alloc)?;
    Ok(Some(before))
}

// The joint state at a place of a path with these obligations.
fn state_at(
    alloc: Global,
    path: &Valuations,
    place: usize,
    owed: Places,
    pending: Places,
    count: u32,
) -> Result<JointState, NoMemory>
    requires { place < length path.now }
    ensures { IfOk result (λ state. state ≡ state_of path.now place owed pending count) }
{
    let before = valuation_before(alloc, path, place)?;
    let valuation = path.at(place).copy(alloc)?;
    Ok(JointState {
        before,
        valuation,
        owed,
        pending,
        count,
    })
}

// The obligations that a hint says, in order.
fn owed_first(alloc: Global, automaton: &Alternating, hint: &[bool]) -> Result<Places, NoMemory>
    requires { length hint.now ≡ length automaton.now.obligations }
    ensures { IfOk result (AreRising automaton.now) }
{
    let all = all_numbers(alloc, automaton.len())?;
    chosen(alloc, all.as_slice(), hint)
}

// Those of what is owed that a hint says and that are not accepting.
fn pending_first(
    alloc: Global,
    automaton: &Alternating,
    owed: &Places,
    hint: &[bool],
) -> Result<Places, NoMemory>
    requires owed { AreRising automaton.now owed.now }
    requires hint { length hint.now ≡ length automaton.now.obligations }
    ensures { IfOk result (AreWaiting automaton.now owed.now) }
{
    let waiting = put_off(alloc, automaton, owed.as_slice())?;
    chosen(alloc, waiting.as_slice(), hint)
}

/// A joint state at the first place of a path: what hints say is owed and pending, as far as that is not accepting.
pub(crate) fn first_state(
    alloc: Global,
    automaton: &Alternating,
    path: &Valuations,
    owed: &[bool],
    pending: &[bool],
) -> Result<JointState, NoMemory>
    requires some { 0 < length path.now }
    requires owed { length owed.now ≡ length automaton.now.obligations }
    requires pending { length pending.now ≡ length automaton.now.obligations }
    ensures stands { IfOk result (Stands path.now 0) }
    ensures owes { IfOk result (AreOwed automaton.now) }
{
    let numbers = owed_first(alloc, automaton, owed)?;
    let waiting = pending_first(alloc, automaton, &numbers, pending)?;
    state_at(alloc, path, 0, numbers, waiting, 0)
}

// Of some obligations those that a hint says and that others ask for on the letter at a place.
fn supported(
    alloc: Global,
    reading: Reading<'_>,
    place: usize,
    by: &[u32],
    among: &[u32],
    hint: &[bool],
) -> Result<Places, NoMemory>
    requires tests { TestsSignals reading.netlist.now reading.automaton.now }
    requires path { HaveSignals reading.netlist.now reading.path.now }
    requires place { place < length reading.path.now }
    requires by { All (λ number. number < length reading.automaton.now.obligations) by.now }
    requires among { All (λ number. number < length reading.automaton.now.obligations) among.now }
    requires hint { length hint.now ≡ length reading.automaton.now.obligations }
    ensures { IfOk result (λ found. found
        ≡ filter (is_asked reading.entry.automaton.now
        (letter_in reading.entry.netlist.now reading.entry.path.now place) by.now)
        (filter (bit hint.now) among.now)) }
{
    let asked = asked_by(alloc, reading, place, by)?;
    let hinted = chosen(alloc, among, hint)?;
    chosen(alloc, hinted.as_slice(), asked.as_slice())
}

// What is owed behind a state: what a hint says and what is owed asks for.
fn owed_next(
    alloc: Global,
    reading: Reading<'_>,
    place: usize,
    now: &JointState,
    hint: &[bool],
) -> Result<Places, NoMemory>
    requires tests { TestsSignals reading.netlist.now reading.automaton.now }
    requires path { HaveSignals reading.netlist.now reading.path.now }
    requires place { place < length reading.path.now }
    requires now { AreRising reading.automaton.now now.now.owed }
    requires hint { length hint.now ≡ length reading.automaton.now.obligations }
    ensures numbers { IfOk result (AreRising reading.entry.automaton.now) }
    ensures asked { IfOk result (AreAsked reading.entry.automaton.now
        (letter_in reading.entry.netlist.now reading.entry.path.now place) now.now.owed) }
{
    let all = all_numbers(alloc, reading.automaton.len())?;
    supported(
        alloc,
        reading,
        place,
        now.owed.as_slice(),
        all.as_slice(),
        hint,
    )
}

// What is pending behind a state: all of what is owed there that is not accepting, where nothing is pending, else what
// a hint says and what is pending asks for.
fn pending_next(
    alloc: Global,
    reading: Reading<'_>,
    place: usize,
    now: &JointState,
    owed: &Places,
    hint: &[bool],
) -> Result<Places, NoMemory>
    requires tests { TestsSignals reading.netlist.now reading.automaton.now }
    requires path { HaveSignals reading.netlist.now reading.path.now }
    requires place { place < length reading.path.now }
    requires now { AreRising reading.automaton.now now.now.pending }
    requires owed { AreRising reading.automaton.now owed.now }
    requires hint { length hint.now ≡ length reading.automaton.now.obligations }
    ensures { IfOk result (IsPendingBy reading.entry.automaton.now
        (letter_in reading.entry.netlist.now reading.entry.path.now place) now.now owed.now) }
{
    let waiting = put_off(alloc, reading.automaton, owed.as_slice())?;
    let asked = supported(
        alloc,
        reading,
        place,
        now.pending.as_slice(),
        waiting.as_slice(),
        hint,
    )?;
    Ok(pending_of(now, waiting, asked))
}

// The first of two lists, where nothing is pending, else the second.
fn pending_of(now: &JointState, waiting: Places, asked: Places) -> Places
    ensures anew { length now.now.pending ≡ 0 → result ≡ waiting }
    ensures same { 0 < length now.now.pending → result ≡ asked }
{
    if now.pending.len() == 0 {
        waiting
    } else {
        asked
    }
}

// The count behind a state.
fn count_next(now: &JointState) -> u32
    ensures anew { length now.now.pending ≡ 0 → result ≡ 1 }
    ensures same { 0 < length now.now.pending → result ≡ now.now.count }
{
    if now.pending.len() == 0 { 1 } else { now.count }
}

// A joint state that may come behind one, as far as what is asked for goes: what hints say is owed and pending.
fn offered(
    alloc: Global,
    reading: Reading<'_>,
    place: usize,
    now: &JointState,
    owed: &[bool],
    pending: &[bool],
) -> Result<JointState, NoMemory>
    requires tests { TestsSignals reading.netlist.now reading.automaton.now }
    requires path { HaveSignals reading.netlist.now reading.path.now }
    requires place { place + 1 < length reading.path.now }
    requires fits { place + 1 < 2 ^ 64 }
    requires owes { AreOwed reading.automaton.now now.now }
    requires owed { length owed.now ≡ length reading.automaton.now.obligations }
    requires pending { length pending.now ≡ length reading.automaton.now.obligations }
    ensures { IfOk result (IsOffered reading.entry.netlist.now reading.entry.automaton.now reading.entry.path.now
        place now.now) }
{
    let numbers = owed_next(alloc, reading, place, now, owed)?;
    let waiting = pending_next(alloc, reading, place, now, &numbers, pending)?;
    let count = count_next(now);
    state_at(alloc, reading.path, place + 1, numbers, waiting, count)
}

/// A joint state that follows one at a place of a path: what hints say is owed and pending, as far as it is asked for.
/// None, if this does not meet what is owed and pending there.
pub(crate) fn next_state(
    alloc: Global,
    reading: Reading<'_>,
    place: usize,
    now: &JointState,
    owed: &[bool],
    pending: &[bool],
) -> Result<Option<JointState>, NoMemory>
    requires tests { TestsSignals reading.netlist.now reading.automaton.now }
    requires path { HaveSignals reading.netlist.now reading.path.now }
    requires place { place + 1 < length reading.path.now }
    requires fits { place + 1 < 2 ^ 64 }
    requires owes { AreOwed reading.automaton.now now.now }
    requires owed { length owed.now ≡ length reading.automaton.now.obligations }
    requires pending { length pending.now ≡ length reading.automaton.now.obligations }
    ensures { IfOk result (λ found. IfSome found (Follows reading.entry.netlist.now reading.entry.automaton.now
        reading.entry.path.now place now.now)) }
{
    let next = offered(alloc, reading, place, now, owed, pending)?;
    let owed_met = owed_met(alloc, reading, place, now, &next)?;
    let pending_met = pending_met(alloc, reading, place, now, &next)?;
    if owed_met && pending_met {
        return Ok(Some(next));
    }
    Ok(None)
}
