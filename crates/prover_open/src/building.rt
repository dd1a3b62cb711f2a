// The joint path that hints give.
ghost use Rattle.std.specs.Prelude.{◌≡◌, ◌+◌, ◌-◌, ◌<◌, false, length, All, IfOk, IfSome, IsTrue};
ghost use Rattle.gates_frames.specs.Paths.{IsPath};
ghost use Rattle.joint_theory.specs.Paths.{IsOpenOther};
ghost use Rattle.run_terms.specs.Automata.{TestsSignals};
ghost use Rattle.prover_open.specs.Standing.{AreLong, StandAlong};

use crate::judging::ends_badly;
use crate::reading::Reading;
use crate::states::{first_state, next_state};
use alternating::Alternating;
use joint_theory::{JointPath, JointStates};
use netlist::{Netlist, Valuations};
use prover_held::{Choices, filled, follow};
use psl_base::{Bits, Items, NoMemory};
use std::alloc::Global;

/// The joint path, counted for no visit, that hints give: the path from any valuation that has the values of
/// `choices`, and at each of its places what `owed` and `pending` say, a value for each obligation, as far as joint
/// states allow. None, if it is not open at the window of one state less than it has, or if there are not as many hints
/// as places, or not as many values as obligations.
///
/// # Errors
///
/// `NoMemory` if memory is refused.
pub fn open_path(
    alloc: Global,
    netlist: &Netlist,
    automaton: &Alternating,
    choices: &Choices,
    owed: &Items<Bits>,
    pending: &Items<Bits>,
) -> Result<Option<JointPath>, NoMemory>
    requires tests { TestsSignals netlist.now automaton.now }
    requires some { 0 < length choices.now.inputs }
    requires latches { length choices.now.latches ≡ length netlist.now.latches }
    requires inputs { All (λ values. length values ≡ length netlist.now.inputs) choices.now.inputs }
    ensures { IfOk result (λ found. IfSome found (λ path.
        IsOpenOther netlist.now automaton.now 0 (length choices.now.inputs - 1) path)) }
{
    let path = walk_freely(alloc, netlist, choices)?;
    if !fit(&path, automaton, owed) {
        return Ok(None);
    }
    if !fit(&path, automaton, pending) {
        return Ok(None);
    }
    let reading = Reading {
        netlist,
        automaton,
        path: &path,
    };
    let joint = match joint_path(alloc, reading, owed, pending)? {
        Some(joint) => joint,
        None => return Ok(None),
    };
    if ends_badly(&joint) {
        return Ok(Some(joint));
    }
    Ok(None)
}

// The path from any valuation that choices give.
fn walk_freely(alloc: Global, netlist: &Netlist, choices: &Choices) -> Result<Valuations, NoMemory>
    requires some { 0 < length choices.now.inputs }
    requires latches { length choices.now.latches ≡ length netlist.now.latches }
    requires inputs { All (λ values. length values ≡ length netlist.now.inputs) choices.now.inputs }
    ensures path { IfOk result (IsPath netlist.now false) }
    ensures size { IfOk result (λ path. length path ≡ length choices.now.inputs) }
{
    let inputs = &choices.inputs;
    let first = filled(alloc, netlist, inputs.at(0), choices.latches.as_slice())?;
    follow(alloc, netlist, first, inputs)
}

// Whether there is a hint for each place of a path, with a value for each obligation.
fn fit(path: &Valuations, automaton: &Alternating, hints: &Items<Bits>) -> bool
    ensures many { IsTrue result → length hints.now ≡ length path.now }
    ensures long { IsTrue result → AreLong (length hints.now) (length automaton.now.obligations) hints.now }
{
    all_long(hints.as_slice(), automaton.len() as usize) && hints.len() == path.len()
}

// Whether each list of bits has so many.
fn all_long(hints: &[Bits], count: usize) -> bool
    ensures { IsTrue result → AreLong (length hints.now) count hints.now }
{
    let mut long = true;
    for place in 0..hints.len() {
        long = long && hints[place].len() == count;
    }
    long
}

// The joint path along a path with what hints say. None, if a state does not meet what is owed or pending before it.
fn joint_path(
    alloc: Global,
    reading: Reading<'_>,
    owed: &Items<Bits>,
    pending: &Items<Bits>,
) -> Result<Option<JointPath>, NoMemory>
    requires tests { TestsSignals reading.netlist.now reading.automaton.now }
    requires path { IsPath reading.netlist.now false reading.path.now }
    requires owed_many { length owed.now ≡ length reading.path.now }
    requires owed_long { AreLong (length owed.now) (length reading.automaton.now.obligations) owed.now }
    requires pending_many { length pending.now ≡ length reading.path.now }
    requires pending_long { AreLong (length pending.now) (length reading.automaton.now.obligations) pending.now }
    ensures { IfOk result (λ found. IfSome found (λ joint.
        StandAlong reading.entry.netlist.now reading.entry.automaton.now reading.entry.path.now
        (length reading.entry.path.now) joint.states)) }
{
    let mut states = begin(alloc, reading, owed, pending)?;
    for place in 1..reading.path.len() {
        if !extend(alloc, reading, place, owed, pending, &mut states)? {
            return Ok(None);
        }
    }
    Ok(Some(JointPath { states }))
}

// The joint state at the first place with what hints say.
fn begin(
    alloc: Global,
    reading: Reading<'_>,
    owed: &Items<Bits>,
    pending: &Items<Bits>,
) -> Result<JointStates, NoMemory>
    requires path { IsPath reading.netlist.now false reading.path.now }
    requires owed_many { length owed.now ≡ length reading.path.now }
    requires owed_long { AreLong (length owed.now) (length reading.automaton.now.obligations) owed.now }
    requires pending_many { length pending.now ≡ length reading.path.now }
    requires pending_long { AreLong (length pending.now) (length reading.automaton.now.obligations) pending.now }
    ensures { IfOk result (StandAlong reading.entry.netlist.now reading.entry.automaton.now
        reading.entry.path.now 1) }
{
    let owes = owed.at(0).as_slice();
    let waits = pending.at(0).as_slice();
    let first = first_state(alloc, reading.automaton, reading.path, owes, waits)?;
    let mut states = JointStates::new(alloc);
    states.push(first)?;
    Ok(states)
}

// Adds the joint state at a place with what hints say. It says whether this follows the last one; if not, none is
// added.
fn extend(
    alloc: Global,
    reading: Reading<'_>,
    place: usize,
    owed: &Items<Bits>,
    pending: &Items<Bits>,
    states: &mut JointStates,
) -> Result<bool, NoMemory>
    requires tests { TestsSignals reading.netlist.now reading.automaton.now }
    requires path { IsPath reading.netlist.now false reading.path.now }
    requires later { 0 < place }
    requires place { place < length reading.path.now }
    requires owed_many { length owed.now ≡ length reading.path.now }
    requires owed_long { AreLong (length owed.now) (length reading.automaton.now.obligations) owed.now }
    requires pending_many { length pending.now ≡ length reading.path.now }
    requires pending_long { AreLong (length pending.now) (length reading.automaton.now.obligations) pending.now }
    requires along { StandAlong reading.netlist.now reading.automaton.now reading.path.now place states.old }
    ensures { IfOk result (λ added. IsTrue added
        → StandAlong reading.entry.netlist.now reading.entry.automaton.now reading.entry.path.now
        (place + 1) states.new) }
{
    let owes = owed.at(place).as_slice();
    let waits = pending.at(place).as_slice();
    let now = states.at(place - 1);
    match next_state(alloc, reading, place - 1, now, owes, waits)? {
        Some(next) => {
            states.push(next)?;
            Ok(true)
        }
        None => Ok(false),
    }
}
