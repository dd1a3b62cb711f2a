// Keeping a cube out of frames.
ghost use Rattle.std.specs.Prelude.{◌≡◌, ◌==◌, ◌<◌, false, is_some, IsTrue, IfOk, IfErr, OnOk};
ghost use Rattle.reach_frames.specs.Bits.{is_met, is_in_cube};
ghost use Rattle.reach_frames.specs.Searches.{frame_in, frame_before, AreReady, AreNarrowed, IsBlocked, IsKeptOut, IsTask, IsUnbegun};
ghost use Rattle.reach_frames.specs.Systems.{IsEntry};

use crate::bits::{cube_of, marked, negated};
use crate::budget::is_spent;
use crate::learning::learn;
use crate::path::{led_into, path_along, path_of};
use crate::{Entered, Entry, Frames, Literals, Machine, Path, Stop};
use std::alloc::Global;

/// A cube that is to be kept out, and how many states a path to it may still have before it.
#[derive(Debug, Drop)]
pub(crate) struct Task {
    pub(crate) cube: Literals,
    pub(crate) room: usize,
}

/// How a task ends.
#[derive(Debug, Drop)]
pub(crate) enum Blocked {
    /// The cube is kept out.
    Out,
    /// A path leads into the cube.
    Path(Path),
    /// The budget is spent.
    Paused,
}

/// Keeps a cube out of a frame, and out of those above it for as long as there is room for their paths.
#[cycle(blocking)]
pub(crate) fn block<M: Machine>(
    alloc: Global,
    machine: &M,
    frames: &mut Frames,
    budget: &mut Option<u64>,
    task: &Task,
    first: usize,
) -> Result<Blocked, Stop>
    requires ready { AreReady (M.system machine.now) frames.old }
    requires task { IsTask (M.system machine.now) frames.old task.now first }
    ensures narrowed { OnOk result (AreNarrowed (M.system machine.now) frames.old frames.new) }
    ensures answer { IfOk result (IsBlocked (M.system machine.now) task.now budget.old (IsKeptOut (frame_in frames.new first) task.now.cube)) }
    ensures budget { is_some budget.new ≡ is_some budget.old }
    ensures stopped { IfErr result (M.stops machine.now) }
{
    match machine.begins(alloc, task.cube.as_slice())? {
        Some(state) => return Ok(Blocked::Path(path_of(alloc, state)?)),
        None => {}
    }
    let clause = negated(alloc, task.cube.as_slice())?;
    for place in first..frames.len().min(task.room) {
        if !frames.has_part(place, clause.as_slice()) {
            match keep_out(alloc, machine, frames, budget, task, place)? {
                Blocked::Out => {}
                Blocked::Path(path) => return Ok(Blocked::Path(path)),
                Blocked::Paused => return Ok(Blocked::Paused),
            }
        }
    }
    Ok(Blocked::Out)
}

/// Keeps a cube in which no state begins out of a frame.
#[cycle(blocking)]
fn keep_out<M: Machine>(
    alloc: Global,
    machine: &M,
    frames: &mut Frames,
    budget: &mut Option<u64>,
    task: &Task,
    place: usize,
) -> Result<Blocked, Stop>
    requires ready { AreReady (M.system machine.now) frames.old }
    requires task { IsTask (M.system machine.now) frames.old task.now place }
    requires unbegun { IsUnbegun (M.system machine.now) task.now.cube }
    ensures narrowed { OnOk result (AreNarrowed (M.system machine.now) frames.old frames.new) }
    ensures answer { IfOk result (IsBlocked (M.system machine.now) task.now budget.old (IsKeptOut (frame_in frames.new place) task.now.cube)) }
    ensures budget { is_some budget.new ≡ is_some budget.old }
    ensures stopped { IfErr result (M.stops machine.now) }
{
    loop {
        if is_spent(budget) {
            return Ok(Blocked::Paused);
        }
        let before = frames.before(alloc, place)?;
        match machine.entry(alloc, &before, place == 0, task.cube.as_slice())? {
            Entered::Kept(mask) => {
                learn(alloc, machine, frames, &before, task, mask, place)?;
                return Ok(Blocked::Out);
            }
            Entered::Found(entry) => {
                match come_to(alloc, machine, frames, budget, task, place, entry)? {
                    Blocked::Out => {}
                    Blocked::Path(path) => return Ok(Blocked::Path(path)),
                    Blocked::Paused => return Ok(Blocked::Paused),
                }
            }
        }
    }
}

/// Leads to the first state of an entry into the cube, or keeps that state out of the frame before. It tries first
/// with a part of the state's bits.
#[cycle(blocking)]
fn come_to<M: Machine>(
    alloc: Global,
    machine: &M,
    frames: &mut Frames,
    budget: &mut Option<u64>,
    task: &Task,
    place: usize,
    entry: Entry,
) -> Result<Blocked, Stop>
    requires ready { AreReady (M.system machine.now) frames.old }
    requires task { IsTask (M.system machine.now) frames.old task.now place }
    requires entry { IsEntry (M.system machine.now) (frame_before frames.old place) (place == 0) task.now.cube entry }
    ensures narrowed { OnOk result (AreNarrowed (M.system machine.now) frames.old frames.new) }
    ensures answer { IfOk result (IsBlocked (M.system machine.now) task.now budget.old
        (is_met (frame_before frames.new place) entry.before ≡ false)) }
    ensures budget { is_some budget.new ≡ is_some budget.old }
    ensures stopped { IfErr result (M.stops machine.now) }
{
    if place == 0 {
        return Ok(Blocked::Path(path_along(alloc, entry)?));
    }
    let whole = cube_of(alloc, &entry.before)?;
    let mask = machine.lifted(alloc, &entry, task.cube.as_slice())?;
    let part = Task {
        cube: marked(alloc, whole.as_slice(), &mask)?,
        room: task.room - 1,
    };
    match block(alloc, machine, frames, budget, &part, place - 1)? {
        Blocked::Out => return Ok(Blocked::Out),
        Blocked::Paused => return Ok(Blocked::Paused),
        Blocked::Path(path) => match led_into(alloc, machine, path, task.cube.as_slice())? {
            Some(path) => return Ok(Blocked::Path(path)),
            None => {}
        },
    }
    come_exactly(alloc, machine, frames, budget, task, place, entry)
}

/// The same, with all bits of the state: a path to them ends in it.
#[cycle(blocking)]
fn come_exactly<M: Machine>(
    alloc: Global,
    machine: &M,
    frames: &mut Frames,
    budget: &mut Option<u64>,
    task: &Task,
    place: usize,
    entry: Entry,
) -> Result<Blocked, Stop>
    requires ready { AreReady (M.system machine.now) frames.old }
    requires task { IsTask (M.system machine.now) frames.old task.now place }
    requires later { 0 < place }
    requires follows { (M.system machine.now).follows entry.before entry.after }
    requires inside { IsTrue (is_in_cube task.now.cube entry.after) }
    ensures narrowed { OnOk result (AreNarrowed (M.system machine.now) frames.old frames.new) }
    ensures answer { IfOk result (IsBlocked (M.system machine.now) task.now budget.old
        (is_met (frame_before frames.new place) entry.before ≡ false)) }
    ensures budget { is_some budget.new ≡ is_some budget.old }
    ensures stopped { IfErr result (M.stops machine.now) }
{
    let whole = Task {
        cube: cube_of(alloc, &entry.before)?,
        room: task.room - 1,
    };
    match block(alloc, machine, frames, budget, &whole, place - 1)? {
        Blocked::Out => Ok(Blocked::Out),
        Blocked::Paused => Ok(Blocked::Paused),
        Blocked::Path(mut path) => {
            path.push(entry.after)?;
            Ok(Blocked::Path(path))
        }
    }
}
