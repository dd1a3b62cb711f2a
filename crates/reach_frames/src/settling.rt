// Moving clauses on to the frames in which they hold too.
ghost use Rattle.std.specs.Prelude.{◌≡◌, ◌+◌, ◌-◌, ◌<◌, [], List, Bool as Truth, Some, None, length, slice_get, slice_index_or, IsTrue, IfOk, IfErr, IfSome, IfNone, OnOk};
ghost use Rattle.reach_frames.specs.Bits.{is_met};
ghost use Rattle.reach_frames.specs.Cubes.{IsFrame};
ghost use Rattle.reach_frames.specs.Searches.{frame_in, AreReady, AreNarrowed, AreSettled};
ghost use Rattle.reach_frames.specs.Steps.{IsEnd};
ghost use Rattle.reach_frames.specs.Systems.{IsStuck, MissesGoal};
ghost use Rattle.reach_frames.specs.declared.entry.Entry.{Entry};
ghost use Rattle.reach_frames.specs.declared.level.KeptClause.{KeptClause};

use crate::bits::{is_met, negated};
use crate::{Entered, Frames, Machine, Step, Stop};
use clauses::Clauses;
use psl_base::{Bits, Items, NoMemory};
use std::alloc::Global;

/// Moves the clauses of each frame but the last on, as they hold one frame on. Where all clauses of a frame have moved, the
/// next frame is an invariant.
pub(crate) fn settle<M: Machine>(
    alloc: Global,
    machine: &M,
    frames: &mut Frames,
) -> Result<Step, Stop>
    requires ready { AreReady (M.system machine.now) frames.old }
    requires some { 0 < length frames.old }
    requires kept { MissesGoal (M.system machine.now) (frame_in frames.old (length frames.old - 1)) }
    ensures narrowed { OnOk result (AreNarrowed (M.system machine.now) frames.old frames.new) }
    ensures step { IfOk result (IsEnd (M.system machine.now) frames.new) }
    ensures stopped { IfErr result (M.stops machine.now) }
{
    let mut stuck = Items::new(alloc);
    for place in 0..frames.len() - 1 {
        match settle_level(alloc, machine, frames, place)? {
            Some(state) => stuck.push(state)?,
            None => return Ok(Step::Invariant(frames.frame(alloc, place + 1)?)),
        }
    }
    Ok(Step::Cleared(stuck))
}

/// Moves the clauses of a level on that hold one frame on. If some stay, a stuck state of the frame is told.
fn settle_level<M: Machine>(
    alloc: Global,
    machine: &M,
    frames: &mut Frames,
    place: usize,
) -> Result<Option<Bits>, Stop>
    requires ready { AreReady (M.system machine.now) frames.old }
    requires place { place + 1 < length frames.old }
    ensures settled { OnOk result (AreSettled (M.system machine.now) place frames.old frames.new) }
    ensures stays { IfOk result (λ found. IfSome found (IsStuck (M.system machine.now) (frame_in frames.new place))) }
    ensures moves { IfOk result (λ found. IfNone found (frame_in frames.new place ≡ frame_in frames.new (place + 1))) }
    ensures stopped { IfErr result (M.stops machine.now) }
{
    let frame = frames.frame(alloc, place)?;
    let mut stuck = None;
    let mut index = 0;
    while index < frames.count_at(place) {
        match move_on(alloc, machine, frames, &frame, place, index)? {
            Some(state) => {
                stuck = Some(state);
                index += 1;
            }
            None => {}
        }
    }
    Ok(stuck)
}

/// Moves a clause on, if it holds one frame on. If it stays, a stuck state of the frame is told.
///
/// Its witness is asked first: while the first state of the witness meets the frame, the clause stays.
fn move_on<M: Machine>(
    alloc: Global,
    machine: &M,
    frames: &mut Frames,
    frame: &Clauses,
    place: usize,
    index: usize,
) -> Result<Option<Bits>, Stop>
    requires ready { AreReady (M.system machine.now) frames.old }
    requires place { place + 1 < length frames.old }
    requires index { index < length (slice_index_or frames.old place []) }
    requires framed { IsFrame (M.system machine.now).width frame.now }
    requires same { (state : List Truth) → is_met frame.now state ≡ is_met (frame_in frames.old place) state }
    ensures settled { OnOk result (AreSettled (M.system machine.now) place frames.old frames.new) }
    ensures stays { IfOk result (λ found. IfSome found (λ state. IsStuck (M.system machine.now) frame.now state
        × (length (slice_index_or frames.new place []) ≡ length (slice_index_or frames.old place [])))) }
    ensures moves { IfOk result (λ found. IfNone found
        (length (slice_index_or frames.new place []) + 1 ≡ length (slice_index_or frames.old place []))) }
    ensures stopped { IfErr result (M.stops machine.now) }
{
    match stuck_by_witness(alloc, frames, frame, place, index)? {
        Some(state) => return Ok(Some(state)),
        None => {}
    }
    let clause = frames.clause_at(alloc, place, index)?;
    let cube = negated(alloc, clause.as_slice())?;
    match machine.entry(alloc, frame, false, cube.as_slice())? {
        Entered::Kept(_) => {
            frames.advance(place, index)?;
            Ok(None)
        }
        Entered::Found(entry) => {
            let state = entry.after.copy(alloc)?;
            frames.note(place, index, entry);
            Ok(Some(state))
        }
    }
}

/// The second state of a clause's witness, if the first still meets the frame.
fn stuck_by_witness(
    alloc: Global,
    frames: &Frames,
    frame: &Clauses,
    place: usize,
    index: usize,
) -> Result<Option<Bits>, NoMemory>
    requires place { place < length frames.now }
    requires index { index < length (slice_index_or frames.now place []) }
    ensures { IfOk result (λ found. IfSome found (λ state. (kept : KeptClause) × (entry : Entry)
        × (slice_get (slice_index_or frames.now place []) index ≡ Some kept) × (kept.witness ≡ Some entry)
        × IsTrue (is_met frame.now entry.before) × (state ≡ entry.after))) }
{
    match frames.witness_at(place, index) {
        Some(entry) => {
            if is_met(frame, &entry.before) {
                return Ok(Some(entry.after.copy(alloc)?));
            }
            Ok(None)
        }
        None => Ok(None),
    }
}
