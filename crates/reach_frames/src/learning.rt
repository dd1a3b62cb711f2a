// Learning a clause that keeps a cube out.
ghost use Rattle.std.specs.Prelude.{◌≡◌, ◌==◌, ◌<◌, ◌≤◌, ℤ, List, Bool as Truth, length, IsTrue, IfOk, IfErr, IfSome, OnOk};
ghost use Rattle.clauses.specs.declared.flat.TheConstants.{MOST_VARIABLES};
ghost use Rattle.reach_frames.specs.Bits.{is_met};
ghost use Rattle.reach_frames.specs.Cubes.{IsCube, IsFrame};
ghost use Rattle.reach_frames.specs.Searches.{frame_in, frame_before, AreReady, AreNarrowed, IsClosed, IsKeptOut, IsLearned, IsShut, IsTask, IsWithin};

use crate::bits::{marked, negated};
use crate::blocking::Task;
use crate::leaving_out::leave_out;
use crate::{Entered, Frames, Literals, Machine, Stop};
use clauses::Clauses;
use psl_base::Bits;
use std::alloc::Global;

/// A cube that is kept out, and by which bits.
#[derive(Debug, Drop)]
pub(crate) struct Shut {
    pub(crate) cube: Literals,
    pub(crate) mask: Bits,
}

/// A cube that is kept out of the frames up to a level.
#[derive(Debug, Drop)]
struct Learned {
    cube: Literals,
    level: usize,
}

/// Keeps a cube out of a frame: adds the clause of a part of it, as far forward as it holds.
#[inline(never)]
pub(crate) fn learn<M: Machine>(
    alloc: Global,
    machine: &M,
    frames: &mut Frames,
    before: &Clauses,
    task: &Task,
    mask: Bits,
    place: usize,
) -> Result<(), Stop>
    requires ready { AreReady (M.system machine.now) frames.old }
    requires task { IsTask (M.system machine.now) frames.old task.now place }
    requires before { before.now ≡ frame_before frames.old place }
    requires shut { IsShut (M.system machine.now) before.now (place == 0) task.now.cube }
    ensures narrowed { OnOk result (AreNarrowed (M.system machine.now) frames.old frames.new) }
    ensures kept_out { OnOk result (IsKeptOut (frame_in frames.new place) task.now.cube) }
    ensures stopped { IfErr result (M.stops machine.now) }
{
    let shut = Shut {
        cube: task.cube.copy(alloc)?,
        mask,
    };
    let core = shrink(alloc, machine, before, place == 0, shut)?;
    let Learned { cube, level } = lesson(alloc, machine, frames, before, core, place)?;
    let clause = negated(alloc, cube.as_slice())?;
    frames.add(alloc, level, clause)?;
    Ok(())
}

/// A part of a cube that is kept out of a frame as well, as small as is found, and the last frame that it is kept out of.
fn lesson<M: Machine>(
    alloc: Global,
    machine: &M,
    frames: &Frames,
    before: &Clauses,
    core: Literals,
    place: usize,
) -> Result<Learned, Stop>
    requires ready { AreReady (M.system machine.now) frames.now }
    requires framed { place < length frames.now }
    requires before { before.now ≡ frame_before frames.now place }
    requires shut { IsShut (M.system machine.now) before.now (place == 0) core }
    ensures learned { IfOk result (IsLearned (M.system machine.now) frames.now core place) }
    ensures stopped { IfErr result (M.stops machine.now) }
{
    let last = frames.len() - 1;
    let level = raise(alloc, machine, frames, core.as_slice(), place)?;
    if !machine.leaves_out() {
        return Ok(Learned { cube: core, level });
    }
    if level == last {
        return at_last(alloc, machine, frames, core, level);
    }
    let cube = leave_out(alloc, machine, before, place == 0, core)?;
    let level = raise(alloc, machine, frames, cube.as_slice(), place)?;
    Ok(Learned { cube, level })
}

/// A part of a cube that is kept out of the last frame as well. What is shown there rests on the least, so it is the
/// most likely to hold for good.
fn at_last<M: Machine>(
    alloc: Global,
    machine: &M,
    frames: &Frames,
    core: Literals,
    level: usize,
) -> Result<Learned, Stop>
    requires ready { AreReady (M.system machine.now) frames.now }
    requires framed { level < length frames.now }
    requires closed { IsClosed (M.system machine.now) frames.now level core }
    ensures learned { IfOk result (IsLearned (M.system machine.now) frames.now core level) }
    ensures stopped { IfErr result (M.stops machine.now) }
{
    let frame = frames.before(alloc, level)?;
    let cube = leave_out(alloc, machine, &frame, level == 0, core)?;
    Ok(Learned { cube, level })
}

/// A part of a cube that is kept out as well, as small as is found.
pub(crate) fn shrink<M: Machine>(
    alloc: Global,
    machine: &M,
    frame: &Clauses,
    initial: bool,
    mut shut: Shut,
) -> Result<Literals, Stop>
    requires few { (M.system machine.now).width ≤ MOST_VARIABLES }
    requires framed { IsFrame (M.system machine.now).width frame.now }
    requires begun { (state : List Truth) → (M.system machine.now).begins state → IsTrue (is_met frame.now state) }
    requires shut { IsShut (M.system machine.now) frame.now initial shut.cube }
    ensures shut { IfOk result (IsShut (M.system machine.now) frame.now initial) }
    ensures within { IfOk result (IsWithin shut.cube) }
    ensures stopped { IfErr result (M.stops machine.now) }
{
    loop {
        match smaller(alloc, machine, frame, initial, &shut)? {
            Some(less) => shut = less,
            None => return Ok(shut.cube),
        }
    }
}

/// A smaller part of a cube that is kept out as well, if one is found: by the bits that kept the cube out, and a bolder
/// part of these first.
fn smaller<M: Machine>(
    alloc: Global,
    machine: &M,
    frame: &Clauses,
    initial: bool,
    shut: &Shut,
) -> Result<Option<Shut>, Stop>
    requires few { (M.system machine.now).width ≤ MOST_VARIABLES }
    requires framed { IsFrame (M.system machine.now).width frame.now }
    requires begun { (state : List Truth) → (M.system machine.now).begins state → IsTrue (is_met frame.now state) }
    requires cube { IsCube (M.system machine.now).width shut.now.cube }
    ensures shut { IfOk result (λ found. IfSome found (λ less. IsShut (M.system machine.now) frame.now initial less.cube)) }
    ensures within { IfOk result (λ found. IfSome found (λ less. IsWithin shut.now.cube less.cube)) }
    ensures less { IfOk result (λ found. IfSome found (λ less. length less.cube < length shut.now.cube)) }
    ensures stopped { IfErr result (M.stops machine.now) }
{
    let core = marked(alloc, shut.cube.as_slice(), &shut.mask)?;
    let mask = machine.thinned(alloc, core.as_slice())?;
    let bold = marked(alloc, core.as_slice(), &mask)?;
    if bold.len() < core.len() {
        match tried(alloc, machine, frame, initial, bold)? {
            Some(less) => return Ok(Some(less)),
            None => {}
        }
    }
    if core.len() < shut.cube.len() {
        return tried(alloc, machine, frame, initial, core);
    }
    Ok(None)
}

/// The cube, if it is kept out.
pub(crate) fn tried<M: Machine>(
    alloc: Global,
    machine: &M,
    frame: &Clauses,
    initial: bool,
    cube: Literals,
) -> Result<Option<Shut>, Stop>
    requires framed { IsFrame (M.system machine.now).width frame.now }
    requires begun { (state : List Truth) → (M.system machine.now).begins state → IsTrue (is_met frame.now state) }
    requires cube { IsCube (M.system machine.now).width cube }
    ensures shut { IfOk result (λ found. IfSome found (λ less. IsShut (M.system machine.now) frame.now initial less.cube)) }
    ensures same { IfOk result (λ found. IfSome found (λ less. less.cube ≡ cube)) }
    ensures stopped { IfErr result (M.stops machine.now) }
{
    match machine.begins(alloc, cube.as_slice())? {
        Some(_) => return Ok(None),
        None => {}
    }
    match machine.entry(alloc, frame, initial, cube.as_slice())? {
        Entered::Found(_) => Ok(None),
        Entered::Kept(mask) => Ok(Some(Shut { cube, mask })),
    }
}

/// The last frame in a row, from a place on, of which the cube can be kept out.
fn raise<M: Machine>(
    alloc: Global,
    machine: &M,
    frames: &Frames,
    cube: &[i32],
    place: usize,
) -> Result<usize, Stop>
    requires ready { AreReady (M.system machine.now) frames.now }
    requires framed { place < length frames.now }
    requires closed { IsClosed (M.system machine.now) frames.now place cube.now }
    ensures later { IfOk result (λ level. place ≤ level) }
    ensures framed { IfOk result (λ level. level < length frames.now) }
    ensures closed { IfOk result (λ level. IsClosed (M.system machine.now) frames.now level cube.now) }
    ensures stopped { IfErr result (M.stops machine.now) }
{
    let count = frames.len();
    let mut level = place;
    while level + 1 < count {
        let frame = frames.frame(alloc, level)?;
        match machine.entry(alloc, &frame, false, cube)? {
            Entered::Found(_) => return Ok(level),
            Entered::Kept(_) => level += 1,
        }
    }
    Ok(level)
}
