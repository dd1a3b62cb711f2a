// Leaving literals out of a cube that is kept out, one after the other.
ghost use Rattle.std.specs.Prelude.{◌≡◌, ◌≤◌, List, Bool as Truth, not, IsTrue, IfOk, IfErr, IfSome};
ghost use Rattle.std.specs.List.{filter};
ghost use Rattle.std.specs.Ordering.{int_eq};
ghost use Rattle.clauses.specs.declared.flat.TheConstants.{MOST_VARIABLES};
ghost use Rattle.reach_frames.specs.Bits.{is_met};
ghost use Rattle.reach_frames.specs.Cubes.{IsCube, IsFrame};
ghost use Rattle.reach_frames.specs.Searches.{IsShut, IsWithin};

use crate::learning::{shrink, tried};
use crate::{Literals, Machine, Stop};
use clauses::Clauses;
use psl_base::NoMemory;
use std::alloc::Global;

// Once so many literals in a row have to stay, the others are left in too.
const MOST_KEPT: u32 = 3;

/// A part of a cube that is kept out as well: literals are left out one after the other, from the first on, as long as
/// the rest is kept out.
pub(crate) fn leave_out<M: Machine>(
    alloc: Global,
    machine: &M,
    frame: &Clauses,
    initial: bool,
    mut cube: Literals,
) -> Result<Literals, Stop>
    requires few { (M.system machine.now).width ≤ MOST_VARIABLES }
    requires framed { IsFrame (M.system machine.now).width frame.now }
    requires begun { (state : List Truth) → (M.system machine.now).begins state → IsTrue (is_met frame.now state) }
    requires shut { IsShut (M.system machine.now) frame.now initial cube }
    ensures shut { IfOk result (IsShut (M.system machine.now) frame.now initial) }
    ensures within { IfOk result (IsWithin cube) }
    ensures stopped { IfErr result (M.stops machine.now) }
{
    let mut place = 0;
    let mut kept: u32 = 0;
    for turn in 0..cube.len() {
        if place >= cube.len() || kept >= MOST_KEPT {
            return Ok(cube);
        }
        match without(alloc, machine, frame, initial, &cube, *cube.at(place))? {
            Some(less) => {
                cube = less;
                kept = 0;
                continue;
            }
            None => {}
        }
        place += 1;
        kept += 1;
    }
    Ok(cube)
}

/// A part of a cube without a literal, if it is kept out as well.
fn without<M: Machine>(
    alloc: Global,
    machine: &M,
    frame: &Clauses,
    initial: bool,
    cube: &Literals,
    literal: i32,
) -> Result<Option<Literals>, Stop>
    requires few { (M.system machine.now).width ≤ MOST_VARIABLES }
    requires framed { IsFrame (M.system machine.now).width frame.now }
    requires begun { (state : List Truth) → (M.system machine.now).begins state → IsTrue (is_met frame.now state) }
    requires cube { IsCube (M.system machine.now).width cube.now }
    ensures shut { IfOk result (λ found. IfSome found (IsShut (M.system machine.now) frame.now initial)) }
    ensures within { IfOk result (λ found. IfSome found (IsWithin cube.now)) }
    ensures stopped { IfErr result (M.stops machine.now) }
{
    let rest = all_but(alloc, cube.as_slice(), literal)?;
    if !machine.is_away(rest.as_slice()) {
        return Ok(None);
    }
    match tried(alloc, machine, frame, initial, rest)? {
        Some(shut) => Ok(Some(shrink(alloc, machine, frame, initial, shut)?)),
        None => Ok(None),
    }
}

/// All of some literals but one.
fn all_but(alloc: Global, literals: &[i32], literal: i32) -> Result<Literals, NoMemory>
    ensures { IfOk result (λ rest. rest ≡ filter (λ other. not (int_eq other literal)) literals.now) }
{
    let mut rest = Literals::new(alloc);
    for other in literals {
        if *other != literal {
            rest.push(*other)?;
        }
    }
    Ok(rest)
}
