// Paths that grow.
ghost use Rattle.std.specs.Prelude.{◌≡◌, ◌+◌, ◌<◌, ◌≤◌, [], ◌∷◌, length, IfOk, IfSome};
ghost use Rattle.clauses.specs.declared.flat.TheConstants.{MOST_VARIABLES};
ghost use Rattle.reach_frames.specs.Cubes.{IsCube};
ghost use Rattle.reach_frames.specs.Paths.{last_of as last_in, IsLed};
ghost use Rattle.reach_frames.specs.Searches.{IsLedInto};

use crate::bits::is_in_cube;
use crate::{Entry, Machine, Path};
use psl_base::{Bits, Items, NoMemory};
use std::alloc::Global;

/// A path of one state.
pub(crate) fn path_of(alloc: Global, state: Bits) -> Result<Path, NoMemory>
    ensures { IfOk result (λ path. path ≡ state ∷ []) }
{
    let mut path: Path = Items::new(alloc);
    path.push(state)?;
    Ok(path)
}

/// A path of two states.
#[inline(never)]
pub(crate) fn path_along(alloc: Global, entry: Entry) -> Result<Path, NoMemory>
    ensures { IfOk result (λ path. path ≡ entry.before ∷ entry.after ∷ []) }
{
    let Entry { before, after } = entry;
    let mut path = path_of(alloc, before)?;
    path.push(after)?;
    Ok(path)
}

/// The last state of a path.
fn last_of(path: &Path) -> &Bits
    requires { 0 < length path.now }
    ensures { result.now ≡ last_in path.now }
{
    path.at(path.len() - 1)
}

/// Leads a path on into a cube: as it is, where its last state is there, or by one state more. Nothing is said where
/// neither is found.
#[inline(never)]
pub(crate) fn led_into<M: Machine>(
    alloc: Global,
    machine: &M,
    mut path: Path,
    cube: &[i32],
) -> Result<Option<Path>, NoMemory>
    requires cube { IsCube (M.system machine.now).width cube.now }
    requires few { (M.system machine.now).width ≤ MOST_VARIABLES }
    requires led { IsLed (M.system machine.now) path }
    ensures { IfOk result (λ found. IfSome found (IsLedInto (M.system machine.now) cube.now (length path + 1))) }
{
    let last = last_of(&path);
    if is_in_cube(cube, last) {
        return Ok(Some(path));
    }
    match machine.led_on(alloc, last, cube)? {
        Some(state) => {
            path.push(state)?;
            Ok(Some(path))
        }
        None => Ok(None),
    }
}
