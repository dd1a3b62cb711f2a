// The whole search.
ghost use Rattle.std.specs.Prelude.{◌≤◌, IfOk};
ghost use Rattle.reach.specs.Answers.{IsReached};

use crate::answer::Reached;
use crate::search::Search;
use joint::Joint;
use psl_base::NoMemory;
use std::alloc::Global;

/// Seeks inductive clauses that keep the bad states out, or a path to one, with so many frames and so many steps of the
/// solver for each query.
///
/// # Errors
///
/// `NoMemory` if memory is refused.
pub fn reach(alloc: Global, joint: &Joint, frames: u32, steps: u64) -> Result<Reached, NoMemory>
    requires some { 1 ≤ frames }
    requires few { frames ≤ 1000 }
    ensures { IfOk result (IsReached joint.now frames steps) }
{
    let mut search = Search::new(alloc, joint, frames, steps)?;
    match search.go_on(alloc, frames, None)? {
        Some(reached) => Ok(reached),
        None => unreachable!(),
    }
}
