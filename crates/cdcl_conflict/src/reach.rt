// The places at which the literals of a clause are false.
ghost use Rattle.std.specs.Prelude.{◌<◌, ◌≤◌, length, IfOk};
ghost use Rattle.std.specs.List.{All};
ghost use Rattle.cdcl_conflict_theory.specs.Trails.{size_of, KnowsPlaces};
ghost use Rattle.cdcl_conflict.specs.Views.{steps_of};
ghost use Rattle.cdcl_conflict.specs.Standings.{IsListed, IsReadable, IsReaching, ReachesPlace};

use crate::TrailView;
use crate::standing::Standing;
use psl_base::NoMemory;

/// Reaches the places of the literals of a clause, except where they are at the end or past it. It answers how many
/// places of the current level wait since.
pub fn reach_clause(
    clause: &[u32],
    end: usize,
    trail: &TrailView<'_>,
    standings: &mut [Standing],
    reached: &mut Vec<u32>,
) -> Result<usize, NoMemory>
    requires places { KnowsPlaces (steps_of trail.now) trail.now.places.now }
    requires end { end ≤ size_of (steps_of trail.now) }
    requires readable { All (IsReadable (steps_of trail.now) end) clause.now }
    requires room { size_of (steps_of trail.now) ≤ length standings.old }
    requires listed { IsListed (size_of (steps_of trail.now)) standings.old reached.old.items }
    ensures { IfOk result
        (λ waiting. IsReaching (steps_of trail.now) clause.now end (length clause.now) standings.old reached.old.items standings.new reached.new.items waiting) }
{
    let mut waiting = 0;
    for literal in clause {
        let place = trail.places[(*literal / 2) as usize];
        waiting += reach_place(place, end, trail.start, standings, reached)?;
    }
    Ok(waiting)
}

/// Lets a place in front of the end wait, if it was not reached before. It answers how many places wait since,
/// from the start on.
fn reach_place(
    place: u32,
    end: usize,
    start: usize,
    standings: &mut [Standing],
    reached: &mut Vec<u32>,
) -> Result<usize, NoMemory>
    requires { end ≤ length standings.old }
    ensures { IfOk result
        (λ waiting. ReachesPlace start end place waiting standings.old reached.old.items standings.new reached.new.items) }
{
    if place as usize >= end {
        return Ok(0);
    }
    let Standing::Untouched = standings[place as usize] else {
        return Ok(0);
    };
    reached.push(place)?;
    standings[place as usize] = Standing::Waiting;
    Ok(if place as usize >= start { 1 } else { 0 })
}
