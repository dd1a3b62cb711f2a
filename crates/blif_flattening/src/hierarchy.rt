// Hierarchies flattened.
ghost use Rattle.std.specs.Prelude.{◌≡◌, ◌≤◌, ◌^◌, length, map, IfOk};
ghost use Rattle.blif_flattening.specs.Hierarchy.{flat_lines};
ghost use Rattle.blif_flattening.specs.Listing.{AreSmall, flat_instance, instances};
ghost use Rattle.blif_flattening.specs.Numbers.{signals};
ghost use Rattle.blif_flattening.specs.Instances.{IsNamed};
ghost use Rattle.blif_flattening.specs.Walks.{line_view, placed_view};

use crate::listing::{FlatInstance, listed};
use crate::model::{DEEPEST, Line, Model};
use crate::walk::{FlatLine, Progress, open_top, walk};
use psl_base::{Items, NoMemory};
use std::alloc::Global;

/// A hierarchy without its placements: how many signals there are, and the lines of all instances in flat order.
#[derive(Drop)]
pub struct Flat {
    /// How many signals there are. They are numbered from 0, in the order in which lines first mention them.
    pub signals: usize,
    /// The lines.
    pub lines: Items<FlatLine>,
    /// The instances, the top first, and those that a placement makes in its place.
    pub instances: Items<FlatInstance>,
}

/// The lines of all instances, in flat order, which has the lines of a model in the place of each of its placements.
///
/// The time is linear in the names and lines of all instances together, but for the paths of names, whose lengths are
/// at most the depth. The recursion is as deep as the instances, `DEEPEST` at the most.
///
/// # Errors
///
/// `NoMemory` if memory is refused.
pub fn flatten<L: Line>(alloc: Global, models: &Items<Model<L>>) -> Result<Flat, NoMemory>
    requires named { IsNamed L.mentions models.now }
    requires room { length (signals L.mentions models.now) ≤ 2 ^ 32 }
    ensures signals { IfOk result (λ flat. flat.signals ≡ length (signals L.mentions models.now)) }
    ensures lines { IfOk result (λ flat. map (line_view models.now) flat.lines
        ≡ map (placed_view L.mentions models.now (signals L.mentions models.now)) (flat_lines models.now)) }
    ensures instances { IfOk result (λ flat. flat.instances
        ≡ map (flat_instance L.mentions models.now) (instances models.now)) }
    ensures small { IfOk result (λ flat. AreSmall flat.instances) }
{
    let mut out = Progress::new(alloc);
    let top = open_top(alloc, models, &mut out)?;
    walk(alloc, models, &mut out, &top, levels())?;
    let Progress {
        table,
        lines,
        instances,
    } = out;
    let instances = listed(alloc, &table, &instances)?;
    Ok(Flat {
        signals: table.seen(),
        lines,
        instances,
    })
}

// How many levels a walk goes down. A call, so that what is said of so many levels is not written out.
fn levels() -> u32
    ensures { result ≡ DEEPEST }
{
    DEEPEST
}
