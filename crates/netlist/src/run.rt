ghost use Rattle.std.specs.Prelude.{◌≡◌, ◌<◌, ◌+◌, length};
ghost use Rattle.netlist.specs.Runs.{valuation_at, walk_of};

use psl_base::{Bits, Items};

/// Valuations in order: each has a value for each signal, in the order of their numbers.
pub type Valuations = Items<Bits>;

/// A run as a stem and a loop that follows it for ever.
#[derive(Debug, Drop)]
pub struct Run {
    pub stem: Valuations,
    pub loop_part: Valuations,
}

/// The valuation at a place of a run, counted from 0; behind its last one that with which the loop begins comes once more.
pub(crate) fn valuation_at(run: &Run, place: usize) -> &[bool]
    requires { place < length (walk_of run.now) }
    ensures { result.now ≡ valuation_at run.now place }
{
    let (stem, looped) = (run.stem.as_slice(), run.loop_part.as_slice());
    if place < stem.len() {
        stem[place].as_slice()
    } else if place - stem.len() < looped.len() {
        looped[place - stem.len()].as_slice()
    } else {
        looped[0].as_slice()
    }
}
