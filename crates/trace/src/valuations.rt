ghost use Rattle.std.specs.Prelude.{◌≡◌, ◌<◌, ◌≤◌, ◌^◌, length, None, IfSome};
ghost use Rattle.trace.specs.Trace.{count_of, valuation_in};

use netlist::Run;

/// The valuation of a run at a place, counted from 0: those of its stem, and then those of its loop for ever.
pub(crate) fn valuation_in(run: &Run, place: usize) -> &[bool]
    requires { 0 < length run.now.loop_part }
    ensures { result.now ≡ valuation_in run.now place }
{
    let (stem, looped) = (run.stem.as_slice(), run.loop_part.as_slice());
    if place < stem.len() {
        stem[place].as_slice()
    } else {
        looped[(place - stem.len()) % looped.len()].as_slice()
    }
}

/// How many valuations there are with the loop so many times; none where that is no number of 64 bits.
pub(crate) fn count_of(run: &Run, loops: u32) -> Option<usize>
    ensures some { IfSome result (λ count. count ≡ count_of run.now loops) }
    ensures none { result ≡ None → 2 ^ 64 ≤ count_of run.now loops }
{
    let times = (loops as usize).checked_mul(run.loop_part.as_slice().len())?;
    run.stem.as_slice().len().checked_add(times)
}
