// From where on verdicts are settled: the samples of their points, with their times and lines.
ghost use Rattle.std.specs.Prelude.{◌≡◌, ◌≤◌, ◌<◌, ℕ, length, map, slice_index, All, IfOk, IfSome};
ghost use Rattle.commands.specs.Settled.{settled_by, settled_of};
ghost use Rattle.vcd_reader.specs.Sampled.{place_of_time};

use crate::outcome::{Settled, Settlements};
use psl_base::{Items, NoMemory};
use std::alloc::Global;
use vcd_reader::Recording;

/// From where on verdicts are settled, by how many first samples settle each.
pub fn settlements(
    alloc: Global,
    recording: &Recording,
    points: &[Option<u32>],
) -> Result<Settlements, NoMemory>
    requires { All (λ point. IfSome point (λ count. count ≤ length recording.now.samples)) points.now }
    ensures { IfOk result (λ settled. settled ≡ map (settled_of recording.now) points.now) }
{
    // One pass over the text counts the lines for all of them.
    let lines = recording.time_lines(alloc)?;
    let mut settled = Items::new(alloc);
    for point in points {
        settled.push(settled_of(recording, lines.as_slice(), *point))?;
    }
    Ok(settled)
}

// The same of one verdict.
fn settled_of(recording: &Recording, lines: &[u32], point: Option<u32>) -> Option<Settled>
    requires within { IfSome point (λ count. count ≤ length recording.now.samples) }
    requires count { length lines.now ≡ length recording.now.samples }
    requires lines { (sample : ℕ) → sample < length recording.now.samples → slice_index lines.now sample ≡ (place_of_time recording.now sample).line }
    ensures { result ≡ settled_of recording.now point }
{
    match point {
        None => None,
        Some(count) => Some(settled_by(recording, lines, count)),
    }
}

fn settled_by(recording: &Recording, lines: &[u32], count: u32) -> Settled
    requires within { count ≤ length recording.now.samples }
    requires count { length lines.now ≡ length recording.now.samples }
    requires lines { (sample : ℕ) → sample < length recording.now.samples → slice_index lines.now sample ≡ (place_of_time recording.now sample).line }
    ensures { result ≡ settled_by recording.now count }
{
    if count == 0 {
        return Settled::Before;
    }
    let sample = count - 1;
    Settled::At {
        sample,
        time: recording.time(sample),
        line: lines[sample as usize],
    }
}
