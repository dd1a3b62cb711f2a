// Runs that no list has any more, found again by their length.
ghost use Rattle.std.specs.Prelude.{◌≡◌, ◌≢◌, ◌+◌, ◌<◌, ◌≤◌, length, slice_index, slice_set, IfSome};
ghost use Rattle.word_pool.specs.Free.{ListsRun, WritesList, AddsLengths};

use crate::runs::Run;
use psl_base::NoMemory;

/// The most words of a free run that is listed. Longer ones wait until the runs are moved together.
pub(crate) const LONGEST_LISTED: usize = 65_535;

/// Where no run begins.
pub(crate) const NO_RUN: u32 = u32::MAX;

/// Adds lengths up to this one to the table of the first free runs. No run has them yet.
pub(crate) fn add_lengths(firsts: &mut Vec<u32>, longest: usize) -> Result<(), NoMemory>
    requires listed { longest ≤ LONGEST_LISTED }
    ensures { AddsLengths firsts.old.items firsts.new.items }
{
    for _ in firsts.len()..longest + 1 {
        firsts.push(NO_RUN)?;
    }
    Ok(())
}

/// Makes a run the first free one of its length, if the table has that length.
///
/// Its first word is then the offset of the run that was the first: the lists take no memory of their own.
pub(crate) fn list_run(words: &mut [u32], firsts: &mut [u32], run: Run)
    requires within { run.offset + run.length ≤ length words.old }
    ensures { ListsRun words.old firsts.old run words.new firsts.new }
{
    let size = run.length as usize;
    if 0 < size && size < firsts.len() {
        words[run.offset as usize] = firsts[size];
        firsts[size] = run.offset;
    }
}

/// Where the first free run of so many words begins, if one is listed.
pub(crate) fn first_run(firsts: &[u32], size: usize) -> Option<u32>
    ensures listed { IfSome result (λ offset.
        (size < length firsts.now) × (slice_index firsts.now size ≡ offset) × (offset ≢ NO_RUN)) }
{
    let first = *firsts.get(size)?;
    if first == NO_RUN {
        return None;
    }
    Some(first)
}

/// Takes the first free run of the list's length off the table, and writes the list there.
pub(crate) fn use_run(words: &mut [u32], firsts: &mut [u32], offset: u32, list: &[u32])
    requires some { 0 < length list.now }
    requires in_table { length list.now < length firsts.old }
    requires within { offset + length list.now ≤ length words.old }
    ensures next { firsts.new ≡ slice_set firsts.old (length list.now) (slice_index words.old offset) }
    ensures written { WritesList words.old offset list.now words.new }
{
    let from = offset as usize;
    firsts[list.len()] = words[from];
    words[from..from + list.len()].copy_from_slice(list);
}
