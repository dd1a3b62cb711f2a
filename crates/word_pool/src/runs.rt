// Where the words of a list lie in the region, and how the gaps between the lists are closed.
ghost use Rattle.std.specs.Prelude.{◌≡◌, ◌≢◌, ℕ, ◌+◌, ◌<◌, ◌≤◌, ◌^◌, ◌↔◌, length, take, slice_index, slice_set};
ghost use Rattle.std.specs.Prelude.{IfSome, IfNone, IsSome, IsTrue, Some};
ghost use Rattle.word_pool.specs.Layout.{run_at, offset_of, length_of, list_in, slots_length, IsLaidOut};
ghost use Rattle.word_pool.specs.Marks.{marked_word, IsMarked, HasLengthsOf, MovesWords};

/// Where the words of a list lie in the region.
#[derive(Clone, Copy, Debug)]
pub(crate) struct Run {
    pub(crate) offset: u32,
    pub(crate) length: u32,
    // The list's first word, while its id stands there in the region. Of use to `close_gaps` alone.
    pub(crate) head: u32,
}

/// Whether the id has a run.
pub(crate) fn has_run(slots: &[Option<Run>], id: u32) -> bool
    ensures { IsTrue result ↔ IsSome (run_at slots.now id) }
{
    matches!(slots.get(id as usize), Some(Some(_)))
}

/// The run of a live id.
pub(crate) fn live_run(slots: &[Option<Run>], id: u32) -> Run
    requires live { IsSome (run_at slots.now id) }
    ensures run { run_at slots.now id ≡ Some result }
    ensures in_table { id < length slots.now }
{
    match slots.get(id as usize) {
        Some(Some(run)) => *run,
        _ => unreachable!(),
    }
}

/// Moves the runs to the front of the region, in their order, and returns where they end.
///
/// A walk over the region must tell a run from words that were given back. So the id of each list
/// is first written over its first word: a word of the region begins a run just where it is the id
/// of a run that begins there.
pub(crate) fn close_gaps(words: &mut [u32], slots: &mut [Option<Run>]) -> usize
    requires laid_out { IsLaidOut words.old slots.old }
    requires few_words { length words.old < 2 ^ 32 }
    requires few_slots { length slots.old < 2 ^ 32 }
    ensures lists { (id : ℕ)
        → list_in (take result words.new) (run_at slots.new id) ≡ list_in words.old (run_at slots.old id) }
    ensures laid_out { IsLaidOut (take result words.new) slots.new }
    ensures end { result ≡ slots_length slots.old }
    ensures within { result ≤ length words.old }
    ensures lengths { HasLengthsOf slots.old slots.new }
{
    mark_runs(words, slots);
    slide_runs(words, slots)
}

// Writes its id over the first word of each run, and keeps that word in its slot.
fn mark_runs(words: &mut [u32], slots: &mut [Option<Run>])
    requires laid_out { IsLaidOut words.old slots.old }
    requires few_slots { length slots.old < 2 ^ 32 }
    ensures marked { IsMarked words.new slots.new }
    ensures lengths { HasLengthsOf slots.old slots.new }
    ensures kept { (id k : ℕ) → k < length_of slots.old id
        → marked_word words.new slots.new id k ≡ slice_index words.old (offset_of slots.old id + k) }
{
    for id in 0..slots.len() {
        if let Some(run) = slots[id] {
            slots[id] = Some(mark_run(words, id as u32, run));
        }
    }
}

fn mark_run(words: &mut [u32], id: u32, run: Run) -> Run
    requires within { run.offset + run.length ≤ length words.old }
    ensures empty { run.length ≡ 0 → (words.new ≡ words.old) × (result ≡ record run { offset = 0 }) }
    ensures marked { 0 < run.length → (words.new ≡ slice_set words.old run.offset id)
        × (result ≡ record run { head = slice_index words.old run.offset }) }
{
    if run.length == 0 {
        return Run { offset: 0, ..run };
    }
    let head = words[run.offset as usize];
    words[run.offset as usize] = id;
    Run { head, ..run }
}

// Moves the marked runs together, with their first words in place again, and returns where they end.
fn slide_runs(words: &mut [u32], slots: &mut [Option<Run>]) -> usize
    requires marked { IsMarked words.old slots.old }
    requires few_words { length words.old < 2 ^ 32 }
    ensures laid_out { IsLaidOut (take result words.new) slots.new }
    ensures lengths { HasLengthsOf slots.old slots.new }
    ensures kept { (id k : ℕ) → k < length_of slots.old id
        → slice_index words.new (offset_of slots.new id + k) ≡ marked_word words.old slots.old id k }
    ensures end { result ≡ slots_length slots.old }
    ensures within { result ≤ length words.old }
{
    let mut from = 0;
    let mut to = 0;
    while from < words.len() {
        let id = words[from];
        match run_beginning(slots, id, from) {
            Some(run) => {
                move_run(words, run, to);
                slots[id as usize] = Some(Run {
                    offset: to as u32,
                    ..run
                });
                from += run.length as usize;
                to += run.length as usize;
            }
            None => from += 1,
        }
    }
    to
}

// Moves the words of a marked run to a place before them, and puts its first word there.
fn move_run(words: &mut [u32], run: Run, to: usize)
    requires some { 0 < run.length }
    requires order { to ≤ run.offset }
    requires within { run.offset + run.length ≤ length words.old }
    ensures moved { MovesWords words.old run.offset to run.length run.head words.new }
{
    let from = run.offset as usize;
    if to < from {
        words.copy_within(from..from + run.length as usize, to);
    }
    words[to] = run.head;
}

// The run of the id, if it has words and the first of them is at the offset.
fn run_beginning(slots: &[Option<Run>], id: u32, offset: usize) -> Option<Run>
    ensures run { IfSome result (λ run.
        (run_at slots.now id ≡ Some run) × (run.offset ≡ offset) × (0 < run.length)) }
    ensures none { IfNone result (0 < length_of slots.now id → offset_of slots.now id ≢ offset) }
{
    match slots.get(id as usize) {
        Some(Some(run)) if run.length > 0 && run.offset as usize == offset => Some(*run),
        _ => None,
    }
}
