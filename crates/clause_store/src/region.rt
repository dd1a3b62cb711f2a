// Where the words of clauses lie in the region, and how the gaps between them are closed.
ghost use Rattle.std.specs.Prelude.{◌≡◌, ◌+◌, ◌-◌, ◌/◌, ◌%◌, ◌<◌, ◌≤◌, length, cond, slice_index, slice_index_or, slice_set, Some, None, IfSome, IfNone};
ghost use Rattle.clause_store.specs.Stored.{stored_words};
ghost use Rattle.clause_store.specs.Fields.{begin_at, clauses_of, IsRising, MovesDown};

/// The most words that clauses have together.
pub const MOST_WORDS: u32 = 1_000_000_000;

/// The most words of the region, those of clauses that were taken out among them: its places fit into 31 bits.
pub(crate) const MOST_FILLED: usize = 2_147_483_647;

/// Where the words of a place begin.
pub(crate) fn begin_of(ends: &[u32], place: usize) -> usize
    requires { place < length ends.now }
    ensures { result ≡ begin_at 0 ends.now place }
{
    if place == 0 {
        0
    } else {
        (ends[place - 1] / 2) as usize
    }
}

/// The clause of a place. None where it was taken out, or there is no such place.
pub(crate) fn clause_at<'a>(words: &'a [u32], ends: &[u32], place: usize) -> Option<&'a [u32]>
    requires { IsRising 0 ends.now (length words.now) }
    ensures some { IfSome result (λ clause. slice_index_or (clauses_of words.now ends.now) place None ≡ Some clause.now) }
    ensures none { IfNone result (slice_index_or (clauses_of words.now ends.now) place None ≡ None) }
{
    if place >= ends.len() || ends[place] % 2 == 1 {
        return None;
    }
    Some(&words[begin_of(ends, place)..(ends[place] / 2) as usize])
}

/// Marks the clause of a place as taken out, and tells how many words it had.
pub(crate) fn take_out(ends: &mut [u32], place: usize) -> u32
    requires within { place < length ends.old }
    requires is_there { slice_index ends.old place % 2 ≡ 0 }
    requires order { begin_at 0 ends.old place ≤ slice_index ends.old place / 2 }
    ensures marked { ends.new ≡ slice_set ends.old place (slice_index ends.old place + 1) }
    ensures size { result ≡ slice_index ends.old place / 2 - begin_at 0 ends.old place }
{
    let end = ends[place];
    let size = end / 2 - begin_of(ends, place) as u32;
    ends[place] = end + 1;
    size
}

/// Makes room in the region for so many words more, where the places would not fit into 31 bits.
pub(crate) fn make_room(words: &mut Vec<u32>, ends: &mut [u32], more: usize)
    requires rising { IsRising 0 ends.old (length words.old.items) }
    requires few { length words.old.items ≤ MOST_FILLED }
    requires words { stored_words (clauses_of words.old.items ends.old) + more ≤ MOST_WORDS }
    ensures clauses { clauses_of words.new.items ends.new ≡ clauses_of words.old.items ends.old }
    ensures rising { IsRising 0 ends.new (length words.new.items) }
    ensures few { length words.new.items + more ≤ MOST_FILLED }
{
    if words.len() + more > MOST_FILLED {
        compact(words, ends);
    }
}

/// Leaves no words in the region but those of clauses.
pub(crate) fn compact(words: &mut Vec<u32>, ends: &mut [u32])
    requires rising { IsRising 0 ends.old (length words.old.items) }
    requires few { length words.old.items ≤ MOST_FILLED }
    ensures clauses { clauses_of words.new.items ends.new ≡ clauses_of words.old.items ends.old }
    ensures rising { IsRising 0 ends.new (length words.new.items) }
    ensures size { length words.new.items ≡ stored_words (clauses_of words.old.items ends.old) }
    ensures fewer { length words.new.items ≤ length words.old.items }
{
    let end = close_gaps(words, ends);
    words.truncate(end);
}

/// Moves the clauses to the front of the region, in their order, and tells where they end.
fn close_gaps(words: &mut [u32], ends: &mut [u32]) -> usize
    requires rising { IsRising 0 ends.old (length words.old) }
    requires few { length words.old ≤ MOST_FILLED }
    ensures clauses { clauses_of words.new ends.new ≡ clauses_of words.old ends.old }
    ensures rising { IsRising 0 ends.new result }
    ensures size { result ≡ stored_words (clauses_of words.old ends.old) }
    ensures within { result ≤ length words.new }
{
    let mut begin = 0;
    let mut end = 0;
    for place in 0..ends.len() {
        let code = ends[place];
        let stop = (code / 2) as usize;
        end = move_down(words, begin, stop, end, code % 2 == 0);
        ends[place] = 2 * end as u32 + code % 2;
        begin = stop;
    }
    end
}

/// Moves the words of a run to a place before it, if its clause is there, and tells where they end then.
fn move_down(words: &mut [u32], begin: usize, stop: usize, to: usize, is_there: bool) -> usize
    requires order { begin ≤ stop }
    requires within { stop ≤ length words.old }
    requires down { to ≤ begin }
    ensures end { result ≡ to + cond is_there (stop - begin) 0 }
    ensures moved { MovesDown words.old words.new begin stop to (cond is_there (stop - begin) 0) }
{
    if is_there {
        words.copy_within(begin..stop, to);
        to + (stop - begin)
    } else {
        to
    }
}
