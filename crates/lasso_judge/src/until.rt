ghost use Rattle.std.specs.Prelude.{◌≡◌, ◌<◌, ◌&&◌, ℕ, not, true, length, if◌then◌else◌, slice_index, slice_set};
ghost use Rattle.lasso_tables.specs.Tables.{value_at};
ghost use Rattle.lasso_judge.specs.Untils.{GrowsTo, IsReached};

/// At which places a walk begins that leads over places of the left table to one of the right. The right
/// table grows until a sweep adds nothing. A sweep goes from the last place to the first, so that only
/// what the loop's end passes on to places before it waits for another one.
#[inline(never)]
pub(crate) fn reached(left: &[bool], right: Vec<bool>, next: &[usize]) -> Vec<bool>
    requires same_left { length left.now ≡ length next.now }
    requires same_right { length right.items ≡ length next.now }
    requires within { (place : ℕ) → place < length next.now → slice_index next.now place < length next.now }
    ensures { IsReached left.now right.items next.now result.items }
{
    let mut reached = right;
    let mut more = true;
    while more {
        more = sweep(left, next, &mut reached);
    }
    reached
}

// One sweep. It says whether it added a place.
fn sweep(left: &[bool], next: &[usize], reached: &mut Vec<bool>) -> bool
    requires same_left { length left.now ≡ length next.now }
    requires same_reached { length reached.old.items ≡ length next.now }
    requires within { (place : ℕ) → place < length next.now → slice_index next.now place < length next.now }
    ensures { GrowsTo 0 left.now next.now reached.old.items reached.new.items result }
{
    let mut more = false;
    for place in (0..next.len()).rev() {
        more = grow(left, next, place, reached) || more;
    }
    more
}

// Adds a place of the left table before one that the table has. It says whether it added it.
fn grow(left: &[bool], next: &[usize], place: usize, reached: &mut Vec<bool>) -> bool
    requires same_left { length left.now ≡ length next.now }
    requires same_reached { length reached.old.items ≡ length next.now }
    requires here { place < length next.now }
    requires within { slice_index next.now place < length next.now }
    ensures grown { result ≡ value_at left.now place
        && (not (value_at reached.old.items place) && value_at reached.old.items (slice_index next.now place)) }
    ensures reached { reached.new.items
        ≡ (if result then slice_set reached.old.items place true else reached.old.items) }
{
    let grown = left[place] && !reached[place] && reached[next[place]];
    if grown {
        reached[place] = true;
    }
    grown
}
