// What closes the loop of a run.
ghost use Rattle.std.specs.Prelude.{◌≡◌, ◌<◌, suc, length, All, IsTrue};
ghost use Rattle.std.specs.List.{flat_map, range_with_len};
ghost use Rattle.clauses.specs.Literals.{is_literal};
ghost use Rattle.gates_builder.specs.Adding.{AreLiterals};
ghost use Rattle.gates_frames.specs.Frames.{literal_at};
ghost use Rattle.bounded.specs.Adding.{closed_in, Puts};
ghost use Rattle.bounded.specs.Searches.{same_places, same_under};

use crate::places::Places;
use crate::putting::put_same;
use clauses::{Clauses, CnfFault};
use gates_theory::Literals;

// Where a literal is true, some signals have the values of a frame in another one.
fn add_same_frames(
    clauses: &mut Clauses,
    guard: i32,
    signals: &[u32],
    here: &[i32],
    last: &[i32],
) -> Result<(), CnfFault>
    requires guard { IsTrue (is_literal guard) }
    requires here { AreLiterals here.now }
    requires last { AreLiterals last.now }
    requires here_within { All (λ signal. signal < length here.now) signals.now }
    requires last_within { All (λ signal. signal < length last.now) signals.now }
    ensures { Puts clauses.old clauses.new (flat_map (λ signal. same_under guard (literal_at 0 here.now signal)
        (literal_at 0 last.now signal)) signals.now) result }
{
    for i in 0..signals.len() {
        let signal = signals[i] as usize;
        put_same(clauses, guard, here[signal], last[signal])?;
    }
    Ok(())
}

// Where the loop begins at a place, what comes behind the last place has the bits of what comes behind this one.
fn add_same_places(clauses: &mut Clauses, places: &Places<'_>, place: u32) -> Result<(), CnfFault>
    requires { place < places.now.last }
    ensures { Puts clauses.old clauses.new
        (same_places places.now.automaton.now places.now.last places.now.before place) result }
{
    let guard = places.begins(place);
    for bit in 0..places.bits {
        let here = places.bit(place + 1, bit);
        let last = places.bit(places.last + 1, bit);
        put_same(clauses, guard, here, last)?;
    }
    Ok(())
}

// What closes a loop that begins at a place.
fn add_closing(
    clauses: &mut Clauses,
    places: &Places<'_>,
    signals: &[u32],
    frames: &[Literals],
    place: u32,
) -> Result<(), CnfFault>
    requires place { place < places.now.last }
    requires size { length frames.now ≡ suc places.now.last }
    requires frames { All AreLiterals frames.now }
    requires within { All (λ literals. All (λ signal. signal < length literals) signals.now) frames.now }
    ensures { Puts clauses.old clauses.new (closed_in places.now.automaton.now frames.now signals.now
        places.now.last places.now.before place) result }
{
    let here = frames[place as usize].as_slice();
    let last = frames[places.last as usize].as_slice();
    add_same_frames(clauses, places.begins(place), signals, here, last)?;
    add_same_places(clauses, places, place)
}

/// What closes the loop, wherever it begins; there is a frame for each place, and these signals are free.
pub(crate) fn add_closings(
    clauses: &mut Clauses,
    places: &Places<'_>,
    signals: &[u32],
    frames: &[Literals],
) -> Result<(), CnfFault>
    requires size { length frames.now ≡ suc places.now.last }
    requires frames { All AreLiterals frames.now }
    requires within { All (λ literals. All (λ signal. signal < length literals) signals.now) frames.now }
    ensures { Puts clauses.old clauses.new (flat_map (closed_in places.now.automaton.now frames.now signals.now
        places.now.last places.now.before) (range_with_len 0 places.now.last)) result }
{
    for place in 0..places.last {
        add_closing(clauses, places, signals, frames, place)?;
    }
    Ok(())
}
