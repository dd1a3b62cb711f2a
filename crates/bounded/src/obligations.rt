// What obligations ask where they are owed.
ghost use Rattle.std.specs.Prelude.{◌≡◌, ◌≤◌, ◌<◌, suc, fold, length, All};
ghost use Rattle.std.specs.List.{range_with_len};
ghost use Rattle.std.specs.Option.{option_map};
ghost use Rattle.gates_builder.specs.Adding.{Adds, AreOf};
ghost use Rattle.bounded.specs.Adding.{frame_in, Asks};
ghost use Rattle.bounded.specs.Obligations.{literals_before, obligation_built, with_obligation, with_place as asked_at};
ghost use Rattle.bounded.specs.Serving.{HasPlaces};

use crate::places::Places;
use crate::putting::put_implication;
use crate::serving::Serving;
use clauses::{Clauses, CnfFault};
use gates_builder::Builder;
use gates_letters::combination_with;
use gates_theory::Literals;

// The literals of the frame before a place, if there is one.
fn frame_before(frames: &[Literals], place: u32) -> Option<&[i32]>
    requires { place ≤ length frames.now }
    ensures { option_map (λ literals. literals.now) result ≡ literals_before (frame_in frames.now) place }
{
    if place == 0 {
        None
    } else {
        Some(frames[place as usize - 1].as_slice())
    }
}

// What an obligation asks at a place.
fn obligation(
    builder: &mut Builder,
    places: &Places<'_>,
    frames: &[Literals],
    place: u32,
    number: u32,
) -> Result<i32, CnfFault>
    requires places { HasPlaces places.now.automaton.now places.now.last places.now.before builder.old }
    requires place { place ≤ places.now.last }
    requires number { number < length places.now.automaton.now.obligations }
    requires size { length frames.now ≡ suc places.now.last }
    requires frames { All (AreOf builder.old) frames.now }
    ensures { Adds builder.old builder.new (obligation_built places.now.automaton.now (frame_in frames.now)
        places.now.last places.now.before place number builder.old.nodes) result }
{
    let before = frame_before(frames, place);
    let now = frames[place as usize].as_slice();
    let later = Serving {
        places,
        place,
        number,
    };
    combination_with(builder, before, now, &later, places.automaton.delta(number))
}

// An obligation asks it where it is owed.
fn add_obligation(
    builder: &mut Builder,
    clauses: &mut Clauses,
    places: &Places<'_>,
    frames: &[Literals],
    place: u32,
    number: u32,
) -> Result<(), CnfFault>
    requires places { HasPlaces places.now.automaton.now places.now.last places.now.before builder.old }
    requires place { place ≤ places.now.last }
    requires number { number < length places.now.automaton.now.obligations }
    requires size { length frames.now ≡ suc places.now.last }
    requires frames { All (AreOf builder.old) frames.now }
    ensures { Asks builder.old builder.new clauses.new (with_obligation places.now.automaton.now (frame_in frames.now)
        places.now.last places.now.before place (record { nodes = builder.old.nodes; clauses = clauses.old }) number)
        result }
{
    let asked = obligation(builder, places, frames, place, number)?;
    put_implication(clauses, places.owed(place, number), asked)
}

// So do all obligations at a place.
fn add_place(
    builder: &mut Builder,
    clauses: &mut Clauses,
    places: &Places<'_>,
    frames: &[Literals],
    place: u32,
) -> Result<(), CnfFault>
    requires places { HasPlaces places.now.automaton.now places.now.last places.now.before builder.old }
    requires place { place ≤ places.now.last }
    requires size { length frames.now ≡ suc places.now.last }
    requires frames { All (AreOf builder.old) frames.now }
    ensures { Asks builder.old builder.new clauses.new (asked_at places.now.automaton.now (frame_in frames.now)
        places.now.last places.now.before (record { nodes = builder.old.nodes; clauses = clauses.old }) place) result }
{
    for number in 0..places.automaton.len() {
        add_obligation(builder, clauses, places, frames, place, number)?;
    }
    Ok(())
}

/// All obligations ask at all places what they do where they are owed; there is a frame for each place.
pub(crate) fn add_obligations(
    builder: &mut Builder,
    clauses: &mut Clauses,
    places: &Places<'_>,
    frames: &[Literals],
) -> Result<(), CnfFault>
    requires places { HasPlaces places.now.automaton.now places.now.last places.now.before builder.old }
    requires size { length frames.now ≡ suc places.now.last }
    requires frames { All (AreOf builder.old) frames.now }
    ensures { Asks builder.old builder.new clauses.new (fold (asked_at places.now.automaton.now (frame_in frames.now)
        places.now.last places.now.before) (record { nodes = builder.old.nodes; clauses = clauses.old })
        (range_with_len 0 (suc places.now.last))) result }
{
    for place in 0..places.last + 1 {
        add_place(builder, clauses, places, frames, place)?;
    }
    Ok(())
}
