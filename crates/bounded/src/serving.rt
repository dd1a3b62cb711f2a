// What serves an obligation at the next place.
ghost use Rattle.std.specs.Prelude.{◌≡◌, ◌≤◌, ◌<◌, ◌||◌, suc, false, length};
ghost use Rattle.alternating_theory.specs.Obligations.{obligation_at};
ghost use Rattle.gates_builder.specs.Adding.{Adds, IsOf};
ghost use Rattle.bounded.specs.Obligations as spec;
ghost use Rattle.bounded.specs.Places.{number_at};
ghost use Rattle.bounded.specs.Serving.{HasPlaces};

use crate::comparing::exceeds;
use crate::places::Places;
use clauses::CnfFault;
use gates_builder::{Builder, negated};
use gates_letters::Later;

// Whether numbers fall from a place on.
fn falls(builder: &Builder, last: u32, place: u32) -> i32
    requires { builder.now.given ≡ 0 }
    ensures is { result ≡ spec.falls last place }
    ensures of { IsOf builder.now result }
{
    if place == last {
        builder.yes()
    } else {
        builder.no()
    }
}

// The number of an obligation that the next place owes is more than that of an obligation of a place.
fn exceeds_at(
    builder: &mut Builder,
    places: &Places<'_>,
    place: u32,
    number: u32,
    other: u32,
) -> Result<i32, CnfFault>
    requires places { HasPlaces places.now.automaton.now places.now.last places.now.before builder.old }
    requires place { place ≤ places.now.last }
    requires number { number < length places.now.automaton.now.obligations }
    requires other { other < length places.now.automaton.now.obligations }
    requires none { ((obligation_at places.now.automaton.now.obligations number).accepting
        || (obligation_at places.now.automaton.now.obligations other).accepting) ≡ false }
    ensures { Adds builder.old builder.new (spec.exceeds (spec.falls places.now.last place)
        (number_at places.now.automaton.now places.now.before (suc place) other)
        (number_at places.now.automaton.now places.now.before place number) builder.old.nodes) result }
{
    let equal = falls(builder, places.last, place);
    let first = places.before_digits(place + 1, other);
    let second = places.before_digits(place, number);
    exceeds(builder, equal, first, second, places.digits)
}

// An obligation that the next place owes and that serves one of a place.
fn served(
    builder: &mut Builder,
    places: &Places<'_>,
    place: u32,
    number: u32,
    other: u32,
) -> Result<i32, CnfFault>
    requires places { HasPlaces places.now.automaton.now places.now.last places.now.before builder.old }
    requires place { place ≤ places.now.last }
    requires number { number < length places.now.automaton.now.obligations }
    requires other { other < length places.now.automaton.now.obligations }
    ensures { Adds builder.old builder.new
        (spec.served places.now.automaton.now places.now.last places.now.before place number other builder.old.nodes)
        result }
{
    let owed = places.owed(place + 1, other);
    let automaton = places.automaton;
    if automaton.accepting(number) || automaton.accepting(other) {
        return Ok(owed);
    }
    let exceeded = exceeds_at(builder, places, place, number, other)?;
    builder.and(owed, negated(exceeded))
}

/// An obligation of a place, and what serves it at the next one.
#[derive(Clone, Copy)]
pub(crate) struct Serving<'a, 'b> {
    pub places: &'a Places<'b>,
    pub place: u32,
    pub number: u32,
    pub ghost place_is: { place ≤ places.now.last },
    pub ghost number_is: { number < length places.now.automaton.now.obligations },
}

impl Later for Serving<'_, '_> {
    ghost use Rattle.bounded.specs.Extending.{extends-served_if, has-still};
    ghost use Rattle.bounded.specs.Serving.{served_if, HasPlaces};

    ghost made = { λ serving given number nodes. served_if serving.places.now.automaton.now serving.places.now.last
        serving.places.now.before serving.place serving.number number nodes };

    ghost ready = { λ serving making. HasPlaces serving.places.now.automaton.now serving.places.now.last
        serving.places.now.before making };

    fn literal(&self, builder: &mut Builder, number: u32) -> Result<i32, CnfFault> {
        if number < self.places.automaton.len() {
            served(builder, self.places, self.place, self.number, number)
        } else {
            Ok(builder.no())
        }
    }

    ghost grows = { λ serving given number nodes. extends-served_if serving.places.now.automaton.now
        serving.places.now.last serving.places.now.before serving.place serving.number number nodes };

    ghost stays = { λ serving making nodes ready extends. has-still serving.places.now.automaton.now
        serving.places.now.last serving.places.now.before making nodes ready extends };
}
