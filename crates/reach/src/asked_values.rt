// What obligations ask of a state, where some signals may be unknown.
ghost use Rattle.std.specs.Prelude.{◌<◌, length};

use crate::bit_places::BitPlaces;
use crate::reading::value_at;
use crate::ternary::{Ternaries, Ternary, at};
use alternating::{Alternating, Positive};
use psl_tree::{Atom, Bool, Edge};
use reach_frames::Entry;

/// What is asked of the first state of an entry: that what it owes is met, or what is pending in it.
#[derive(Clone, Copy, Debug)]
pub(crate) enum Side {
    Owed,
    Pending,
}

/// What meets obligations: an entry's states, and the values of the first one's signals as far as they are known.
#[derive(Clone, Copy, Debug)]
pub(crate) struct Meeting<'a> {
    pub violation: &'a Alternating,
    pub places: BitPlaces,
    pub entry: &'a Entry,
    pub now: &'a Ternaries,
}

impl Meeting<'_> {
    /// The value of an atom.
    fn value_of_atom(&self, atom: Atom) -> Ternary {
        let value = at(self.now, atom.signal as usize);
        let had = value_at(&self.entry.before, self.places.had());
        let earlier = value_at(&self.entry.before, self.places.before(atom.signal));
        match atom.edge {
            Edge::Value => value,
            Edge::Rise => Ternary::of(had && !earlier).and(value),
            Edge::Fall => Ternary::of(had && earlier).and(value.not()),
        }
    }

    /// The value of a Boolean.
    fn value_of_boolean(&self, test: &Bool) -> Ternary {
        match test {
            Bool::Const(value) => Ternary::of(*value),
            Bool::Test(atom) => self.value_of_atom(*atom),
            Bool::Not(part) => self.value_of_boolean(part).not(),
            Bool::And(left, right) => {
                self.value_of_boolean(left)
                    .and(self.value_of_boolean(right))
            }
            Bool::Or(left, right) => self.value_of_boolean(left).or(self.value_of_boolean(right)),
        }
    }

    /// Whether an obligation is owed by the second state, and what is pending in the first goes on in it.
    fn goes_on(&self, number: u32, side: Side) -> bool {
        if !value_at(&self.entry.after, self.places.owed(number)) {
            return false;
        }
        match side {
            Side::Owed => true,
            Side::Pending => {
                self.accepts(number) || value_at(&self.entry.after, self.places.pending(number))
            }
        }
    }

    /// Whether an obligation is an accepting one.
    fn accepts(&self, number: u32) -> bool {
        number < self.violation.len() && self.violation.accepting(number)
    }

    /// Whether what an obligation asks is met.
    fn value_of(&self, asked: &Positive, side: Side) -> Ternary {
        match asked {
            Positive::Const(value) => Ternary::of(*value),
            Positive::Holds(test) => self.value_of_boolean(test),
            Positive::Owed(number) => Ternary::of(self.goes_on(*number, side)),
            Positive::And(left, right) => {
                self.value_of(left, side).and(self.value_of(right, side))
            }
            Positive::Or(left, right) => self.value_of(left, side).or(self.value_of(right, side)),
        }
    }

    /// Whether an obligation is known to be met, where its bit is set in the first state.
    fn is_met(&self, number: u32, place: usize, side: Side) -> bool
        requires { number < length self.now.violation.now.obligations }
    {
        !value_at(&self.entry.before, place)
            || self.value_of(self.violation.delta(number), side).is(true)
    }

    /// Whether all that the first state owes, and all that is pending in it, is known to be met.
    pub fn all_met(&self) -> bool {
        for number in 0..self.violation.len() {
            let (owed, pending) = (self.places.owed(number), self.places.pending(number));
            if !self.is_met(number, owed, Side::Owed)
                || !self.is_met(number, pending, Side::Pending)
            {
                return false;
            }
        }
        true
    }
}
