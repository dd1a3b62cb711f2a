// Truth values that may be unknown.
use psl_base::{Items, NoMemory};
use std::alloc::Global;

/// A truth value, or that it is not known.
#[derive(Clone, Copy, Debug, PartialEq, Eq)]
pub(crate) enum Ternary {
    False,
    True,
    Unknown,
}

/// Values of signals, by their numbers.
pub(crate) type Ternaries = Items<Ternary>;

impl Ternary {
    /// A value that is known.
    pub fn of(value: bool) -> Ternary {
        if value { Ternary::True } else { Ternary::False }
    }

    /// Whether it is known to be this one.
    pub fn is(self, value: bool) -> bool {
        match self {
            Ternary::False => !value,
            Ternary::True => value,
            Ternary::Unknown => false,
        }
    }

    /// The opposite.
    pub fn not(self) -> Ternary {
        match self {
            Ternary::False => Ternary::True,
            Ternary::True => Ternary::False,
            Ternary::Unknown => Ternary::Unknown,
        }
    }

    /// Whether both are true.
    pub fn and(self, other: Ternary) -> Ternary {
        match self {
            Ternary::False => Ternary::False,
            Ternary::True => other,
            Ternary::Unknown => {
                if other.is(false) {
                    Ternary::False
                } else {
                    Ternary::Unknown
                }
            }
        }
    }

    /// Whether one of both is true.
    pub fn or(self, other: Ternary) -> Ternary {
        self.not().and(other.not()).not()
    }
}

/// The value at a place; behind the last one it is unknown.
pub(crate) fn at(values: &Ternaries, place: usize) -> Ternary {
    match values.as_slice().get(place) {
        Some(value) => *value,
        None => Ternary::Unknown,
    }
}

/// Writes a value, where there is a place for it.
pub(crate) fn write(values: &mut Ternaries, place: usize, value: Ternary) {
    if place < values.len() {
        values.set(place, value);
    }
}

/// So many unknown values.
pub(crate) fn all_unknown(alloc: Global, count: u32) -> Result<Ternaries, NoMemory> {
    let mut values = Ternaries::new(alloc);
    for _ in 0..count {
        values.push(Ternary::Unknown)?;
    }
    Ok(values)
}
