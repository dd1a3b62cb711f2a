// Where the bits of a joint state stand.
use joint::Joint;

/// Where the bits of a joint state stand, counted from 0: whether there was a valuation before, that valuation, the
/// valuation, which obligations are owed, which are pending, and the count.
#[derive(Clone, Copy, Debug)]
pub(crate) struct BitPlaces {
    pub signals: u32,
    pub obligations: u32,
}

/// What a bit of a joint state says of a signal, if anything.
#[derive(Clone, Copy, Debug)]
pub(crate) enum Says {
    /// Its value in the valuation before.
    Before(usize),
    /// Its value.
    Now(usize),
    Other,
}

impl BitPlaces {
    /// The places of joint states.
    pub fn of(joint: &Joint) -> BitPlaces {
        BitPlaces {
            signals: joint.netlist().signals(),
            obligations: joint.violation().len(),
        }
    }

    /// The bit that says that there was a valuation before.
    pub fn had(self) -> usize {
        0
    }

    /// A signal's value in the valuation before.
    pub fn before(self, signal: u32) -> usize {
        1 + signal as usize
    }

    /// A signal's value.
    pub fn now(self, signal: u32) -> usize {
        1 + self.signals as usize + signal as usize
    }

    /// Whether an obligation is owed.
    pub fn owed(self, number: u32) -> usize {
        1 + 2 * self.signals as usize + number as usize
    }

    /// Whether an obligation is pending.
    pub fn pending(self, number: u32) -> usize {
        1 + 2 * self.signals as usize + self.obligations as usize + number as usize
    }

    /// What the bit of a literal says.
    pub fn says(self, literal: i32) -> Says {
        let (variable, signals) = (literal.unsigned_abs() as usize, self.signals as usize);
        if variable < 2 {
            Says::Other
        } else if variable - 2 < signals {
            Says::Before(variable - 2)
        } else if variable - 2 - signals < signals {
            Says::Now(variable - 2 - signals)
        } else {
            Says::Other
        }
    }
}
