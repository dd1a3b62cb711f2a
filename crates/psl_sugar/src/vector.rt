// Bits that are read as one number.
ghost use Rattle.std.specs.Prelude.{◌≡◌, ◌+◌, ◌<◌, ◌≤◌, ◌^◌, Some, length, map, slice_get};
ghost use Rattle.psl_sugar.specs.Vectors.{only_bit, side_by_side};

use psl_base::Numbers;
use std::marker::Model;

/// A bit of a signal. Signals are numbered from 0; the place is that in the signal, counted from the right, from 0.
#[derive(Clone, Copy, Debug, PartialEq, Eq)]
pub struct Bit {
    pub signal: u32,
    pub place: u32,
}

/// Where the bits of a vector are.
#[derive(Debug, Drop)]
enum Bits {
    /// So many bits of one signal that stand side by side, the rightmost at this place.
    SideBySide {
        signal: u32,
        lowest: u32,
        width: u64,
    },
    /// The only bits of these signals.
    OfSignals(Numbers),
}

/// Bits that are read as one number. Contracts see the list of them, the rightmost first.
#[derive(Debug, Drop)]
pub struct Vector {
    bits: Bits,
}

impl Model for Vector {
    ghost use Rattle.std.specs.Prelude.{List};
    ghost use Rattle.psl_sugar.specs.declared.vector.Bit.{Bit};

    ghost Value = { List Bit };

    ghost use Rattle.psl_sugar.specs.Kept.{bits_in, HavePlaces};

    ghost view = { λ vector. bits_in vector.bits };

    ghost invariant = { λ vector. HavePlaces vector.bits };
}

impl Vector {
    /// So many bits of a signal that stand side by side, the rightmost at this place.
    pub fn side_by_side(signal: u32, lowest: u32, width: u64) -> Vector
        requires { lowest + width ≤ 2 ^ 32 }
        ensures { result ≡ side_by_side signal lowest width }
    {
        Vector {
            bits: Bits::SideBySide {
                signal,
                lowest,
                width,
            },
        }
    }

    /// The only bits of these signals, of which the first is the rightmost.
    pub fn of_signals(signals: Numbers) -> Vector
        ensures { result ≡ map only_bit signals }
    {
        Vector {
            bits: Bits::OfSignals(signals),
        }
    }

    /// How many bits there are.
    pub fn width(&self) -> u64
        ensures { result ≡ length self.now }
    {
        match &self.bits {
            Bits::SideBySide { width, .. } => *width,
            Bits::OfSignals(signals) => signals.len() as u64,
        }
    }

    /// The bit at a place, counted from the right from 0.
    pub fn at(&self, place: u64) -> Bit
        requires { place < length self.now }
        ensures { slice_get self.now place ≡ Some result }
    {
        match &self.bits {
            Bits::SideBySide { signal, lowest, .. } => Bit {
                signal: *signal,
                place: (u64::from(*lowest) + place) as u32,
            },
            Bits::OfSignals(signals) => Bit {
                signal: *signals.at(place as usize),
                place: 0,
            },
        }
    }
}
