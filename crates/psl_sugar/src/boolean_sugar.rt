// Numbers and vectors as Booleans.
ghost use Rattle.std.specs.Prelude.{◌≡◌, ◌<◌, ◌≤◌, length};
ghost use Rattle.psl_sugar.specs.Booleans.{number, has_bit, bit_at, bit_of, some_bit};
ghost use Rattle.psl_sugar.specs.Budget.{GivesBoolean};

use crate::{MeasuredBool, SugarFault, Vector};
use psl_tree::{Atom, Edge};
use std::alloc::Global;

impl MeasuredBool {
    /// A number or a constant: `true` exactly where its value is not 0.
    pub fn number(value: u64) -> MeasuredBool
        ensures { result ≡ number value }
    {
        MeasuredBool::constant(value != 0)
    }

    /// The bit of a vector at a place, counted from the right from 0.
    pub(crate) fn bit_at(vector: &Vector, place: u64) -> MeasuredBool
        requires { place < length vector.now }
        ensures { result ≡ bit_at vector.now place }
    {
        let bit = vector.at(place);
        MeasuredBool::test(Atom {
            signal: bit.signal,
            bit: bit.place,
            edge: Edge::Value,
        })
    }

    // A bit of a vector, counted from the leftmost one.
    fn bit_of(vector: &Vector, bit: u64) -> MeasuredBool
        requires { bit < length vector.now }
        ensures { result ≡ bit_of vector.now bit }
    {
        MeasuredBool::bit_at(vector, vector.width() - 1 - bit)
    }

    /// A vector as a Boolean: the disjunction from the left of its bits, the leftmost bit first.
    pub fn some_bit(alloc: Global, vector: &Vector) -> Result<MeasuredBool, SugarFault>
        requires { 1 ≤ length vector.now }
        ensures { GivesBoolean result (some_bit vector.now) }
    {
        let mut all = MeasuredBool::bit_of(vector, 0);
        for more in 0..vector.width() - 1 {
            all = all.or(alloc, MeasuredBool::bit_of(vector, more + 1))?;
        }
        Ok(all)
    }
}

/// Whether a number's bit is 1, counted from the right.
pub(crate) fn has_bit(value: u64, place: u64) -> bool
    ensures { result ≡ has_bit value place }
{
    place < 64 && (value >> place) % 2 == 1
}
