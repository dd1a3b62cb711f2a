// The sides of comparisons, bit by bit.
ghost use Rattle.std.specs.Prelude.{◌≡◌};
ghost use Rattle.psl_sugar.specs.Booleans.{bit_at};
ghost use Rattle.psl_sugar.specs.Comparisons.{width_of, compared_width, side_bit};

use crate::boolean_sugar::has_bit;
use crate::{MeasuredBool, Vector};

/// One side of a comparison.
#[derive(Debug, Drop)]
pub enum Operand {
    /// The unsigned number that the bits of a vector are.
    Bits(Vector),
    /// The value of a number or a constant.
    Value(u64),
}

impl Operand {
    // How many bits a side has of its own: a value has those of the other side.
    fn width(&self) -> u64
        ensures { result ≡ width_of self.now }
    {
        match self {
            Operand::Bits(vector) => vector.width(),
            Operand::Value(_) => 0,
        }
    }

    /// The bit at a place, counted from the right from 0: on the left of a vector there are zeros.
    pub(crate) fn bit(&self, place: u64) -> MeasuredBool
        ensures { result ≡ side_bit self.now place }
    {
        match self {
            Operand::Bits(vector) => extended_bit(vector, place),
            Operand::Value(value) => MeasuredBool::constant(has_bit(*value, place)),
        }
    }
}

// The bit of a vector at a place, counted from the right from 0, or a zero on its left.
fn extended_bit(vector: &Vector, place: u64) -> MeasuredBool
    ensures { result ≡ bit_at vector.now place }
{
    if place < vector.width() {
        MeasuredBool::bit_at(vector, place)
    } else {
        MeasuredBool::constant(false)
    }
}

/// How many bits are compared: as many as the wider vector has.
pub(crate) fn compared_width(left: &Operand, right: &Operand) -> u64
    ensures { result ≡ compared_width left.now right.now }
{
    left.width().max(right.width())
}
