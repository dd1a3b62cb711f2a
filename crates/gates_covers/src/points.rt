// Sets of vectors of four values, as sixteen bits: that of a vector's number says whether it is in the set.
ghost use Rattle.std.specs.Prelude.{◌≡◌, ◌<◌, false, slice_index_or};
ghost use Rattle.netlist.specs.Valuations.{fits_mark, fits_row};
ghost use Rattle.netlist.specs.declared.rows.Mark.TheVariants as marks;
ghost use Rattle.gates_nodes.specs.Nodes as nodes;
ghost use Rattle.gates_covers.specs.Points.{IsMask};

use netlist::{Mark, Rows};

// The vectors whose value at each place is 1.
const ONES: [u16; 4] = [0xff00, 0xf0f0, 0xcccc, 0xaaaa];

// The mark of a row at a place; past its end nothing is asked.
fn mark_at(row: &[Mark], place: usize) -> Mark
    ensures { result ≡ slice_index_or row.now place marks.Any }
{
    if place < row.len() {
        row[place]
    } else {
        Mark::Any
    }
}

// The vectors whose value at a place is what the mark of a row asks there.
fn points_at(row: &[Mark], place: usize) -> u16
    requires { place < 4 }
    ensures { IsMask result
        (λ point. fits_mark (slice_index_or row.now place marks.Any) (slice_index_or point place false)) }
{
    match mark_at(row, place) {
        Mark::Zero => !ONES[place],
        Mark::One => ONES[place],
        Mark::Any => u16::MAX,
    }
}

/// The vectors that a row fits.
pub fn points_of(row: &[Mark]) -> u16
    ensures { IsMask result (fits_row row.now) }
{
    points_at(row, 0) & points_at(row, 1) & points_at(row, 2) & points_at(row, 3)
}

/// The vectors that some row fits.
pub fn points_of_some(rows: &Rows) -> u16
    ensures { IsMask result (nodes.fits_some rows.now) }
{
    let mut points = 0;
    for place in 0..rows.len() {
        points |= points_of(rows.at(place));
    }
    points
}
