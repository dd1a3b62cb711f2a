// Few rows that fit just where others do not.
ghost use Rattle.std.specs.Prelude.{◌≡◌, List, IfOk};
ghost use Rattle.netlist.specs.Valuations.{fits_row};
ghost use Rattle.netlist.specs.declared.rows.Mark.{Mark};
ghost use Rattle.gates_nodes.specs.Nodes.{fits_some};
ghost use Rattle.gates_covers.specs.Greedy as spec;
ghost use Rattle.gates_covers.specs.Points.{IsMask};

use crate::points::{points_of, points_of_some};
use netlist::Rows;
use psl_base::NoMemory;
use std::alloc::Global;

// Whether a row is taken, by the vectors that it fits, that the table's rows fit and that rows taken before fit.
fn is_taken(points: u16, fitted: u16, covered: u16) -> bool
    ensures { (rows others : List (List Mark)) (row : List Mark) → IsMask points (fits_row row)
        → IsMask fitted (fits_some rows) → IsMask covered (fits_some others)
        → result ≡ spec.is_taken rows others row }
{
    points & fitted == 0 && points & !covered != 0
}

/// Of all rows the few that fit just the vectors of four values that others do not fit.
pub fn opposite(alloc: Global, candidates: &Rows, rows: &Rows) -> Result<Rows, NoMemory>
    requires { candidates.now ≡ spec.all_rows }
    ensures { IfOk result (λ others. others ≡ spec.opposite rows.now) }
{
    let fitted = points_of_some(rows);
    let mut others = Rows::new(alloc);
    let mut covered = 0;
    for place in 0..candidates.len() {
        let row = candidates.at(place);
        let points = points_of(row);
        if is_taken(points, fitted, covered) {
            others.push(row)?;
            covered |= points;
        }
    }
    Ok(others)
}
