// All rows of four marks, those that ask the fewest values first.
ghost use Rattle.std.specs.Prelude.{◌≡◌, ◌<◌, ◌++◌, count_by, length, All, IfOk, OnOk};
ghost use Rattle.gates_covers.specs.Greedy as spec;
ghost use Rattle.gates_covers.specs.Greedy.{rows_asking};

use netlist::{Mark, Rows};
use psl_base::NoMemory;
use std::alloc::Global;

// How many rows of four marks there are.
const ROWS: usize = 81;

// The mark of a digit to the base 3.
fn mark_at(digit: usize) -> Mark
    ensures { result ≡ spec.mark_at digit }
{
    match digit {
        0 => Mark::Any,
        1 => Mark::Zero,
        _ => Mark::One,
    }
}

// The row of a number.
fn row_at(number: usize) -> [Mark; 4]
    ensures { result ≡ spec.row_at number }
{
    [
        mark_at(number / 27),
        mark_at(number / 9 % 3),
        mark_at(number / 3 % 3),
        mark_at(number % 3),
    ]
}

// How many values a row asks.
fn asked(row: &[Mark]) -> usize
    ensures { result ≡ count_by spec.asks row.now }
{
    let mut count = 0;
    for mark in row {
        if *mark != Mark::Any {
            count += 1;
        }
    }
    count
}

// The rows that ask so many values, behind others.
fn push_asking(rows: &mut Rows, count: usize) -> Result<(), NoMemory>
    requires { All (λ row. length row ≡ 4) rows.old }
    ensures added { OnOk result (rows.new ≡ rows.old ++ rows_asking count) }
    ensures width { OnOk result (All (λ row. length row ≡ 4) rows.new) }
{
    for number in 0..ROWS {
        let row = row_at(number);
        if asked(&row) == count {
            rows.push(&row)?;
        }
    }
    Ok(())
}

/// All rows of four marks.
pub fn all_rows(alloc: Global) -> Result<Rows, NoMemory>
    ensures { IfOk result (λ rows. rows ≡ spec.all_rows) }
{
    let mut rows = Rows::new(alloc);
    for count in 0..5 {
        push_asking(&mut rows, count)?;
    }
    Ok(rows)
}
