// The covers of tables.
ghost use Rattle.std.specs.Prelude.{◌≡◌, length, IfOk};
ghost use Rattle.gates_frames.specs.Frames.{AreCovers};
ghost use Rattle.gates_nodes.specs.Nodes as nodes;
ghost use Rattle.gates_covers.specs.Greedy as spec;

use crate::candidates::all_rows;
use crate::greedy::opposite;
use gates_nodes::{Cover, Covers};
use netlist::{Rows, Table};
use psl_base::NoMemory;
use std::alloc::Global;

/// The cover of each table, by the number of the table: its rows are one side, and the other is few rows that fit where
/// none of them does. A table of more than four inputs gets the cover that is always false.
///
/// # Errors
///
/// `NoMemory` if memory is refused.
pub fn covers_of(alloc: Global, tables: &[Table]) -> Result<Covers, NoMemory>
    ensures is { IfOk result (λ covers. covers ≡ spec.covers_of tables.now) }
    ensures are { IfOk result (AreCovers tables.now) }
    ensures size { IfOk result (λ covers. length covers ≡ length tables.now) }
{
    let candidates = all_rows(alloc)?;
    let mut covers = Covers::new(alloc);
    for table in tables {
        covers.push(cover_or_none(alloc, &candidates, table)?)?;
    }
    Ok(covers)
}

// The cover of a table, or of none.
fn cover_or_none(alloc: Global, candidates: &Rows, table: &Table) -> Result<Cover, NoMemory>
    requires { candidates.now ≡ spec.all_rows }
    ensures { IfOk result (λ cover. cover ≡ spec.cover_of table.now) }
{
    if table.inputs.len() <= 4 {
        cover_of(alloc, candidates, table)
    } else {
        no_cover(alloc)
    }
}

// The cover of a table.
fn cover_of(alloc: Global, candidates: &Rows, table: &Table) -> Result<Cover, NoMemory>
    requires { candidates.now ≡ spec.all_rows }
    ensures { IfOk result (λ cover. cover ≡ spec.sides table.now.value table.now.rows (spec.opposite table.now.rows)) }
{
    let rows = table.rows.copy(alloc)?;
    let others = opposite(alloc, candidates, &table.rows)?;
    if table.value {
        Ok(Cover {
            on: rows,
            off: others,
        })
    } else {
        Ok(Cover {
            on: others,
            off: rows,
        })
    }
}

// The cover that is always false.
fn no_cover(alloc: Global) -> Result<Cover, NoMemory>
    ensures { IfOk result (λ cover. cover ≡ nodes.no_cover) }
{
    let mut off = Rows::new(alloc);
    off.push(&[])?;
    Ok(Cover {
        on: Rows::new(alloc),
        off,
    })
}
