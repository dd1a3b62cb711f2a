ghost use Rattle.std.specs.Prelude.{◌≡◌, ℕ, ◌<◌, ◌^◌, [], ◌∷◌, ◌++◌, length, slice_index_or, sum_by, All, IfOk, OnOk, OnErr};

use psl_base::NoMemory;
use std::alloc::Global;
use std::marker::Model;

/// What a row of a table asks of one input: that it is 0, or 1, or nothing.
#[derive(Clone, Copy, Debug, PartialEq, Eq)]
pub enum Mark {
    Zero,
    One,
    Any,
}

/// The rows of a table: each has a mark for each input, in the order of the inputs, so all have the same length. They
/// take a byte for each mark.
#[derive(Debug, Drop)]
pub struct Rows {
    marks: Vec<Mark>,
    width: usize,
    count: usize,
}

impl Model for Rows {
    ghost use Rattle.std.specs.Prelude.{◌≡◌, ◌*◌, List, length};
    ghost use Rattle.netlist.specs.declared.rows.Mark.{Mark};
    ghost use Rattle.netlist.specs.Rows.{rows_in};

    ghost Value = { List (List Mark) };

    ghost view = { λ rows. rows_in rows.count rows.width rows.marks.items };

    ghost invariant = { λ rows. length rows.marks.items ≡ rows.count * rows.width };
}

impl Rows {
    ghost use Rattle.netlist.specs.declared.rows.Mark.{Mark};

    /// No rows. It takes no memory.
    pub fn new(alloc: Global) -> Rows
        ensures { result ≡ [] }
    {
        Rows {
            marks: Vec::new(alloc),
            width: 0,
            count: 0,
        }
    }

    /// How many rows there are.
    pub fn len(&self) -> usize
        ensures { result ≡ length self.now }
    {
        self.count
    }

    /// The row at a place, counted from 0.
    pub fn at(&self, place: usize) -> &[Mark]
        requires { place < length self.now }
        ensures { result.now ≡ slice_index_or self.now place [] }
    {
        part(&self.marks, place * self.width, self.width)
    }

    /// How many marks all rows have together.
    pub fn mark_count(&self) -> usize
        ensures { result ≡ sum_by length self.now }
    {
        self.marks.len()
    }

    /// The same rows once more.
    pub fn copy(&self, alloc: Global) -> Result<Rows, NoMemory>
        ensures { IfOk result (λ rows. rows ≡ self.now) }
    {
        let mut marks = Vec::with_capacity(alloc, self.marks.len())?;
        marks.extend_from_slice(&self.marks)?;
        Ok(Rows {
            marks,
            width: self.width,
            count: self.count,
        })
    }

    /// One row more, as long as those before it. Where memory is refused, the rows stay; so they do where no number
    /// says how many rows there would be.
    pub fn push(&mut self, row: &[Mark]) -> Result<(), NoMemory>
        requires { All (λ other. length other ≡ length row.now) self.old }
        ensures ok { OnOk result (self.new ≡ self.old ++ row.now ∷ []) }
        ensures err { OnErr result (self.new ≡ self.old) }
    {
        if self.count == usize::MAX {
            return Err(NoMemory);
        }
        self.marks.extend_from_slice(row)?;
        self.width = row.len();
        self.count += 1;
        Ok(())
    }
}

ghost use Rattle.std.specs.Prelude.{◌+◌, ◌≤◌, take, drop};

/// So many marks from a place on, counted from 0.
fn part(marks: &[Mark], start: usize, len: usize) -> &[Mark]
    requires { start + len ≤ length marks.now }
    ensures { result.now ≡ take len (drop start marks.now) }
{
    &marks[start..start + len]
}
