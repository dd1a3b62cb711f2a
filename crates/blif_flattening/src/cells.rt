// The signals of the instances that were opened, and their numbers in the order of first mention.
ghost use Rattle.std.specs.Prelude.{◌≡◌, ◌+◌, ◌<◌, ◌≤◌, ◌^◌, [], ◌∷◌, ◌++◌, length, map, All, IfOk, OnOk};
ghost use Rattle.blif_flattening.specs.Members.{Among};
ghost use Rattle.blif_flattening.specs.Numbers.{onto, place_of};
ghost use Rattle.blif_flattening.specs.Cells.{signal_in, with_owner, named};
ghost use Rattle.blif_flattening.specs.Listing.{number_in_list};

use crate::model::Signal;
use psl_base::{Items, NoMemory, Numbers};
use std::alloc::Global;
use std::marker::Model;

// A signal, and its number where it was mentioned.
#[derive(Drop)]
pub(crate) struct Cell {
    signal: Signal,
    number: Option<u32>,
}

/// The signals that there are, each in a cell of its own. Contracts see them, and those that were mentioned.
#[derive(Drop)]
pub(crate) struct Cells {
    cells: Vec<Cell>,
    // The cells by number.
    order: Vec<usize>,
}

impl Model for Cells {
    ghost use Rattle.blif_flattening.specs.Cells.{SignalTable, table_of, IsTable};

    ghost Value = { SignalTable };

    ghost view = { λ table. table_of table.cells.items table.order.items };

    ghost invariant = { λ table. IsTable table.cells.items table.order.items };
}

impl Cells {
    /// No cell. It takes no memory.
    pub(crate) fn new(alloc: Global) -> Cells
        ensures owners { result.owners ≡ [] }
        ensures seen { result.seen ≡ [] }
    {
        Cells {
            cells: Vec::new(alloc),
            order: Vec::new(alloc),
        }
    }

    /// How many signals were mentioned.
    pub(crate) fn seen(&self) -> usize
        ensures { result ≡ length self.now.seen }
    {
        self.order.len()
    }

    /// A cell for a signal that has none.
    pub(crate) fn add(&mut self, signal: Signal) -> Result<usize, NoMemory>
        requires { Among signal self.old.owners → ⊥ }
        ensures cell { IfOk result (λ cell. cell ≡ length self.old.owners) }
        ensures added { OnOk result (self.new ≡ with_owner self.old signal) }
    {
        let cell = self.cells.len();
        self.cells.push(Cell {
            signal,
            number: None,
        })?;
        Ok(cell)
    }

    /// The number of the signal of a cell: the next one where it was not mentioned before.
    pub(crate) fn mention(&mut self, cell: usize) -> Result<u32, NoMemory>
        requires cell { cell < length self.old.owners }
        requires room { length (onto self.old.seen (signal_in self.old.owners cell ∷ [])) ≤ 2 ^ 32 }
        ensures number { IfOk result (λ number. number ≡ place_of self.new.seen (signal_in self.old.owners cell)) }
        ensures seen { OnOk result (self.new.seen ≡ onto self.old.seen (signal_in self.old.owners cell ∷ [])) }
        ensures owners { self.new.owners ≡ self.old.owners }
    {
        if let Some(number) = self.cells[cell].number {
            return Ok(number);
        }
        let number = self.order.len() as u32;
        self.order.push(cell)?;
        self.cells[cell].number = Some(number);
        Ok(number)
    }

    /// The number of the signal of a cell, where it was mentioned.
    pub(crate) fn number(&self, cell: usize) -> Option<u32>
        requires { cell < length self.now.owners }
        ensures { result ≡ number_in_list self.now.seen (signal_in self.now.owners cell) }
    {
        self.cells[cell].number
    }

    /// The numbers of the signals of cells, where they were mentioned.
    pub(crate) fn numbers(
        &self,
        alloc: Global,
        cells: &[usize],
    ) -> Result<Items<Option<u32>>, NoMemory>
        requires { All (λ cell. cell < length self.now.owners) cells.now }
        ensures { IfOk result (λ numbers. numbers
            ≡ map (λ cell. number_in_list self.now.seen (signal_in self.now.owners cell)) cells.now) }
    {
        let mut numbers = Items::new(alloc);
        for cell in cells {
            numbers.push(self.number(*cell))?;
        }
        Ok(numbers)
    }

    /// The numbers of the signals that names mention, where `cells` has the cell of each name.
    pub(crate) fn mention_all(
        &mut self,
        alloc: Global,
        cells: &[usize],
        names: &[u32],
    ) -> Result<Numbers, NoMemory>
        requires names { All (λ name. name < length cells.now) names.now }
        requires cells { All (λ cell. cell < length self.old.owners) cells.now }
        requires room { length (onto self.old.seen (named self.old.owners cells.now names.now)) ≤ 2 ^ 32 }
        ensures numbers { IfOk result (λ numbers. numbers
            ≡ map (place_of self.new.seen) (named self.old.owners cells.now names.now)) }
        ensures seen { OnOk result (self.new.seen ≡ onto self.old.seen (named self.old.owners cells.now names.now)) }
        ensures owners { self.new.owners ≡ self.old.owners }
    {
        let mut numbers = Vec::with_capacity(alloc, names.len())?;
        for name in names {
            numbers.push(self.mention(cells[*name as usize])?)?;
        }
        Ok(Items::from_vec(numbers))
    }
}
