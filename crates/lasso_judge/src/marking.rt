ghost use Rattle.std.specs.Prelude.{◌≡◌, ◌<◌, All, [], false, length, replicate, IfOk, OnOk};
ghost use Rattle.sere_nfa.specs.Marking.{visit, visit_all};
ghost use Rattle.lasso_judge.specs.MarkingView.{marking_of};

use psl_base::NoMemory;
use std::alloc::Global;

/// A search over cells: which were found, and which of these still have to be looked at. A number is as wide as an address,
/// since a chart may have more than 2^32 cells.
#[derive(Drop)]
pub(crate) struct Marking {
    /// For each cell, whether it was found.
    pub(crate) marks: Vec<bool>,
    /// The found cells that were not looked at yet.
    pub(crate) waiting: Vec<usize>,
}

impl Marking {
    /// So many cells, of which none was found yet.
    pub(crate) fn new(alloc: Global, count: usize) -> Result<Marking, NoMemory>
        ensures { IfOk result (λ marking. marking_of marking ≡ record { marks = replicate count false; waiting = [] }) }
    {
        Ok(Marking {
            marks: vec![in alloc; false; count]?,
            waiting: Vec::new(alloc),
        })
    }

    /// Marks a cell that is not marked yet, and lets it wait.
    pub(crate) fn visit(&mut self, cell: usize) -> Result<(), NoMemory>
        requires { cell < length self.old.marks.items }
        ensures { OnOk result (marking_of self.new ≡ visit (marking_of self.old) cell) }
    {
        if !self.marks[cell] {
            self.marks[cell] = true;
            self.waiting.push(cell)?;
        }
        Ok(())
    }

    /// Marks those of these cells that are not marked yet, and lets them wait.
    pub(crate) fn visit_each(&mut self, cells: &[usize]) -> Result<(), NoMemory>
        requires { All (λ cell. cell < length self.old.marks.items) cells.now }
        ensures { OnOk result (marking_of self.new ≡ visit_all (marking_of self.old) cells.now) }
    {
        for cell in cells {
            self.visit(*cell)?;
        }
        Ok(())
    }
}
