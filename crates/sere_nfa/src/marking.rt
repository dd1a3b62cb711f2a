ghost use Rattle.std.specs.Prelude.{◌≡◌, ◌<◌, All, [], false, length, replicate, IfOk, OnOk};
ghost use Rattle.sere_nfa.specs.Marking.{visit, visit_all};
ghost use Rattle.sere_nfa.specs.MarkingView.{marking_of};

use psl_base::NoMemory;
use std::alloc::Global;

/// A search over numbers from 0 on: which were found, and which of these still have to be looked at.
#[derive(Debug, Drop)]
pub struct Marking {
    /// For each number, whether it was found.
    pub marks: Vec<bool>,
    /// The found numbers that were not looked at yet.
    pub waiting: Vec<u32>,
}

impl Marking {
    /// So many numbers, of which none was found yet.
    pub fn new(alloc: Global, count: usize) -> Result<Marking, NoMemory>
        ensures { IfOk result (λ marking. marking_of marking ≡ record { marks = replicate count false; waiting = [] }) }
    {
        Ok(Marking {
            marks: vec![in alloc; false; count]?,
            waiting: Vec::new(alloc),
        })
    }

    /// Marks a number that is not marked yet, and lets it wait.
    pub fn visit(&mut self, number: u32) -> Result<(), NoMemory>
        requires { number < length self.old.marks.items }
        ensures { OnOk result (marking_of self.new ≡ visit (marking_of self.old) number) }
    {
        if !self.marks[number as usize] {
            self.marks[number as usize] = true;
            self.waiting.push(number)?;
        }
        Ok(())
    }

    /// Marks those of these numbers that are not marked yet, and lets them wait.
    pub fn visit_each(&mut self, numbers: &[u32]) -> Result<(), NoMemory>
        requires { All (λ number. number < length self.old.marks.items) numbers.now }
        ensures { OnOk result (marking_of self.new ≡ visit_all (marking_of self.old) numbers.now) }
    {
        for number in numbers {
            self.visit(*number)?;
        }
        Ok(())
    }
}
