ghost use Rattle.std.specs.Prelude.{◌≡◌, ◌<◌, ◌^◌, ℕ, length, slice_index, IfOk, OnOk};
ghost use Rattle.alternating.specs.Packed.{bit};
ghost use Rattle.alternating.specs.Stepped.{value_at};
ghost use Rattle.alternating_blocks.specs.Values.{HasLengths, StepsBlock};

use crate::equations::Equations;
use crate::find::Search;
use crate::letters::Letters;
use crate::order::Order;
use crate::plan::Plan;
use crate::values::Values;
use crate::words::Words;
use alternating::{Alternating, Truths};
use psl_base::NoMemory;
use std::alloc::Global;
use std::marker::Model;
use std::mem;

/// What steps over blocks of 64 letters need, made once for an automaton. Contracts see the automaton.
pub struct Blocks<'a> {
    automaton: &'a Alternating,
    plan: Plan,
    order: Order,
    tests: Vec<u64>,
    after: Vec<Words>,
    words: Vec<Words>,
    stale: Vec<bool>,
}

impl<'a> Model for Blocks<'a> {
    ghost use Rattle.alternating_theory.specs.Obligations.{Automaton};
    ghost use Rattle.alternating.specs.Codes.{automaton_code};

    ghost Value = { Automaton };

    ghost coded = { automaton_code };

    ghost use Rattle.alternating_blocks.specs.BlocksView.{automaton_of, HasRoom};

    ghost view = { automaton_of };

    ghost invariant = { HasRoom };
}

// Written out, so that a caller's proof sees one call where a value is dropped.
impl Drop for Blocks<'_> {
    fn drop(self) {
        let Blocks {
            automaton: _,
            plan: _,
            order: _,
            tests: _,
            after: _,
            words: _,
            stale: _,
        } = self;
    }
}

impl<'a> Blocks<'a> {
    /// For the blocks of an automaton.
    pub fn new(alloc: Global, automaton: &'a Alternating) -> Result<Blocks<'a>, NoMemory>
        ensures { IfOk result (λ blocks. blocks ≡ automaton.now) }
    {
        let plan = Plan::new(alloc, automaton)?;
        let order = Order::new(alloc, automaton)?;
        let count = automaton.len() as usize;
        let none = Words {
            weak: 0,
            neutral: 0,
            strong: 0,
        };
        let tests = vec![in alloc; 0; plan.tests.len()]?;
        let stale = vec![in alloc; true; order.turns.len()]?;
        Ok(Blocks {
            automaton,
            plan,
            order,
            tests,
            after: vec![in alloc; none; count]?,
            words: vec![in alloc; none; count]?,
            stale,
        })
    }

    /// Writes the values at the first of 64 letters, from those at the place after the last. The words of the block
    /// are looked for first; where they do not meet its equations, a step is taken for each letter.
    pub fn step_back(
        &mut self,
        alloc: Global,
        letters: &Letters,
        next: &Values,
        into: &mut Values,
    ) -> Result<(), NoMemory>
        requires columns { length letters.now.columns.now ≡ length letters.now.atoms.now }
        requires few { length letters.now.atoms.now < 2 ^ 32 }
        requires next_lengths { HasLengths self.old next.now }
        requires lengths { HasLengths self.old into.old }
        ensures automaton { self.new ≡ self.old }
        ensures steps { OnOk result (StepsBlock self.old letters.now.atoms.now letters.now.columns.now next.now into.new) }
        ensures lengths { OnOk result (HasLengths self.old into.new) }
    {
        let automaton = self.automaton;
        let count = automaton.len();
        let tests = self.tests.as_mut_slice();
        letters.tell(self.plan.tests.as_slice(), tests);
        let after = self.after.as_mut_slice();
        next.spread(count, after);
        let equations = Equations {
            plan: &self.plan,
            tests: &*tests,
            after: &*after,
        };
        let search = Search {
            equations,
            order: &self.order,
        };
        let words = self.words.as_mut_slice();
        search.find(self.stale.as_mut_slice(), words);
        if equations.hold(words) {
            into.read_first(count, words);
            Ok(())
        } else {
            into.read_first(count, equations.after);
            each_step(alloc, automaton, letters, into)
        }
    }
}

// The same by a step for each letter, from the values at the place after the last.
fn each_step(
    alloc: Global,
    automaton: &Alternating,
    letters: &Letters,
    values: &mut Values,
) -> Result<(), NoMemory>
    requires columns { length letters.now.columns.now ≡ length letters.now.atoms.now }
    requires few { length letters.now.atoms.now < 2 ^ 32 }
    requires lengths { HasLengths automaton.now values.old }
    ensures steps { OnOk result (StepsBlock automaton.now letters.now.atoms.now letters.now.columns.now values.old values.new) }
    ensures lengths { OnOk result (HasLengths automaton.now values.new) }
{
    let mut next = Values::past(alloc, automaton)?;
    let mut letter = Truths::new(alloc, letters.atoms.len() as u32)?;
    for place in (0..64).rev() {
        read_letter(letters.columns, place, &mut letter);
        mem::swap(values, &mut next);
        values.step_back(automaton, letter.words(), letters.atoms, &next);
    }
    Ok(())
}

// Reads of each atom whether it holds at a letter.
fn read_letter(columns: &[u64], place: u32, letter: &mut Truths)
    requires place { place < 64 }
    requires few { length columns.now < 2 ^ 32 }
    requires letter_len { length letter.old ≡ length columns.now }
    ensures len { length letter.new ≡ length columns.now }
    ensures bits { (number : ℕ) → number < length columns.now → value_at letter.new number ≡ bit (slice_index columns.now number) place }
{
    for (number, column) in columns.iter().enumerate() {
        letter.set(number as u32, (*column >> place) % 2 == 1);
    }
}
