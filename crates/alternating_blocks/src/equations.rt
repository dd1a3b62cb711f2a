ghost use Rattle.std.specs.Prelude.{◌≡◌, ◌<◌, IsTrue, length};
ghost use Rattle.alternating_theory.specs.Positive.{Holds, Owed};
ghost use Rattle.alternating_blocks.specs.Equations.{IsReady, Meets, MeetsNode, AreSolution};
ghost use Rattle.alternating_blocks.specs.Plan.{NodeWithin, test_at};

use crate::plan::{Node, Plan};
use crate::words::{Words, filled};

/// The equations that the words of a block meet: each value is what the obligation asks of its letter and of the
/// values at the next place.
#[derive(Clone, Copy)]
pub(crate) struct Equations<'a> {
    pub(crate) plan: &'a Plan,
    /// Of each Boolean of the plan a word that says at which letters it holds.
    pub(crate) tests: &'a [u64],
    /// Of each obligation words that have its value after the block at all places.
    pub(crate) after: &'a [Words],
}

impl Equations<'_> {
    /// Whether words meet all of them. Words that do are the values, however they were found, since the last place
    /// depends on the values after the block alone, and each other on the next.
    pub(crate) fn hold(&self, words: &[Words]) -> bool
        requires ready { IsReady self.now }
        requires words { length words.now ≡ length self.now.after.now }
        ensures { IsTrue result → AreSolution self.now words.now }
    {
        let deltas = self.plan.deltas.as_slice();
        for number in 0..words.len() {
            if self.met(&deltas[number], words) != words[number] {
                return false;
            }
        }
        true
    }

    /// At which of the letters a combination is met, with the values at the next place: those of the words one place
    /// on, and past the last letter those after the block.
    pub(crate) fn met(&self, node: &Node, words: &[Words]) -> Words
        requires node { NodeWithin (length self.now.after.now) (length self.now.tests.now) node.now }
        requires words { length words.now ≡ length self.now.after.now }
        ensures { MeetsNode self.now words.now node.now result }
    {
        match node {
            Node::Const(value) => Words::same(filled(*value)),
            Node::Holds(test) => self.held(*test, words),
            Node::Owed(number) => self.owed(*number, words),
            Node::Both(test, number) => self.held(*test, words).and(self.owed(*number, words)),
            Node::Either(test, number) => self.held(*test, words).or(self.owed(*number, words)),
            Node::And(left, right) => self.met(left, words).and(self.met(right, words)),
            Node::Or(left, right) => self.met(left, words).or(self.met(right, words)),
        }
    }

    // At which of the letters a Boolean holds.
    fn held(&self, test: usize, words: &[Words]) -> Words
        requires { test < length self.now.tests.now }
        ensures { Meets self.now words.now (Holds (test_at self.now.plan.now.tests.items test)) result }
    {
        Words::same(self.tests[test])
    }

    // The values of an obligation at the next place.
    fn owed(&self, number: u32, words: &[Words]) -> Words
        requires number { number < length self.now.after.now }
        requires words { length words.now ≡ length self.now.after.now }
        ensures { Meets self.now words.now (Owed number) result }
    {
        let place = number as usize;
        words[place].next(self.after[place])
    }
}
