ghost use Rattle.std.specs.Prelude.{◌≡◌, ◌<◌, length};
ghost use Rattle.alternating_blocks.specs.Search.{CanSearch};

use crate::equations::Equations;
use crate::order::Order;
use crate::words::{Words, closed, filled};

// How many turns are taken for each obligation, at the most.
const MOST_TURNS: usize = 128;

/// What the words of a block are found by.
#[derive(Clone, Copy)]
pub(crate) struct Search<'a> {
    pub(crate) equations: Equations<'a>,
    pub(crate) order: &'a Order,
}

impl Search<'_> {
    /// Looks for words that meet the equations of all obligations. At first all are stale. The lowest stale one of the
    /// order takes its turn; where its words change, those that owe it are stale.
    pub(crate) fn find(&self, stale: &mut [bool], words: &mut [Words])
        requires can { CanSearch self.now }
        requires stale { length stale.old ≡ length self.now.order.now.turns.items }
        requires words { length words.old ≡ length self.now.equations.after.now }
    {
        stale.fill(true);
        words.copy_from_slice(self.equations.after);
        let mut turn = 0;
        for _ in 0..self.order.turns.len().saturating_mul(MOST_TURNS) {
            if turn >= self.order.turns.len() {
                return;
            }
            turn = self.take_turn(turn, stale, words);
        }
    }

    // Takes a turn, if it is stale, and gives the one to look at next.
    fn take_turn(&self, turn: usize, stale: &mut [bool], words: &mut [Words]) -> usize
        requires can { CanSearch self.now }
        requires turn { turn < length self.now.order.now.turns.items }
        requires stale { length stale.old ≡ length self.now.order.now.turns.items }
        requires words { length words.old ≡ length self.now.equations.after.now }
    {
        if !stale[turn] {
            return turn + 1;
        }
        stale[turn] = false;
        let number = self.order.turns[turn];
        let before = words[number as usize];
        let found = self.words_of(turn, number, words);
        words[number as usize] = found;
        if found == before {
            return turn + 1;
        }
        self.mark(turn, number, stale)
    }

    // The words of an obligation, from those of the others.
    fn words_of(&self, turn: usize, number: u32, words: &mut [Words]) -> Words
        requires can { CanSearch self.now }
        requires number { number < length self.now.equations.after.now }
        requires words { length words.old ≡ length self.now.equations.after.now }
    {
        let equations = self.equations;
        let place = number as usize;
        let delta = &equations.plan.deltas[place];
        if !self.order.owers[place].contains(&turn) {
            return equations.met(delta, words);
        }
        words[place] = Words::same(filled(false));
        let least = equations.met(delta, words);
        words[place] = Words::same(filled(true));
        let most = equations.met(delta, words);
        closed(least, most)
    }

    // Those that owe an obligation are stale: gives the lowest of them and of the next turn.
    fn mark(&self, turn: usize, number: u32, stale: &mut [bool]) -> usize
        requires can { CanSearch self.now }
        requires turn { turn < length self.now.order.now.turns.items }
        requires number { number < length self.now.equations.after.now }
        requires stale { length stale.old ≡ length self.now.order.now.turns.items }
    {
        let mut lowest = turn + 1;
        for ower in &self.order.owers[number as usize] {
            if *ower != turn {
                stale[*ower] = true;
                lowest = lowest.min(*ower);
            }
        }
        lowest
    }
}
