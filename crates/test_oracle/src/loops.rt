ghost use Rattle.std.specs.Prelude.{◌<◌, length, IsTrue, IfOk};
ghost use Rattle.lasso_judge.specs.Limits.{HasSmallSequences};
ghost use Rattle.psl_tree.specs.Clockless.{IsPlain};
ghost use Rattle.psl_tree.specs.Trees.{formula_of};

use crate::fault::Fault;
use crate::game::Game;
use alternating::{has_large_sequence, of};
use lasso_judge::satisfies;
use psl_tree::{Atom, Atoms, Edge, Fl, Letter, Letters, Word};
use std::alloc::Global;

/// The signals of one bit by their numbers, as the recordings declare them.
const SIGNALS: [(&str, u32); 5] = [("a", 0), ("b", 1), ("c", 2), ("d", 3), ("clk", 4)];

/// The word with these samples as its stem and its loop.
pub fn word(alloc: Global, stem: &str, looped: &str) -> Result<Word, Fault>
    ensures { IfOk result (λ word. 0 < length word.looped) }
{
    let stem = letters(alloc, stem)?;
    let looped = letters(alloc, looped)?;
    if looped.len() == 0 {
        return Err(Fault::Row);
    }
    Ok(Word { stem, looped })
}

fn letters(alloc: Global, samples: &str) -> Result<Letters, Fault> {
    let mut letters = Letters::new(alloc);
    if samples.trim().is_empty() {
        return Ok(letters);
    }
    for sample in samples.split(';') {
        letters.push(letter(alloc, sample.trim())?)?;
    }
    Ok(letters)
}

fn letter(alloc: Global, sample: &str) -> Result<Letter, Fault> {
    if sample == "TOP" {
        return Ok(Letter::Top);
    }
    if sample == "BOTTOM" {
        return Ok(Letter::Bottom);
    }
    let mut atoms = Atoms::new(alloc);
    for (name, signal) in SIGNALS {
        for (mark, edge) in [("", Edge::Value), ("^", Edge::Rise), ("_", Edge::Fall)] {
            if is_told(sample, mark, name) {
                atoms.push(Atom {
                    signal,
                    bit: 0,
                    edge,
                })?;
            }
        }
    }
    Ok(Letter::Holds(atoms))
}

fn is_told(sample: &str, mark: &str, name: &str) -> bool {
    for word in sample.split_whitespace() {
        if let Some(rest) = word.strip_prefix(mark) {
            if rest == name {
                return true;
            }
        }
    }
    false
}

#[tactic(auto, using(crate::proofs::Small::small_sequences))]
fn has_small_sequences(formula: &Fl) -> bool
    ensures { IsTrue result → HasSmallSequences (formula_of formula.now) }
{
    !has_large_sequence(formula)
}

/// Whether a word with a loop satisfies a formula without clocks: by its automaton, by the dual of this, which accepts
/// the dual of the word where the formula is not satisfied, and by the tables of the lasso judge.
pub fn loop_answers(alloc: Global, formula: &Fl, word: &Word) -> Result<[bool; 3], Fault>
    requires plain { IsPlain (formula_of formula.now) }
    requires looped { 0 < length word.now.looped }
{
    if !has_small_sequences(formula) {
        return Err(Fault::Refused);
    }
    let automaton = of(alloc, formula)?;
    let game = Game {
        automaton: &automaton,
        word,
        flipped: false,
    };
    let dual = automaton.dual(alloc)?;
    let opposite = Game {
        automaton: &dual,
        word,
        flipped: true,
    };
    Ok([
        game.accepts(alloc)?,
        !opposite.accepts(alloc)?,
        satisfies(alloc, formula, word)?,
    ])
}
