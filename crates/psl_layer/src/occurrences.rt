// Next forms and next events.
ghost use Rattle.std.specs.Prelude.{◌≡◌};
ghost use Rattle.psl_layer_theory.specs.Kernel as kernel;
ghost use Rattle.psl_layer_theory.specs.Operators as operators;
ghost use Rattle.psl_layer_theory.specs.Texts as texts;
ghost use Rattle.psl_sugar.specs.Rows.{FormulaRow, FormulaTestRow};

use psl_grammar::Count;
use psl_lexer::{Token, TokenKind};
use psl_names::{number_of, quantifier_of, strength_of};
use psl_sugar::{MeasuredBool, MeasuredFl, Range, SugarFault};
use std::alloc::Global;

// The range of a next form's word and its two numbers.
fn range_of(word: TokenKind, low: &Token, high: &Token) -> Range
    ensures quantifier { result.quantifier ≡ operators.quantifier_of word }
    ensures low { result.low ≡ texts.number_of low.now }
    ensures high { result.high ≡ texts.number_of high.now }
{
    Range {
        quantifier: quantifier_of(word),
        low: number_of(low),
        high: number_of(high),
    }
}

/// A next form, with one number or a range.
#[tactic(auto, using(crate::proofs::Sizes::next_size))]
pub(crate) fn next_form(
    alloc: Global,
    word: TokenKind,
    count: &Count,
    part: Result<MeasuredFl, SugarFault>,
) -> Result<MeasuredFl, SugarFault>
    ensures { FormulaRow (kernel.next_meaning word count.now) part result }
{
    let part = part?;
    let strength = strength_of(word);
    match count {
        Count::Times(times) => part.next_times(alloc, strength, number_of(times)),
        Count::Between(low, high) => { part.next_range(alloc, strength, range_of(word, low, high)) }
    }
}

/// A next event, without a count, with one number or with a range.
#[tactic(auto, using(crate::proofs::Sizes::event_size))]
pub(crate) fn next_event(
    alloc: Global,
    word: TokenKind,
    test: Result<MeasuredBool, SugarFault>,
    count: &Option<Count>,
    part: Result<MeasuredFl, SugarFault>,
) -> Result<MeasuredFl, SugarFault>
    ensures { FormulaTestRow (λ formula wanted. kernel.event_meaning word wanted count.now formula) part test result }
{
    let test = test?;
    let part = part?;
    let strength = strength_of(word);
    match count {
        None => part.next_event(alloc, strength, test),
        Some(Count::Times(times)) => {
            part.next_event_times(alloc, strength, test, number_of(times))
        }
        Some(Count::Between(low, high)) => {
            part.next_event_range(alloc, strength, test, range_of(word, low, high))
        }
    }
}
