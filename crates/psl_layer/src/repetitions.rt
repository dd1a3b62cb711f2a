// Repetitions, behind an operand and alone.
ghost use Rattle.std.specs.Prelude.{◌≡◌};
ghost use Rattle.psl_sugar.specs.Budget.{GivesSequence};
ghost use Rattle.psl_sugar.specs.Sequences.{plus, any_letter};
ghost use Rattle.psl_layer_theory.specs.Kernel as kernel;
ghost use Rattle.psl_sugar.specs.Rows.{LetterRow, SequenceRow};
ghost use Rattle.psl_layer.specs.Rows.{ReadSequence, star_row, goto_row, occurrences_row};

use crate::meaning::Meaning;
use psl_grammar::Count as WrittenCount;
use psl_layer_theory::RepetitionOperator;
use psl_names::{is_endless, number_of};
use psl_sugar::{Count, MeasuredBool, MeasuredSere, SugarFault};
use std::alloc::Global;

/// A count, if there is one.
pub(crate) fn optional_count(count: &Option<WrittenCount>) -> Option<Count>
    ensures { result ≡ kernel.optional_count count.now }
{
    match count {
        Some(count) => Some(count_of(count)),
        None => None,
    }
}

// A count.
fn count_of(count: &WrittenCount) -> Count
    ensures { result ≡ kernel.count_meaning count.now }
{
    match count {
        WrittenCount::Times(times) => Count::Times(number_of(times)),
        WrittenCount::Between(low, high) => {
            if is_endless(high.kind) {
                Count::AtLeast(number_of(low))
            } else {
                Count::Between(number_of(low), number_of(high))
            }
        }
    }
}

// `r[*]`, and `r[*count]`; so often as not at all it is the empty sequence, whatever `r` is.
#[tactic(auto, using(psl_sugar::proofs::Sizes::repeated_holds, psl_sugar::proofs::Sizes::repeated_zero))]
fn starred(
    alloc: Global,
    count: Option<Count>,
    part: Result<MeasuredSere, SugarFault>,
) -> Result<MeasuredSere, SugarFault>
    ensures { SequenceRow (star_row count) part result }
{
    let Some(count) = count else {
        return part?.star(alloc);
    };
    if count.is_zero() {
        return Ok(MeasuredSere::empty());
    }
    part?.repeated(alloc, count)
}

// `r[+]`.
fn repeated_once_or_more(
    alloc: Global,
    part: Result<MeasuredSere, SugarFault>,
) -> Result<MeasuredSere, SugarFault>
    ensures { SequenceRow plus part result }
{
    part?.plus(alloc)
}

// `b[->]`, and `b[->count]`; so often as not at all it is the empty sequence, whatever `b` is.
#[tactic(auto, using(psl_sugar::proofs::Sizes::repeated_holds, psl_sugar::proofs::Sizes::repeated_zero))]
fn gone_to(
    alloc: Global,
    count: Option<Count>,
    test: Result<MeasuredBool, SugarFault>,
) -> Result<MeasuredSere, SugarFault>
    ensures { LetterRow (goto_row count) test result }
{
    let Some(count) = count else {
        return MeasuredSere::goto(alloc, test?);
    };
    if count.is_zero() {
        return Ok(MeasuredSere::empty());
    }
    MeasuredSere::goto_repeated(alloc, test?, count)
}

// `b[=count]`.
fn occurring(
    alloc: Global,
    count: Option<Count>,
    test: Result<MeasuredBool, SugarFault>,
) -> Result<MeasuredSere, SugarFault>
    ensures { LetterRow (occurrences_row count) test result }
{
    match count {
        Some(count) => MeasuredSere::occurrences(alloc, test?, count),
        None => Ok(MeasuredSere::empty()),
    }
}

/// A repetition behind its operand.
pub(crate) fn repeated(
    alloc: Global,
    operator: RepetitionOperator,
    count: Option<Count>,
    part: Meaning,
) -> Result<MeasuredSere, SugarFault>
    ensures { ReadSequence (kernel.repeated_meaning operator count) part result }
{
    match operator {
        RepetitionOperator::Star => starred(alloc, count, part.into_sequence()),
        RepetitionOperator::Plus => repeated_once_or_more(alloc, part.into_sequence()),
        RepetitionOperator::Goto => gone_to(alloc, count, part.into_boolean()),
        RepetitionOperator::Occurrences => occurring(alloc, count, part.into_boolean()),
    }
}

/// A repetition alone: of any letter.
pub(crate) fn alone(
    alloc: Global,
    operator: RepetitionOperator,
    count: Option<Count>,
) -> Result<MeasuredSere, SugarFault>
    ensures { GivesSequence result (kernel.alone_meaning operator count) }
{
    match operator {
        RepetitionOperator::Star => starred(alloc, count, MeasuredSere::any_letter()),
        RepetitionOperator::Plus => repeated_once_or_more(alloc, MeasuredSere::any_letter()),
        RepetitionOperator::Goto | RepetitionOperator::Occurrences => Ok(MeasuredSere::empty()),
    }
}
