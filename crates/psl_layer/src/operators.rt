// Operators on anything.
ghost use Rattle.psl_layer_theory.specs.Kernel as kernel;
ghost use Rattle.psl_layer_theory.specs.declared.operator.PrefixOperator.TheVariants as prefixes;
ghost use Rattle.psl_tree.specs.Trees.{Clocked, Not};
ghost use Rattle.psl_sugar.specs.Rows.{BooleanRow, FormulaRow, FormulaTestRow, SequenceClockRow};
ghost use Rattle.psl_layer.specs.Rows.{ClockRow, MeaningRow, MeaningsRow, ReadFormula, eventual_in, prefix_row};

use crate::meaning::Meaning;
use psl_layer_theory::{InfixOperator, PrefixOperator};
use psl_sugar::{
    AbortOperator, Connective, MeasuredBool, MeasuredFl, MeasuredSere, SequenceOperator, Strength,
    SuffixOperator, SugarFault, UntilOperator,
};
use std::alloc::Global;

/// An operator between its operands, and whether it is the strong one.
#[derive(Clone, Copy)]
pub(crate) struct Operation {
    pub operator: InfixOperator,
    pub strength: Strength,
}

// `!` before a Boolean.
fn negated_boolean(
    alloc: Global,
    part: Result<MeasuredBool, SugarFault>,
) -> Result<MeasuredBool, SugarFault>
    ensures { BooleanRow Not part result }
{
    part?.not(alloc)
}

// An operator before a property.
fn prefixed_formula(
    alloc: Global,
    operator: PrefixOperator,
    strength: Strength,
    part: Result<MeasuredFl, SugarFault>,
) -> Result<MeasuredFl, SugarFault>
    ensures { FormulaRow (prefix_row operator strength) part result }
{
    let part = part?;
    match operator {
        PrefixOperator::Not => part.not(alloc),
        PrefixOperator::Always => part.always(alloc),
        PrefixOperator::Never => part.never(alloc),
        PrefixOperator::Next => part.next(alloc, strength),
        PrefixOperator::Eventually => part.eventually(alloc),
    }
}

// A property at a clock.
fn clocked_formula(
    alloc: Global,
    part: Result<MeasuredFl, SugarFault>,
    clock: Result<MeasuredBool, SugarFault>,
) -> Result<MeasuredFl, SugarFault>
    ensures { FormulaTestRow Clocked part clock result }
{
    part?.clocked(alloc, clock?)
}

// A sequence at a clock.
fn clocked_sequence(
    alloc: Global,
    part: Result<MeasuredSere, SugarFault>,
    clock: Result<MeasuredBool, SugarFault>,
) -> Result<MeasuredSere, SugarFault>
    ensures { SequenceClockRow Clocked part clock result }
{
    part?.clocked(alloc, clock?)
}

// As a property of which `never` or `eventually!` speaks: a sequence is strong there.
fn into_eventual(part: Meaning) -> Result<MeasuredFl, SugarFault>
    ensures { ReadFormula eventual_in part result }
{
    match part {
        Meaning::Sequence(sequence) => MeasuredFl::strong(sequence?),
        other => other.into_formula(),
    }
}

// `!`.
fn negated(alloc: Global, strength: Strength, part: Meaning) -> Meaning
    ensures { MeaningRow (kernel.prefix_meaning prefixes.Not strength) part result }
{
    match part {
        Meaning::Boolean(test) => Meaning::Boolean(negated_boolean(alloc, test)),
        other => {
            let part = other.into_formula();
            Meaning::Property(prefixed_formula(alloc, PrefixOperator::Not, strength, part))
        }
    }
}

/// An operator before its operand.
pub(crate) fn prefixed(
    alloc: Global,
    operator: PrefixOperator,
    strength: Strength,
    part: Meaning,
) -> Meaning
    ensures { MeaningRow (kernel.prefix_meaning operator strength) part result }
{
    let part = match operator {
        PrefixOperator::Not => return negated(alloc, strength, part),
        PrefixOperator::Never | PrefixOperator::Eventually => into_eventual(part),
        PrefixOperator::Always | PrefixOperator::Next => part.into_formula(),
    };
    Meaning::Property(prefixed_formula(alloc, operator, strength, part))
}

/// A connective: of Booleans if both operands are, else of properties.
pub(crate) fn connect(
    alloc: Global,
    connective: Connective,
    left: Meaning,
    right: Meaning,
) -> Meaning
    ensures { MeaningsRow (kernel.connected connective) left right result }
{
    match (left, right) {
        (Meaning::Boolean(left), Meaning::Boolean(right)) => {
            Meaning::Boolean(MeasuredBool::connected(alloc, connective, left, right))
        }
        (left, right) => {
            let (left, right) = (left.into_formula(), right.into_formula());
            Meaning::Property(MeasuredFl::connected(alloc, connective, left, right))
        }
    }
}

/// An operator of sequences.
pub(crate) fn sequenced(
    alloc: Global,
    operator: SequenceOperator,
    left: Meaning,
    right: Meaning,
) -> Meaning
    ensures { MeaningsRow (kernel.sequenced operator) left right result }
{
    let (left, right) = (left.into_sequence(), right.into_sequence());
    Meaning::Sequence(MeasuredSere::joined(alloc, operator, left, right))
}

/// A suffix implication.
pub(crate) fn suffixed(
    alloc: Global,
    operator: SuffixOperator,
    left: Meaning,
    right: Meaning,
) -> Meaning
    ensures { MeaningsRow (kernel.suffixed operator) left right result }
{
    let (left, right) = (left.into_sequence(), right.into_formula());
    Meaning::Property(MeasuredFl::suffixed(alloc, operator, left, right))
}

/// An abort.
pub(crate) fn aborted(
    alloc: Global,
    operator: AbortOperator,
    left: Meaning,
    right: Meaning,
) -> Meaning
    ensures { MeaningsRow (kernel.aborted operator) left right result }
{
    let (left, right) = (left.into_formula(), right.into_boolean());
    Meaning::Property(MeasuredFl::aborted(alloc, operator, left, right))
}

/// An operator of properties that is strong or weak.
pub(crate) fn lasting(
    alloc: Global,
    operator: UntilOperator,
    strength: Strength,
    left: Meaning,
    right: Meaning,
) -> Meaning
    ensures { MeaningsRow (kernel.lasting operator strength) left right result }
{
    let (left, right) = (left.into_formula(), right.into_formula());
    Meaning::Property(MeasuredFl::lasting(alloc, operator, strength, left, right))
}

/// What stands in round brackets.
pub(crate) fn grouped(part: Meaning) -> Meaning
    ensures { MeaningRow kernel.grouped_meaning part result }
{
    match part {
        Meaning::Boolean(test) => Meaning::Boolean(test),
        other => Meaning::Property(other.into_formula()),
    }
}

/// `e @ c` outside of a sere: a sequence stays one, and anything else is a property.
pub(crate) fn clocked(
    alloc: Global,
    part: Meaning,
    clock: Result<MeasuredBool, SugarFault>,
) -> Meaning
    ensures { ClockRow kernel.clocked_meaning part clock result }
{
    match part {
        Meaning::Sequence(sequence) => {
            Meaning::Sequence(clocked_sequence(alloc, sequence, clock))
        }
        other => Meaning::Property(clocked_formula(alloc, other.into_formula(), clock)),
    }
}

/// `e @ c`, in a sere and outside of one.
pub(crate) fn clocked_in(
    alloc: Global,
    in_sere: bool,
    part: Meaning,
    clock: Result<MeasuredBool, SugarFault>,
) -> Meaning
    ensures { ClockRow (kernel.clocked_in in_sere) part clock result }
{
    if in_sere {
        Meaning::Sequence(clocked_sequence(alloc, part.into_sequence(), clock))
    } else {
        clocked(alloc, part, clock)
    }
}
