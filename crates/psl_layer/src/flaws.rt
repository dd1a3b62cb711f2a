// Faults of kinds, of comparisons and of counts.
ghost use Rattle.std.specs.Prelude.{◌≡◌, ◌^◌, nat_le, Some};
ghost use Rattle.psl_layer_theory.specs.FirstFlaw.{first_of};
ghost use Rattle.psl_layer_theory.specs.Flaws as spec;
ghost use Rattle.psl_layer.specs.CheckedBy.{own_flaws};

use crate::elaborated::Checked;
use crate::order::earlier;
use psl_base::Place;
use psl_grammar::Count;
use psl_layer_theory::{
    Cause, ExpressionKind, Flaw, InfixOperator, PrefixOperator, RepetitionOperator, Side,
};
use psl_lexer::{Token, TokenKind};
use psl_names::{is_endless, literal_value, number_of};

/// A fault at a place where a test passes.
pub(crate) fn flaw_where(test: bool, cause: Cause, place: Place) -> Option<Flaw>
    ensures { result ≡ first_of (spec.flaw_where test cause place) }
{
    if test {
        Some(Flaw { place, cause })
    } else {
        None
    }
}

/// A Boolean is wanted: any other kind is a fault.
pub(crate) fn wants_boolean(kind: ExpressionKind, place: Place) -> Option<Flaw>
    ensures { result ≡ first_of (spec.wants_boolean kind place) }
{
    match kind {
        ExpressionKind::Boolean => None,
        ExpressionKind::Sequence | ExpressionKind::Property => flaw_where(true, Cause::Kind, place),
    }
}

/// A sequence is wanted: a property is a fault.
pub(crate) fn wants_sequence(kind: ExpressionKind, place: Place) -> Option<Flaw>
    ensures { result ≡ first_of (spec.wants_sequence kind place) }
{
    match kind {
        ExpressionKind::Property => flaw_where(true, Cause::Kind, place),
        ExpressionKind::Boolean | ExpressionKind::Sequence => None,
    }
}

/// One side of a comparison that is a number, a constant, `true` or `false`.
pub(crate) fn literal_side(token: &Token) -> Side
    ensures { result ≡ spec.literal_side token.now.kind token.now }
{
    match token.kind {
        TokenKind::Number | TokenKind::Constant => Side::Value(literal_value(token), token.place),
        _ => Side::Neither,
    }
}

// Whether a value needs more bits than there are.
fn is_past_width(width: u64, value: u64) -> bool
    ensures { result ≡ nat_le (2 ^ width) value }
{
    width < 64 && value >= 1u64 << width
}

// The fault of a value that needs more bits than there are.
fn value_flaw(width: Option<u64>, value: u64, place: Place) -> Option<Flaw>
    ensures { result ≡ first_of (spec.value_flaws width value place) }
{
    match width {
        None => None,
        Some(width) => flaw_where(is_past_width(width, value), Cause::ConstantTooWide, place),
    }
}

// The fault of a comparison of two sides, of which the left one begins at a place.
fn side_flaw(left: Side, right: Side, left_place: Place) -> Option<Flaw>
    ensures { result ≡ first_of (spec.side_flaws left right left_place) }
{
    match (left, right) {
        (Side::Bits(_), Side::Bits(_)) => None,
        (Side::Bits(width), Side::Value(value, place))
        | (Side::Value(value, place), Side::Bits(width)) => { value_flaw(width, value, place) }
        _ => flaw_where(true, Cause::Kind, left_place),
    }
}

/// The fault of an operator before its operand.
pub(crate) fn prefix_flaw(in_sere: bool, operator: PrefixOperator, x: Checked) -> Option<Flaw>
    ensures { result ≡ first_of (spec.prefix_flaws in_sere operator x.kind x.place) }
{
    match (in_sere, operator) {
        (true, PrefixOperator::Not) => wants_boolean(x.kind, x.place),
        _ => None,
    }
}

// The first fault of the operands of a connective.
fn logical_flaw(in_sere: bool, left: Checked, right: Checked) -> Option<Flaw>
    ensures { result ≡ first_of (spec.logical_flaws in_sere left.kind left.place right.kind right.place) }
{
    if in_sere {
        earlier(
            wants_boolean(left.kind, left.place),
            wants_boolean(right.kind, right.place),
        )
    } else {
        None
    }
}

// The first fault of two elements of a sere.
fn element_flaw(left: Checked, right: Checked) -> Option<Flaw>
    ensures { result ≡ first_of (spec.element_flaws left.kind left.place right.kind right.place) }
{
    earlier(
        wants_sequence(left.kind, left.place),
        wants_sequence(right.kind, right.place),
    )
}

/// The first fault of an operator between its operands, without those of the operands.
pub(crate) fn infix_flaw(
    in_sere: bool,
    operator: InfixOperator,
    left: Checked,
    right: Checked,
) -> Option<Flaw>
    ensures { result ≡ first_of (own_flaws in_sere operator left right) }
{
    match operator {
        InfixOperator::Connective(_) => logical_flaw(in_sere, left, right),
        InfixOperator::Comparison(_) => side_flaw(left.side, right.side, left.place),
        InfixOperator::Sequence(_) => element_flaw(left, right),
        InfixOperator::Suffix(_) => wants_sequence(left.kind, left.place),
        InfixOperator::Abort(_) => wants_boolean(right.kind, right.place),
        InfixOperator::Until(_) => None,
    }
}

/// The fault of a repetition's operand.
pub(crate) fn repeated_flaw(operator: RepetitionOperator, x: Checked) -> Option<Flaw>
    ensures { result ≡ first_of (spec.repeated_flaws operator x.kind x.place) }
{
    match operator {
        RepetitionOperator::Goto | RepetitionOperator::Occurrences => wants_boolean(
            x.kind, x.place,
        ),
        RepetitionOperator::Star | RepetitionOperator::Plus => wants_sequence(x.kind, x.place),
    }
}

/// The fault of a clock's operand.
pub(crate) fn clocked_flaw(in_sere: bool, x: Checked) -> Option<Flaw>
    ensures { result ≡ first_of (spec.clocked_flaws in_sere x.kind x.place) }
{
    if in_sere {
        wants_sequence(x.kind, x.place)
    } else {
        None
    }
}

/// The fault of what stands in round brackets.
pub(crate) fn grouped_flaw(in_sere: bool, kind: ExpressionKind, place: Place) -> Option<Flaw>
    ensures { result ≡ first_of (spec.grouped_flaws in_sere kind place) }
{
    if in_sere {
        wants_boolean(kind, place)
    } else {
        None
    }
}

// Whether the second number of a range is below the first.
fn falls(low: &Token, high: &Token) -> bool
    ensures { result ≡ spec.falls low.now high.now }
{
    !is_endless(high.kind) && number_of(high) < number_of(low)
}

/// The fault of a count, which may have to begin at 1 or more.
pub(crate) fn count_flaw(from_one: bool, count: &Count) -> Option<Flaw>
    ensures { result ≡ first_of (spec.count_flaws from_one (Some count.now)) }
{
    match count {
        Count::Times(number) => flaw_where(
            from_one && number_of(number) == 0,
            Cause::EmptyRange,
            number.place,
        ),
        Count::Between(low, high) => {
            flaw_where(
                (from_one && number_of(low) == 0) || falls(low, high),
                Cause::EmptyRange,
                low.place,
            )
        }
    }
}

/// The fault of a count, if there is one.
pub(crate) fn optional_count_flaw(from_one: bool, count: &Option<Count>) -> Option<Flaw>
    ensures { result ≡ first_of (spec.count_flaws from_one count.now) }
{
    match count {
        None => None,
        Some(count) => count_flaw(from_one, count),
    }
}

// Whether a repetition counts from 1 on.
fn is_goto(operator: RepetitionOperator) -> bool
    ensures { result ≡ spec.is_goto operator }
{
    matches!(operator, RepetitionOperator::Goto)
}

/// The fault of a repetition's count, if there is one: `[->` counts from 1 on.
pub(crate) fn repetition_flaw(operator: RepetitionOperator, count: &Option<Count>) -> Option<Flaw>
    ensures { result ≡ first_of (spec.count_flaws (spec.is_goto operator) count.now) }
{
    optional_count_flaw(is_goto(operator), count)
}
