// The kinds that operators give.
ghost use Rattle.std.specs.Prelude.{◌≡◌};
ghost use Rattle.psl_layer_theory.specs.Kinds as spec;

use psl_layer_theory::{ExpressionKind, InfixOperator, PrefixOperator};

// Anything combined in a sere, and outside of one.
fn combined(in_sere: bool) -> ExpressionKind
    ensures { result ≡ spec.combined in_sere }
{
    if in_sere {
        ExpressionKind::Sequence
    } else {
        ExpressionKind::Property
    }
}

/// The kind of an operator before its operand.
pub(crate) fn prefix_kind(
    in_sere: bool,
    operator: PrefixOperator,
    kind: ExpressionKind,
) -> ExpressionKind
    ensures { result ≡ spec.prefix_kind in_sere operator kind }
{
    match (operator, kind) {
        (PrefixOperator::Not, ExpressionKind::Boolean) => ExpressionKind::Boolean,
        (PrefixOperator::Not, _) => combined(in_sere),
        _ => ExpressionKind::Property,
    }
}

// The kind of an operator of Booleans and of properties.
fn logical_kind(in_sere: bool, left: ExpressionKind, right: ExpressionKind) -> ExpressionKind
    ensures { result ≡ spec.logical_kind in_sere left right }
{
    match (left, right) {
        (ExpressionKind::Boolean, ExpressionKind::Boolean) => ExpressionKind::Boolean,
        _ => combined(in_sere),
    }
}

/// The kind of an operator between its operands.
pub(crate) fn infix_kind(
    in_sere: bool,
    operator: InfixOperator,
    left: ExpressionKind,
    right: ExpressionKind,
) -> ExpressionKind
    ensures { result ≡ spec.infix_kind in_sere operator left right }
{
    match operator {
        InfixOperator::Connective(_) => logical_kind(in_sere, left, right),
        InfixOperator::Comparison(_) => ExpressionKind::Boolean,
        InfixOperator::Sequence(_) => ExpressionKind::Sequence,
        InfixOperator::Suffix(_) | InfixOperator::Abort(_) | InfixOperator::Until(_) => {
            ExpressionKind::Property
        }
    }
}

/// The kind of `e @ c`.
pub(crate) fn clocked_kind(in_sere: bool, kind: ExpressionKind) -> ExpressionKind
    ensures { result ≡ spec.clocked_kind in_sere kind }
{
    match (in_sere, kind) {
        (true, _) | (false, ExpressionKind::Sequence) => ExpressionKind::Sequence,
        (false, _) => ExpressionKind::Property,
    }
}

/// The kind of what stands in round brackets.
pub(crate) fn grouped_kind(kind: ExpressionKind) -> ExpressionKind
    ensures { result ≡ spec.grouped_kind kind }
{
    match kind {
        ExpressionKind::Boolean => ExpressionKind::Boolean,
        ExpressionKind::Sequence | ExpressionKind::Property => ExpressionKind::Property,
    }
}
