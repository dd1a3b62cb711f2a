// Which operator a token is, by what stands behind it.
ghost use Rattle.std.specs.Prelude.{◌≡◌};
ghost use Rattle.psl_layer_theory.specs.Kinds as spec;

use crate::operators::infix_operator;
use psl_grammar::Expression;
use psl_layer_theory::InfixOperator;
use psl_lexer::TokenKind;
use psl_sugar::{Connective, SequenceOperator};

// Whether something may stand behind an operator of sequences alone.
fn is_part(x: &Expression) -> bool
    ensures { result ≡ spec.is_part x.now }
{
    match x {
        Expression::Repeated(..)
        | Expression::Clocked(..)
        | Expression::Braced(..)
        | Expression::Repetition(..) => true,
        Expression::Infix(_, operator, _) => is_within(infix_operator(operator.kind)),
        Expression::Prefix(..)
        | Expression::Postfix(..)
        | Expression::Grouped(..)
        | Expression::Literal(..)
        | Expression::Signal(..)
        | Expression::Edge(..)
        | Expression::NextTimes(..)
        | Expression::NextEvent(..) => false,
    }
}

// Whether an operator is `within`.
fn is_within(operator: InfixOperator) -> bool
    ensures { result ≡ spec.is_within operator }
{
    matches!(operator, InfixOperator::Sequence(SequenceOperator::Within))
}

// The operator that stands before a part of a sere.
fn before_part(operator: InfixOperator) -> InfixOperator
    ensures { result ≡ spec.before_part operator }
{
    match operator {
        InfixOperator::Connective(Connective::Conjunction) => {
            InfixOperator::Sequence(SequenceOperator::SameLength)
        }
        other => other,
    }
}

/// The operator that a token is before its right operand, in a sere or outside of one.
pub fn operator_before(in_sere: bool, kind: TokenKind, right: &Expression) -> InfixOperator
    ensures { result ≡ spec.operator_before in_sere kind right.now }
{
    let operator = infix_operator(kind);
    if in_sere && is_part(right) {
        before_part(operator)
    } else {
        operator
    }
}
