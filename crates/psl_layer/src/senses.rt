// Trees of signals and of numbers, and comparisons of them.
ghost use Rattle.std.specs.Prelude.{◌≡◌};
ghost use Rattle.psl_sugar.specs.Budget.{GivesBoolean};
ghost use Rattle.psl_sugar.specs.Comparisons.{comparison_row};
ghost use Rattle.psl_layer_theory.specs.Kernel as kernel;
ghost use Rattle.psl_layer.specs.Built.{operand_in};
ghost use Rattle.psl_layer.specs.Rows.{OperatedRow, ReadSense};

use crate::elaborated::Sense;
use crate::meaning::Meaning;
use crate::operators::{Operation, aborted, connect, lasting, sequenced, suffixed};
use crate::referred::Referred;
use psl_layer_theory::{InfixOperator, Reference};
use psl_lexer::TokenKind;
use psl_sugar::{Comparison, MeasuredBool, Operand, SugarFault};
use std::alloc::Global;

// A signal, a bit, a vector or a bus as a Boolean.
fn some_bit(alloc: Global, found: &Referred) -> Result<MeasuredBool, SugarFault>
    ensures { GivesBoolean result (kernel.bits_meaning found.now.reference) }
{
    match &found.reference {
        Reference::Nothing | Reference::Several => Ok(MeasuredBool::constant(false)),
        Reference::Bits(bits) => MeasuredBool::some_bit(alloc, bits),
    }
}

// The same as a side of a comparison.
fn bits_operand(found: Referred) -> Operand
    ensures { result ≡ kernel.bits_operand found.reference }
{
    let Referred { reference } = found;
    match reference {
        Reference::Nothing | Reference::Several => Operand::Value(0),
        Reference::Bits(bits) => Operand::Bits(bits),
    }
}

// `true` or `false`, a number or a constant, by the kind of its token and its value.
fn literal(kind: TokenKind, value: u64) -> MeasuredBool
    ensures { result ≡ kernel.literal_meaning kind value }
{
    match kind {
        TokenKind::True => MeasuredBool::constant(true),
        TokenKind::False => MeasuredBool::constant(false),
        _ => MeasuredBool::number(value),
    }
}

impl Sense {
    /// Its tree.
    pub(crate) fn into_meaning(self, alloc: Global) -> Meaning
        ensures { ReadSense self result }
    {
        match self {
            Sense::Path(found) => Meaning::Boolean(some_bit(alloc, &found)),
            Sense::Literal(kind, value) => Meaning::Boolean(Ok(literal(kind, value))),
            Sense::Declared(meaning, _found) => meaning,
            Sense::Built(meaning) => meaning,
        }
    }

    // It as a side of a comparison.
    fn into_operand(self) -> Operand
        ensures { result ≡ operand_in self }
    {
        match self {
            Sense::Path(found) => bits_operand(found),
            Sense::Declared(_meaning, found) => bits_operand(found),
            Sense::Literal(_, value) => Operand::Value(value),
            Sense::Built(_) => Operand::Value(0),
        }
    }
}

// A comparison.
fn compared(
    alloc: Global,
    comparison: Comparison,
    left: Sense,
    right: Sense,
) -> Result<MeasuredBool, SugarFault>
    ensures { GivesBoolean result (comparison_row comparison (operand_in left) (operand_in right)) }
{
    let left = left.into_operand();
    let right = right.into_operand();
    MeasuredBool::compared(alloc, comparison, &left, &right)
}

/// An operator between its operands: a comparison reads their bits, any other their trees.
pub(crate) fn operated(alloc: Global, operation: Operation, left: Sense, right: Sense) -> Meaning
    ensures { OperatedRow operation.operator operation.strength left right result }
{
    match operation.operator {
        InfixOperator::Comparison(comparison) => {
            Meaning::Boolean(compared(alloc, comparison, left, right))
        }
        InfixOperator::Connective(connective) => connect(
            alloc,
            connective,
            left.into_meaning(alloc),
            right.into_meaning(alloc),
        ),
        InfixOperator::Sequence(operator) => sequenced(
            alloc,
            operator,
            left.into_meaning(alloc),
            right.into_meaning(alloc),
        ),
        InfixOperator::Suffix(operator) => suffixed(
            alloc,
            operator,
            left.into_meaning(alloc),
            right.into_meaning(alloc),
        ),
        InfixOperator::Abort(operator) => aborted(
            alloc,
            operator,
            left.into_meaning(alloc),
            right.into_meaning(alloc),
        ),
        InfixOperator::Until(operator) => lasting(
            alloc,
            operator,
            operation.strength,
            left.into_meaning(alloc),
            right.into_meaning(alloc),
        ),
    }
}
