// What each form of an expression is, from what is known and built of its parts. None of these calls itself, and each has
// a frame of its own: so what they need is not on the stack while the walk over an expression goes deeper.
ghost use Rattle.std.specs.Prelude.{◌≡◌, IfOk};
ghost use Rattle.psl_layer_theory.specs.Kernel as kernel;
ghost use Rattle.psl_layer_theory.specs.Operators as words;
ghost use Rattle.psl_layer_theory.specs.Texts.{literal_value as spec_value};
ghost use Rattle.psl_layer.specs.Built.{Gives, GivesPart, operand_in};
ghost use Rattle.psl_layer.specs.CheckedBy as spec;
ghost use Rattle.psl_layer.specs.Rows as rows;
ghost use Rattle.psl_sugar.specs.declared.operand.Operand.TheVariants as operands;

use crate::elaborated::{Checked, Elaborated, Part, Sense};
use crate::flaws::{
    clocked_flaw, count_flaw, grouped_flaw, infix_flaw, literal_side, optional_count_flaw,
    prefix_flaw, repeated_flaw, repetition_flaw, wants_boolean, wants_sequence,
};
use crate::kinds::{clocked_kind, grouped_kind, infix_kind, prefix_kind};
use crate::meaning::Meaning;
use crate::occurrences::{next_event, next_form};
use crate::operators::{Operation, clocked_in, grouped, prefixed};
use crate::order::earlier;
use crate::repetitions::{alone, optional_count, repeated};
use crate::senses::operated;
use psl_base::{Place, boxed};
use psl_grammar::Count;
use psl_layer_theory::{ExpressionKind, Flaw, Side};
use psl_lexer::Token;
use psl_names::{literal_value, prefix_operator, repetition_operator, strength_of};
use std::alloc::Global;

/// An expression that is no side of a comparison.
pub(crate) fn no_side(kind: ExpressionKind, place: Place, flaw: Option<Flaw>) -> Checked
    ensures { result ≡ spec.no_side kind place flaw }
{
    Checked {
        kind,
        place,
        side: Side::Neither,
        flaw,
    }
}

/// An expression whose tree was built.
pub(crate) fn node(alloc: Global, checked: Checked, meaning: Meaning) -> Part
    ensures checked { spec.IsNode checked result }
    ensures built { (wanted : kernel.Meaning) → Gives meaning wanted → GivesPart result wanted }
{
    boxed(
        alloc,
        Elaborated {
            checked,
            sense: Sense::Built(meaning),
        },
    )
}

/// An operator before its operand.
#[inline(never)]
pub(crate) fn of_prefix(
    alloc: Global,
    in_sere: bool,
    operator: &Token,
    part: Box<Elaborated>,
) -> Part
    ensures checked { spec.IsNode (spec.prefix_checked in_sere operator.now part.value.checked) result }
    ensures built { rows.PartRow (kernel.prefix_meaning (words.prefix_operator operator.now.kind) (words.strength_of operator.now.kind)) part.value.sense result }
{
    let Elaborated { checked: x, sense } = Box::into_inner(part);
    let word = prefix_operator(operator.kind);
    let flaw = earlier(x.flaw, prefix_flaw(in_sere, word, x));
    let checked = no_side(prefix_kind(in_sere, word, x.kind), operator.place, flaw);
    let part = sense.into_meaning(alloc);
    let meaning = prefixed(alloc, word, strength_of(operator.kind), part);
    node(alloc, checked, meaning)
}

/// An operator between its operands.
#[inline(never)]
pub(crate) fn of_infix(
    alloc: Global,
    in_sere: bool,
    operation: Operation,
    left: Box<Elaborated>,
    right: Box<Elaborated>,
) -> Part
    ensures checked { spec.IsNode (spec.infix_checked in_sere operation.operator left.value.checked right.value.checked) result }
    ensures built { rows.InfixRow operation.operator operation.strength left.value.sense right.value.sense result }
{
    let left = Box::into_inner(left);
    let right = Box::into_inner(right);
    let (x, y) = (left.checked, right.checked);
    let own = infix_flaw(in_sere, operation.operator, x, y);
    let kind = infix_kind(in_sere, operation.operator, x.kind, y.kind);
    let checked = no_side(kind, x.place, earlier(earlier(x.flaw, y.flaw), own));
    let meaning = operated(alloc, operation, left.sense, right.sense);
    node(alloc, checked, meaning)
}

/// `!` behind what it makes strong.
#[inline(never)]
pub(crate) fn of_strong(alloc: Global, part: Box<Elaborated>) -> Part
    ensures checked { spec.IsNode (spec.postfix_checked part.value.checked) result }
    ensures built { rows.PartRow (λ part. kernel.OfProperty (kernel.strong_in part)) part.value.sense result }
{
    let Elaborated { checked: x, sense } = Box::into_inner(part);
    let flaw = earlier(x.flaw, wants_sequence(x.kind, x.place));
    let checked = no_side(ExpressionKind::Property, x.place, flaw);
    let meaning = Meaning::Property(sense.into_meaning(alloc).into_strong());
    node(alloc, checked, meaning)
}

/// A repetition behind its operand.
#[inline(never)]
pub(crate) fn of_repetition(
    alloc: Global,
    opening: &Token,
    count: &Option<Count>,
    part: Box<Elaborated>,
) -> Part
    ensures checked { spec.IsNode (spec.repeated_checked opening.now count.now part.value.checked) result }
    ensures built { rows.PartRow (rows.repetition_row opening.now count.now) part.value.sense result }
{
    let Elaborated { checked: x, sense } = Box::into_inner(part);
    let operator = repetition_operator(opening.kind);
    let own = earlier(x.flaw, repeated_flaw(operator, x));
    let flaw = earlier(own, repetition_flaw(operator, count));
    let checked = no_side(ExpressionKind::Sequence, x.place, flaw);
    let part = sense.into_meaning(alloc);
    let meaning = Meaning::Sequence(repeated(alloc, operator, optional_count(count), part));
    node(alloc, checked, meaning)
}

/// A repetition that stands alone.
#[inline(never)]
pub(crate) fn of_lone_repetition(alloc: Global, opening: &Token, count: &Option<Count>) -> Part
    ensures checked { spec.IsNode (spec.repetition_checked opening.now count.now) result }
    ensures built { GivesPart result (kernel.OfSequence (kernel.alone_meaning (words.repetition_operator opening.now.kind) (kernel.optional_count count.now))) }
{
    let operator = repetition_operator(opening.kind);
    let flaw = repetition_flaw(operator, count);
    let checked = no_side(ExpressionKind::Sequence, opening.place, flaw);
    let meaning = Meaning::Sequence(alone(alloc, operator, optional_count(count)));
    node(alloc, checked, meaning)
}

/// What is known of `e @ c`.
pub(crate) fn checked_clock(in_sere: bool, x: Checked, clock: Checked) -> Checked
    ensures { result ≡ spec.clocked_checked in_sere x clock }
{
    let parts = earlier(earlier(x.flaw, clock.flaw), clocked_flaw(in_sere, x));
    let flaw = earlier(parts, wants_boolean(clock.kind, clock.place));
    no_side(clocked_kind(in_sere, x.kind), x.place, flaw)
}

/// `e @ c`.
#[inline(never)]
pub(crate) fn of_clock(
    alloc: Global,
    in_sere: bool,
    part: Box<Elaborated>,
    clock: Box<Elaborated>,
) -> Part
    ensures checked { spec.IsNode (spec.clocked_checked in_sere part.value.checked clock.value.checked) result }
    ensures built { rows.PartsRow (λ part clock. kernel.clocked_in in_sere part (kernel.boolean_in clock)) part.value.sense clock.value.sense result }
{
    let part = Box::into_inner(part);
    let clock = Box::into_inner(clock);
    let checked = checked_clock(in_sere, part.checked, clock.checked);
    let test = clock.sense.into_meaning(alloc).into_boolean();
    let meaning = clocked_in(alloc, in_sere, part.sense.into_meaning(alloc), test);
    node(alloc, checked, meaning)
}

/// In round brackets.
#[inline(never)]
pub(crate) fn of_group(alloc: Global, in_sere: bool, opening: &Token, part: Box<Elaborated>) -> Part
    ensures checked { spec.IsNode (spec.grouped_checked in_sere opening.now part.value.checked) result }
    ensures built { rows.PartRow kernel.grouped_meaning part.value.sense result }
{
    let Elaborated { checked: x, sense } = Box::into_inner(part);
    let flaw = earlier(x.flaw, grouped_flaw(in_sere, x.kind, opening.place));
    let checked = no_side(grouped_kind(x.kind), opening.place, flaw);
    node(alloc, checked, grouped(sense.into_meaning(alloc)))
}

/// In braces.
#[inline(never)]
pub(crate) fn of_braces(alloc: Global, opening: &Token, part: Box<Elaborated>) -> Part
    ensures checked { spec.IsNode (spec.braced_checked opening.now part.value.checked) result }
    ensures built { rows.PartRow (λ part. kernel.OfSequence (kernel.sequence_in part)) part.value.sense result }
{
    let Elaborated { checked: x, sense } = Box::into_inner(part);
    let flaw = earlier(x.flaw, wants_sequence(x.kind, x.place));
    let checked = no_side(ExpressionKind::Sequence, opening.place, flaw);
    let meaning = Meaning::Sequence(sense.into_meaning(alloc).into_sequence());
    node(alloc, checked, meaning)
}

/// `true` or `false`, a number or a constant.
#[inline(never)]
pub(crate) fn of_literal(alloc: Global, token: &Token) -> Part
    ensures checked { IfOk result (λ new. new.value.checked ≡ spec.literal_checked token.now) }
    ensures built { GivesPart result (kernel.OfBoolean (kernel.literal_meaning token.now.kind (spec_value token.now))) }
    ensures operand { IfOk result (λ new. operand_in new.value.sense ≡ operands.Value (spec_value token.now)) }
{
    boxed(
        alloc,
        Elaborated {
            checked: Checked {
                kind: ExpressionKind::Boolean,
                place: token.place,
                side: literal_side(token),
                flaw: None,
            },
            sense: Sense::Literal(token.kind, literal_value(token)),
        },
    )
}

/// A next form with its operand.
#[inline(never)]
pub(crate) fn of_next_form(
    alloc: Global,
    word: &Token,
    count: &Count,
    part: Box<Elaborated>,
) -> Part
    ensures checked { spec.IsNode (spec.next_checked word.now count.now part.value.checked) result }
    ensures built { rows.PartRow (λ part. kernel.OfProperty (kernel.next_meaning word.now.kind count.now (kernel.formula_in part))) part.value.sense result }
{
    let Elaborated { checked: x, sense } = Box::into_inner(part);
    let flaw = earlier(x.flaw, count_flaw(true, count));
    let checked = no_side(ExpressionKind::Property, word.place, flaw);
    let part = sense.into_meaning(alloc).into_formula();
    let meaning = Meaning::Property(next_form(alloc, word.kind, count, part));
    node(alloc, checked, meaning)
}

/// A next event with its condition and its operand.
#[inline(never)]
pub(crate) fn of_next_event(
    alloc: Global,
    word: &Token,
    condition: Box<Elaborated>,
    count: &Option<Count>,
    part: Box<Elaborated>,
) -> Part
    ensures checked { spec.IsNode (spec.event_checked word.now condition.value.checked count.now part.value.checked) result }
    ensures built { rows.PartsRow (λ condition part. kernel.OfProperty (kernel.event_meaning word.now.kind (kernel.boolean_in condition) count.now (kernel.formula_in part))) condition.value.sense part.value.sense result }
{
    let condition = Box::into_inner(condition);
    let part = Box::into_inner(part);
    let (test, x) = (condition.checked, part.checked);
    let parts = earlier(
        earlier(test.flaw, x.flaw),
        wants_boolean(test.kind, test.place),
    );
    let flaw = earlier(parts, optional_count_flaw(true, count));
    let checked = no_side(ExpressionKind::Property, word.place, flaw);
    let test = condition.sense.into_meaning(alloc).into_boolean();
    let part = part.sense.into_meaning(alloc).into_formula();
    let meaning = Meaning::Property(next_event(alloc, word.kind, test, count, part));
    node(alloc, checked, meaning)
}
