ghost use Rattle.std.specs.Prelude.{◌≡◌, ◌*◌, ◌^◌, ◌<◌, ◌≤◌, length, map};
ghost use Rattle.alternating_theory.specs.Positive.{met};
ghost use Rattle.alternating_theory.specs.Obligations.{value_past};
ghost use Rattle.alternating.specs.Beyonds.{past_of};
ghost use Rattle.alternating.specs.Packed.{letter_of};
ghost use Rattle.alternating.specs.Stepped.{value_at};
ghost use Rattle.alternating.specs.Views.{obligation_of, obligations_of_code, ObligationsWithin};

use crate::obligation::Obligation;
use crate::truths::Truths;
use psl_tree::Atom;

/// What follows a word for ever.
#[derive(Clone, Copy, Debug)]
pub(crate) enum Beyond {
    End,
    Top,
    Bottom,
}

/// Writes the values of obligations past the last letter of a word.
pub(crate) fn fill(obligations: &[Obligation], beyond: Beyond, into: &mut Truths)
    requires few { length obligations.now < 2 ^ 32 }
    requires into_len { length into.old ≡ length obligations.now }
    ensures { into.new ≡ map (λ obligation. value_past (past_of beyond) obligation) (obligations_of_code obligations.now) }
{
    for (number, obligation) in obligations.iter().enumerate() {
        into.set(number as u32, value_past(obligation, beyond));
    }
}

// An obligation's value past the last letter.
fn value_past(obligation: &Obligation, beyond: Beyond) -> bool
    ensures { result ≡ value_past (past_of beyond) (obligation_of obligation.now) }
{
    match beyond {
        Beyond::End => obligation.end,
        Beyond::Top => obligation.top,
        Beyond::Bottom => obligation.bottom,
    }
}

/// Writes the values of obligations at a place, from its packed letter and the values at the next
/// place.
pub(crate) fn step(
    obligations: &[Obligation],
    letter: &[u32],
    atoms: &[Atom],
    next: &Truths,
    into: &mut Truths,
)
    requires within { ObligationsWithin 0 (length next.now) obligations.now }
    requires few { length obligations.now < 2 ^ 32 }
    requires bits { length atoms.now ≤ 32 * length letter.now }
    requires into_len { length into.old ≡ length obligations.now }
    ensures { into.new ≡ map (λ obligation. met obligation.delta (letter_of atoms.now letter.now) (λ number. value_at next.now number)) (obligations_of_code obligations.now) }
{
    for (number, obligation) in obligations.iter().enumerate() {
        into.set(number as u32, obligation.delta.met(letter, atoms, next));
    }
}
