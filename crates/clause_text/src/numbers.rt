// Numbers in decimal digits, as they stand in the lines of a log.
ghost use Rattle.std.specs.Prelude.{◌≡◌, ◌≤◌, ℕ, ℤ, true, decimal, ◌∷◌, slice_index, IfSome, IfNone};
ghost use Rattle.std.specs.Fmt.{signed_decimal};
ghost use Rattle.clauses.specs.Literals.{is_literal};
ghost use Rattle.clauses.specs.declared.flat.TheConstants.{MOST_VARIABLES};
ghost use Rattle.clauses.specs.Logs.{is_number};

use clauses::MOST_VARIABLES;
use psl_base::plain_decimal;

/// The number that a text says in decimal digits without leading zeros, where it is at most `MOST_VARIABLES`.
pub fn number(text: &[u8]) -> Option<u32>
    ensures some { IfSome result (λ number. (number ≤ MOST_VARIABLES) × (text.now ≡ decimal number)) }
    ensures none { IfNone result ((number : ℕ) → number ≤ MOST_VARIABLES → text.now ≡ decimal number → ⊥) }
{
    match plain_decimal(u64::from(MOST_VARIABLES), text) {
        Some(number) => Some(number as u32),
        None => None,
    }
}

/// The number of a clause that a text says, in decimal digits without leading zeros.
pub(crate) fn clause_number(text: &[u8]) -> Option<u32>
    ensures some { IfSome result (λ number. (is_number number ≡ true) × (text.now ≡ decimal number)) }
    ensures none { IfNone result ((number : ℕ) → is_number number ≡ true
        → text.now ≡ decimal number → ⊥) }
{
    match plain_decimal(u64::from(MOST_VARIABLES), text) {
        Some(0) => None,
        Some(number) => Some(number as u32),
        None => None,
    }
}

/// The literal that a text says: the number of its variable in decimal digits without leading zeros, with a `-` before
/// them where it is negated.
pub fn literal(text: &[u8]) -> Option<i32>
    ensures some { IfSome result (λ value. (is_literal value ≡ true) × (text.now ≡ signed_decimal value)) }
    ensures none { IfNone result ((value : ℤ) → is_literal value ≡ true
        → text.now ≡ signed_decimal value → ⊥) }
{
    match after_minus(text) {
        Some(digits) => match clause_number(digits) {
            Some(number) => Some(-(number as i32)),
            None => None,
        },
        None => match clause_number(text) {
            Some(number) => Some(number as i32),
            None => None,
        },
    }
}

/// What stands behind the `-` in front of a text.
fn after_minus(text: &[u8]) -> Option<&[u8]>
    ensures some { IfSome result (λ behind. text.now ≡ 45 ∷ behind.now) }
    ensures none { IfNone result (slice_index text.now 0 ≡ 45 → ⊥) }
{
    match text.split_first() {
        Some((first, behind)) if *first == b'-' => Some(behind),
        _ => None,
    }
}
