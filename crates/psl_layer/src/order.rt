// The order of faults.
ghost use Rattle.std.specs.Prelude.{◌≡◌};
ghost use Rattle.psl_layer_theory.specs.FirstFlaw as spec;

use psl_layer_theory::{Cause, Flaw};

// The number of a cause.
fn cause_number(cause: Cause) -> u8
    ensures { result ≡ spec.cause_number cause }
{
    match cause {
        Cause::Kind => 6,
        Cause::UnknownName => 7,
        Cause::Ambiguous => 8,
        Cause::DeclaredTwice => 9,
        Cause::EmptyRange => 10,
        Cause::ConstantTooWide => 11,
    }
}

// Whether one fault goes before another: by line, by column, by number.
fn goes_before(first: Flaw, second: Flaw) -> bool
    ensures { result ≡ spec.goes_before first second }
{
    let first_number = cause_number(first.cause);
    let second_number = cause_number(second.cause);
    first.place.line < second.place.line
        || (first.place.line == second.place.line
            && (first.place.column < second.place.column
                || (first.place.column == second.place.column && first_number < second_number)))
}

/// The earlier of two faults, if there are any.
pub(crate) fn earlier(first: Option<Flaw>, second: Option<Flaw>) -> Option<Flaw>
    ensures { result ≡ spec.earlier first second }
{
    match (first, second) {
        (None, second) => second,
        (Some(first), None) => Some(first),
        (Some(first), Some(second)) => {
            if goes_before(second, first) {
                Some(second)
            } else {
                Some(first)
            }
        }
    }
}
