// How many bits a place has.
ghost use Rattle.std.specs.Prelude.{◌≡◌, ◌≤◌, ◌<◌, ◌^◌, map, take, length, IfOk};
ghost use Rattle.std.specs.List.{range_with_len};
ghost use Rattle.alternating_theory.specs.Obligations.{obligation_at};
ghost use Rattle.bounded_theory.specs.Digits as spec;
ghost use Rattle.bounded.specs.Places.{bits_of, digits_of as some_digits};
ghost use Rattle.clauses.specs.declared.flat.TheConstants.{MOST_VARIABLES};

use alternating::Alternating;
use psl_base::{NoMemory, Numbers};
use std::alloc::Global;

/// How many binary digits a number has.
pub(crate) fn number_width(number: u32) -> u32
    ensures is { result ≡ spec.number_width number }
    ensures few { result ≤ 32 }
{
    if number == 0 {
        0
    } else {
        number_width(number / 2) + 1
    }
}

// How many digits the number of an obligation has.
fn digits_of(automaton: &Alternating, width: u32, number: u32) -> u32
    requires { number < length automaton.now.obligations }
    ensures is { result ≡ some_digits width (obligation_at automaton.now.obligations number) }
    ensures few { result ≤ width }
{
    if automaton.accepting(number) {
        0
    } else {
        width
    }
}

/// How many bits a place has.
pub(crate) fn bits_of(automaton: &Alternating, width: u32) -> u64
    requires { width ≤ 32 }
    ensures { result ≡ bits_of width automaton.now.obligations }
{
    let mut bits = 0;
    for number in 0..automaton.len() {
        bits += 1 + u64::from(digits_of(automaton, width, number));
    }
    bits
}

/// How many bits of a place come before those of each obligation.
pub(crate) fn starts_of(
    alloc: Global,
    automaton: &Alternating,
    width: u32,
) -> Result<Numbers, NoMemory>
    requires { bits_of width automaton.now.obligations ≤ MOST_VARIABLES }
    ensures { IfOk result (λ starts. starts ≡ map (λ number. bits_of width (take number automaton.now.obligations))
        (range_with_len 0 (length automaton.now.obligations))) }
{
    let mut starts = Numbers::new(alloc);
    let mut bits = 0;
    for number in 0..automaton.len() {
        starts.push(bits)?;
        bits += 1 + digits_of(automaton, width, number);
    }
    Ok(starts)
}
