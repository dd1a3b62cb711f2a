// The order of texts that are read from their right ends.
ghost use Rattle.std.specs.Prelude.{◌≡◌, ◌⊎◌, length};
ghost use Rattle.psl_names.specs.Ends as spec;

use std::cmp::Ordering;

/// How two texts compare that are read from the right, each with a dot before its first byte.
pub fn compare_ends(first: &[u8], second: &[u8]) -> Ordering
    ensures { result ≡ spec.compare_ends first.now second.now }
{
    let mut first_rest = first;
    let mut second_rest = second;
    while let ([before_first @ .., x], [before_second @ .., y]) = (first_rest, second_rest) {
        if x != y {
            return x.cmp(y);
        }
        first_rest = before_first;
        second_rest = before_second;
    }
    compare_fronts(first_rest, second_rest)
}

// How two texts compare of which one is empty.
fn compare_fronts(first: &[u8], second: &[u8]) -> Ordering
    requires { (length first.now ≡ 0) ⊎ (length second.now ≡ 0) }
    ensures { result ≡ spec.compare_ends first.now second.now }
{
    last_or_dot(first)
        .cmp(&last_or_dot(second))
        .then(first.len().cmp(&second.len()))
}

// The last byte of a text, or the dot before it.
fn last_or_dot(text: &[u8]) -> u8
    ensures { result ≡ spec.last_or_dot text.now }
{
    match text {
        [.., last] => *last,
        [] => b'.',
    }
}
