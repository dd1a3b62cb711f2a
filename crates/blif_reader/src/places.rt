// Where bytes of a text stand.
ghost use Rattle.std.specs.Prelude.{◌≡◌, ◌≤◌, length, slice_index};
ghost use Rattle.psl_base.specs.Places.{file_limit, place_at};

use psl_base::{Place, place_of};

/// The place of the byte before which so many stand; past the end of the text that of its end.
pub(crate) fn place_at(bytes: &[u8], at: u32) -> Place
    requires { length bytes.now ≤ file_limit }
    ensures { result ≡ place_at bytes.now at }
{
    place_of(bytes, (at as usize).min(bytes.len()))
}

/// A number of a list, 0 past its end.
pub(crate) fn number_at(numbers: &[u32], number: usize) -> u32
    ensures { result ≡ slice_index numbers.now number }
{
    match numbers.get(number) {
        Some(found) => *found,
        None => 0,
    }
}
