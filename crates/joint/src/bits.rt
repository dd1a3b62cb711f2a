// Truth values from a place on, and the numbers of those that are true.
ghost use Rattle.std.specs.Prelude.{◌≡◌, ◌+◌, ◌≤◌, length, IfOk};
ghost use Rattle.joint.specs.Slices.{bits_from, count_from, numbers_from};

use joint_theory::Places;
use psl_base::{Bits, NoMemory};
use std::alloc::Global;

/// So many values from a place on.
pub(crate) fn read_bits(
    alloc: Global,
    values: &[bool],
    start: usize,
    count: u32,
) -> Result<Bits, NoMemory>
    requires { start + count ≤ length values.now }
    ensures { IfOk result (λ new. new ≡ bits_from values.now start count) }
{
    Bits::from_slice(alloc, &values[start..start + count as usize])
}

/// The numbers of those of so many values that are true.
pub(crate) fn read_numbers(
    alloc: Global,
    values: &[bool],
    start: usize,
    count: u32,
) -> Result<Places, NoMemory>
    requires { start + count ≤ length values.now }
    ensures { IfOk result (λ new. new ≡ numbers_from values.now start count) }
{
    let mut numbers = Places::new(alloc);
    for number in 0..count {
        if values[start + number as usize] {
            numbers.push(number)?;
        }
    }
    Ok(numbers)
}

/// How many of so many values are true.
pub(crate) fn read_count(values: &[bool], start: usize, count: u32) -> u32
    requires { start + count ≤ length values.now }
    ensures is { result ≡ count_from values.now start count }
    ensures few { result ≤ count }
{
    let mut found = 0;
    for number in 0..count {
        if values[start + number as usize] {
            found += 1;
        }
    }
    found
}
