// Numbers of obligations, and bits that say which are listed.
ghost use Rattle.std.specs.Prelude.{◌≡◌, ◌<◌, ◌&&◌, ◌||◌, ℕ, filter, length, All, IfOk};
ghost use Rattle.std.specs.List.{range_with_len};
ghost use Rattle.joint_theory.specs.States.{is_accepting, is_listed, not_accepting};
ghost use Rattle.netlist.specs.Valuations.{bit};

use alternating::Alternating;
use joint_theory::Places;
use prover_held::no_bits;
use psl_base::{Bits, NoMemory};
use std::alloc::Global;

/// The numbers of so many obligations.
pub(crate) fn all_numbers(alloc: Global, count: u32) -> Result<Places, NoMemory>
    ensures { IfOk result (λ numbers. numbers ≡ range_with_len 0 count) }
{
    let mut numbers = Places::new(alloc);
    for number in 0..count {
        numbers.push(number)?;
    }
    Ok(numbers)
}

/// The numbers whose bits are 1.
pub(crate) fn chosen(alloc: Global, numbers: &[u32], bits: &[bool]) -> Result<Places, NoMemory>
    requires { All (λ number. number < length bits.now) numbers.now }
    ensures { IfOk result (λ found. found ≡ filter (bit bits.now) numbers.now) }
{
    let mut found = Places::new(alloc);
    for number in numbers {
        if bits[*number as usize] {
            found.push(*number)?;
        }
    }
    Ok(found)
}

/// The obligations that are not accepting.
pub(crate) fn put_off(
    alloc: Global,
    automaton: &Alternating,
    numbers: &[u32],
) -> Result<Places, NoMemory>
    requires { All (λ number. number < length automaton.now.obligations) numbers.now }
    ensures { IfOk result (λ found. found ≡ not_accepting automaton.now numbers.now) }
{
    let mut found = Places::new(alloc);
    for number in numbers {
        if !automaton.accepting(*number) {
            found.push(*number)?;
        }
    }
    Ok(found)
}

/// A bit for each of so many numbers: whether it is listed.
pub(crate) fn marks_of(alloc: Global, count: u32, numbers: &[u32]) -> Result<Bits, NoMemory>
    requires { All (λ number. number < count) numbers.now }
    ensures long { IfOk result (λ marks. length marks ≡ count) }
    ensures each { IfOk result (λ marks. (number : ℕ) → bit marks number ≡ is_listed numbers.now number) }
{
    let mut marks = no_bits(alloc, count)?;
    for number in numbers {
        marks.set(*number as usize, true);
    }
    Ok(marks)
}

/// A bit for each obligation: whether it may meet what is pending, since it is owed and accepting, or owed and
/// pending.
pub(crate) fn meeting_marks(
    alloc: Global,
    automaton: &Alternating,
    owed: &[bool],
    pending: &[bool],
) -> Result<Bits, NoMemory>
    requires owed { length owed.now ≡ length automaton.now.obligations }
    requires pending { length pending.now ≡ length automaton.now.obligations }
    ensures long { IfOk result (λ marks. length marks ≡ length automaton.now.obligations) }
    ensures each { IfOk result (λ marks. (number : ℕ) → number < length automaton.now.obligations → bit marks number
        ≡ (bit owed.now number && (is_accepting automaton.now number || bit pending.now number))) }
{
    let mut marks = Bits::new(alloc);
    for number in 0..automaton.len() {
        let place = number as usize;
        marks.push(owed[place] && (automaton.accepting(number) || pending[place]))?;
    }
    Ok(marks)
}
