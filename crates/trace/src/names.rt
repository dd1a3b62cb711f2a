ghost use Rattle.std.specs.Prelude.{◌≡◌, ◌<◌, length, replicate, All, IfOk};
ghost use Rattle.netlist.specs.Sound.{NamesBit};
ghost use Rattle.trace.specs.FirstPlaces.{TellsFirst};
ghost use Rattle.trace.specs.Trace.{first_text};

use psl_base::NoMemory;
use psl_tree::Name;
use std::alloc::Global;

/// By the number of a signal, the place of its first name; a place behind all names, where it has none.
///
/// # Errors
/// `NoMemory` where the allocator refuses memory.
pub fn first_places(alloc: Global, names: &[Name], signals: u32) -> Result<Vec<usize>, NoMemory>
    requires { All (NamesBit signals) names.now }
    ensures length { IfOk result (λ first. length first.items ≡ signals) }
    ensures first { IfOk result (λ first. TellsFirst names.now signals first.items) }
{
    let mut first = repeated(alloc, names.len(), signals)?;
    for place in (0..names.len()).rev() {
        first[names[place].signal as usize] = place;
    }
    Ok(first)
}

/// A number, so many times.
fn repeated(alloc: Global, number: usize, count: u32) -> Result<Vec<usize>, NoMemory>
    ensures { IfOk result (λ numbers. numbers.items ≡ replicate count number) }
{
    let numbers = vec![in alloc; number; count as usize]?;
    Ok(numbers)
}

/// The first name of a signal, by the places of the first names.
pub fn first_text<'a>(names: &'a [Name], first: &[usize], signal: u32) -> &'a [u8]
    requires signal { signal < length first.now }
    requires first { TellsFirst names.now (length first.now) first.now }
    ensures { result.now ≡ first_text names.now signal }
{
    match names.get(first[signal as usize]) {
        Some(name) => name.text.as_slice(),
        None => &[],
    }
}
