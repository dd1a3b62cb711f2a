// Bits that are not set.
ghost use Rattle.std.specs.Prelude.{◌≡◌, false, replicate, IfOk};

use psl_base::{Bits, NoMemory};
use std::alloc::Global;

/// So many bits that are 0.
///
/// # Errors
///
/// `NoMemory` if memory is refused.
pub fn no_bits(alloc: Global, count: u32) -> Result<Bits, NoMemory>
    ensures { IfOk result (λ bits. bits ≡ replicate count false) }
{
    let mut bits = Bits::new(alloc);
    for _ in 0..count {
        bits.push(false)?;
    }
    Ok(bits)
}
