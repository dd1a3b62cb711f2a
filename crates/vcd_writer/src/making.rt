ghost use Rattle.std.specs.Prelude.{◌≡◌, ◌∷◌, [], ◌++◌, IfOk, OnOk};
ghost use Rattle.vcd_writer.specs.Generator.{number_after, bit_16};
ghost use Rattle.vcd_writer.specs.Lines.{sample_lines, value_lines};
ghost use Rattle.vcd_writer.specs.Made.{made_codes, made_text};

use crate::lines::add_time;
use psl_base::{Bytes, NoMemory, add_bytes};
use std::alloc::Global;

const DEFINITIONS: &[u8] =
    b"$var wire 1 ! req $end\n$var wire 1 \" ack $end\n$enddefinitions $end\n";

/// The text of a recording (a value change dump, IEEE 1364, clause 18) of the signals `req` and `ack`, with
/// samples at the times 0, 1 and so on. With `x` the seed, and then each `x` the one before times 1103515245
/// and 12345 more, modulo 2^31: `req` at sample `i`, counted from 0, is bit 16 of the `x` number `i + 1`, and
/// `ack` is what `req` was at the sample before, 0 at sample 0.
///
/// # Errors
/// `NoMemory` where the allocator refuses memory.
pub fn make_recording(alloc: Global, seed: u32, samples: u32) -> Result<Bytes, NoMemory>
    ensures { IfOk result (λ text. text ≡ made_text seed samples) }
{
    let mut text = Vec::new(alloc);
    add_bytes(&mut text, DEFINITIONS)?;
    let mut number = seed;
    let mut answer = false;
    for sample in 0..samples {
        number = number_after(number);
        let request = bit_16(number);
        add_sample(&mut text, sample, request, answer)?;
        answer = request;
    }
    Ok(Bytes::from_vec(text))
}

/// The next number of the generator.
fn number_after(number: u32) -> u32
    ensures { result ≡ number_after number }
{
    ((number as u64 * 1_103_515_245 + 12_345) % 0x8000_0000) as u32
}

/// Bit 16 of a number.
fn bit_16(number: u32) -> bool
    ensures { result ≡ bit_16 number }
{
    (number / 0x1_0000) % 2 == 1
}

/// Adds the time of a sample and both values.
fn add_sample(text: &mut Vec<u8>, sample: u32, request: bool, answer: bool) -> Result<(), NoMemory>
    ensures { OnOk result (text.new.items ≡ text.old.items ++ sample_lines made_codes sample (request ∷ answer ∷ [])) }
{
    add_time(text, u64::from(sample))?;
    add_bytes(text, value_lines(request, answer))
}

/// The lines of a value of `req` and of one of `ack`.
fn value_lines(request: bool, answer: bool) -> &'static [u8]
    ensures { result.now ≡ value_lines made_codes (request ∷ answer ∷ []) }
{
    match (request, answer) {
        (false, false) => b"0!\n0\"\n",
        (false, true) => b"0!\n1\"\n",
        (true, false) => b"1!\n0\"\n",
        (true, true) => b"1!\n1\"\n",
    }
}
