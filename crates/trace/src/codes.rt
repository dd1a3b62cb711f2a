ghost use Rattle.std.specs.Prelude.{◌≡◌, ◌++◌, length, OnOk};
ghost use Rattle.trace.specs.Codes.{code_of};

use psl_base::NoMemory;

/// Adds the code of a signal, by its number.
pub(crate) fn add_code(text: &mut Vec<u8>, number: u64) -> Result<(), NoMemory>
    ensures { OnOk result (text.new.items ≡ text.old.items ++ code_of number) }
{
    let mut rest = number;
    while rest >= 94 {
        text.push(33 + (rest % 94) as u8)?;
        rest /= 94;
    }
    text.push(33 + rest as u8)?;
    Ok(())
}

/// How many bytes the code of a signal has.
pub(crate) fn code_length(number: u32) -> u64
    ensures { result ≡ length (code_of number) }
{
    let mut rest = number;
    let mut digits = 1;
    while rest >= 94 {
        digits += 1;
        rest /= 94;
    }
    digits
}
