ghost use Rattle.std.specs.Prelude.{◌≡◌, ◌∷◌, ◌++◌, decimal, OnOk};
ghost use Rattle.vcd_writer.specs.Lines.{line};

use psl_base::{NoMemory, add_bytes, add_number};

/// Adds the line of a time at the end of a recording's text.
///
/// # Errors
/// `NoMemory` where the allocator refuses memory.
pub fn add_time(text: &mut Vec<u8>, time: u64) -> Result<(), NoMemory>
    ensures { OnOk result (text.new.items ≡ text.old.items ++ line (35 ∷ decimal time)) }
{
    add_bytes(text, b"#")?;
    add_number(text, time)?;
    add_bytes(text, b"\n")
}
