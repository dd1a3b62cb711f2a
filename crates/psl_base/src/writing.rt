ghost use Rattle.std.specs.Prelude.{◌≡◌, ◌≤◌, ◌++◌, length, drop, decimal, OnOk, OnErr};
ghost use Rattle.psl_base.specs.Sink.{AddsAll, AddsPart};

use crate::{Failed, NoMemory, Sink};
use itoa::Buffer;

/// Adds bytes at the end of a text.
///
/// # Errors
/// `NoMemory` where the allocator refuses memory. The text is then as it was.
pub fn add_bytes(text: &mut Vec<u8>, piece: &[u8]) -> Result<(), NoMemory>
    ensures ok { OnOk result (text.new.items ≡ text.old.items ++ piece.now) }
    ensures err { OnErr result (text.new.items ≡ text.old.items) }
{
    text.extend_from_slice(piece)?;
    Ok(())
}

/// Adds a number in decimal digits at the end of a text.
///
/// # Errors
/// `NoMemory` where the allocator refuses memory. The text is then as it was.
pub fn add_number(text: &mut Vec<u8>, number: u64) -> Result<(), NoMemory>
    ensures ok { OnOk result (text.new.items ≡ text.old.items ++ decimal number) }
    ensures err { OnErr result (text.new.items ≡ text.old.items) }
{
    add_bytes(text, Buffer::new().format(number).as_bytes())
}

/// Adds all bytes to a sink, however many it takes at a time. After a failure it has the first of
/// them and not all. It takes no memory.
pub fn put_all<S: Sink>(sink: &mut S, bytes: &[u8]) -> Result<(), Failed>
    ensures all { OnOk result (AddsAll bytes.now (S.state sink.old) (S.state sink.new)) }
    ensures part { OnErr result (AddsPart bytes.now (S.state sink.old) (S.state sink.new)) }
{
    let mut done = 0;
    while done < bytes.len() {
        done += sink.put(from_place(bytes, done))?;
    }
    Ok(())
}

/// The bytes from a place on, counted from 0.
fn from_place(bytes: &[u8], place: usize) -> &[u8]
    requires { place ≤ length bytes.now }
    ensures { result.now ≡ drop place bytes.now }
{
    &bytes[place..]
}
