ghost use Rattle.std.specs.Prelude.{◌≡◌, ◌<◌, ◌≤◌, ◌^◌, length, None, Ok, IfOk, IfErr, IsErrOf, IsOk};
ghost use Rattle.psl_base.specs.Places.{file_limit};
ghost use Rattle.psl_base.specs.Shelf.{OnlyReads, IsLonger, Tells, HasTaken, ReadingFails, SelectsNoOther};
ghost use Rattle.vcd_reader.specs.Meaning.{reading};
ghost use Rattle.vcd_reader.specs.Rows.{kept_as, IsSound};
ghost use Rattle.vcd_reader.specs.Told.{Says, IsFirstFault, IsReadFault};
ghost use Rattle.vcd_reader.specs.declared.unknown.Unknown.{Unknown};

use crate::body::Body;
use crate::definitions::Definitions;
use crate::recording::Parts;
use crate::{Recording, Unknown, VcdFault};
use psl_base::{Bytes, Cursor, FILE_LIMIT, NoMemory, Shelf, read_all};
use std::alloc::Global;

/// The recording that a file holds, a value change dump (IEEE 1364, clause 18). It has one sample for
/// each distinct time that the file lists, in order, and at it of each signal the last change before the
/// next higher time. Bits that are unknown read as `unknown` says; which they are can still be asked of the
/// recording. A file at fault is refused with its first fault; of several at one token the one that stands
/// first in `VcdFault` is named.
pub fn read_vcd<S: Shelf>(
    alloc: Global,
    shelf: &mut S,
    name: &str,
    unknown: Unknown,
) -> Result<Recording, VcdFault>
    ensures sampled { IfOk result (λ recording. Says unknown (S.state shelf.old) name.now (Ok recording)) }
    ensures fault { IfErr result (λ fault. IsFirstFault unknown (S.state shelf.old) name.now fault) }

    // The content is longer than a file may be, and so many bytes of it were taken.
    ensures longer { IsErrOf result VcdFault.TooLong → IsLonger file_limit (S.state shelf.old) name.now }
    ensures taken { IsErrOf result VcdFault.TooLong → HasTaken file_limit name.now (S.state shelf.new) }

    ensures failed { IsErrOf result VcdFault.ReadFault → ReadingFails name.now (S.state shelf.old) (S.state shelf.new) }
    ensures absent { Tells (S.state shelf.old) name.now None → IsErrOf result VcdFault.ReadFault }
    ensures last { IsErrOf result VcdFault.ReadFault → SelectsNoOther name.now (S.state shelf.new) }

    // A count that rose comes with a fault of reading.
    ensures counted { (S.state shelf.old).read_faults < (S.state shelf.new).read_faults → IsErrOf result VcdFault.ReadFault }

    ensures rest { OnlyReads (S.state shelf.old) (S.state shelf.new) }
{
    let bytes = read_all(alloc, shelf, name, FILE_LIMIT)?;
    read_bytes(alloc, bytes, unknown)
}

/// The recording that bytes say which are in memory, as `read_vcd` reads those of a file. The recording keeps them, and they
/// are not copied.
///
/// # Errors
/// The first fault of the text, and `NoMemory` where the allocator refuses memory.
pub fn read_bytes(alloc: Global, bytes: Bytes, unknown: Unknown) -> Result<Recording, VcdFault>
    requires { length bytes ≤ file_limit }
    ensures ok { IfOk result (λ recording. reading unknown bytes ≡ Ok recording) }
    ensures err { IfErr result (λ fault. IsReadFault unknown bytes fault) }
{
    let parts = read_parts(alloc, bytes.as_slice())?;
    Ok(Recording::of(bytes, parts, unknown))
}

/// The recording that bytes say of which it is known that they have no fault, such as those that a writer of recordings made.
///
/// # Errors
/// `NoMemory` where the allocator refuses memory.
pub fn read_faultless(alloc: Global, bytes: Bytes, unknown: Unknown) -> Result<Recording, NoMemory>
    requires short { length bytes ≤ file_limit }
    requires faultless { IsOk (reading unknown bytes) }
    ensures { IfOk result (λ recording. reading unknown bytes ≡ Ok recording) }
{
    match read_bytes(alloc, bytes, unknown) {
        Ok(recording) => Ok(recording),
        Err(VcdFault::NoMemory) => Err(NoMemory),
        Err(_) => unreachable!(),
    }
}

/// What the bytes say, apart from themselves.
fn read_parts(alloc: Global, bytes: &[u8]) -> Result<Parts, VcdFault>
    requires { length bytes.now ≤ file_limit }
    ensures ok { IfOk result (λ parts. (unknown : Unknown) → reading unknown bytes.now ≡ Ok (kept_as parts.names bytes.now parts.samples parts.changes.items parts.starts.items unknown)) }
    ensures sound { IfOk result (λ parts. IsSound parts.names bytes.now parts.samples parts.changes.items parts.starts.items) }
    ensures err { IfErr result (λ fault. (unknown : Unknown) → IsReadFault unknown bytes.now fault) }
{
    let mut cursor = Cursor::new(bytes);
    let found = Definitions::read(alloc, &mut cursor)?;
    let body = Body::read(alloc, &found, &mut cursor)?;
    let (changes, starts, samples) = body.into_parts();
    Ok(Parts {
        names: found.into_names(),
        changes,
        starts,
        samples,
    })
}
