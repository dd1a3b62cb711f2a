ghost use Rattle.std.specs.Prelude.{◌≡◌, ◌≢◌, ◌^◌, ◌<◌, ◌≤◌, None, length, IfOk, IsErrOf};
ghost use Rattle.psl_base.specs.Faults.{Rose};
ghost use Rattle.psl_base.specs.Shelf.{OnlyReads, IsContent, IsLonger, OfSelected, Tells, HasTaken, ReadingFails, SelectsNoOther};
ghost use Rattle.psl_base.specs.declared.reading.ReadAllFault.TheVariants.{ReadFault, TooLong, NoMemory as MemoryFault};

use crate::{Bytes, Failed, Shelf};
use std::alloc::{AllocError, Global};
use thiserror::Error;

/// Why a content was not read whole.
#[derive(Clone, Copy, Debug, PartialEq, Eq, Error)]
pub enum ReadAllFault {
    /// The shelf failed and has counted the fault, or it tells that the name is not there.
    #[error("the file cannot be read")]
    ReadFault,

    /// The content is longer than the limit.
    #[error("the file is too long")]
    TooLong,

    /// The allocator refused memory.
    #[error("out of memory")]
    NoMemory,
}

impl From<Failed> for ReadAllFault {
    ghost from_gives = { λ _ fault. fault ≡ ReadFault };

    fn from(_failed: Failed) -> ReadAllFault {
        ReadAllFault::ReadFault
    }
}

impl From<AllocError> for ReadAllFault {
    ghost from_gives = { λ _ fault. fault ≡ MemoryFault };

    fn from(_refused: AllocError) -> ReadAllFault {
        ReadAllFault::NoMemory
    }
}

/// How many bytes are asked of a shelf at once.
const PIECE: usize = 65_536;

/// The whole content of a name, which may have as many bytes as the limit and no more.
pub fn read_all<S: Shelf>(
    alloc: Global,
    shelf: &mut S,
    name: &str,
    limit: u64,
) -> Result<Bytes, ReadAllFault>
    requires { limit < 2 ^ 62 }

    ensures whole { IfOk result (λ bytes. IsContent (S.state shelf.old) name.now bytes) }
    ensures within { IfOk result (λ bytes. length bytes ≤ limit) }

    // The content is longer than the limit, and so many bytes of it were taken.
    ensures longer { IsErrOf result ReadAllFault.TooLong → IsLonger limit (S.state shelf.old) name.now }
    ensures taken { IsErrOf result ReadAllFault.TooLong → HasTaken limit name.now (S.state shelf.new) }

    ensures failed { IsErrOf result ReadAllFault.ReadFault → ReadingFails name.now (S.state shelf.old) (S.state shelf.new) }
    ensures absent { Tells (S.state shelf.old) name.now None → IsErrOf result ReadAllFault.ReadFault }
    ensures last { IsErrOf result ReadAllFault.ReadFault → SelectsNoOther name.now (S.state shelf.new) }
    ensures counted { (S.state shelf.old).read_faults < (S.state shelf.new).read_faults → IsErrOf result ReadAllFault.ReadFault }

    ensures rest { OnlyReads (S.state shelf.old) (S.state shelf.new) }
{
    shelf.select(name)?;
    let mut buffer = Vec::new(alloc);
    buffer.resize(PIECE, 0)?;
    read_rest(alloc, shelf, buffer.as_mut_slice(), limit)
}

/// What is left of the selected name, of which nothing was read yet, piece by piece.
fn read_rest<S: Shelf>(
    alloc: Global,
    shelf: &mut S,
    buffer: &mut [u8],
    limit: u64,
) -> Result<Bytes, ReadAllFault>
    requires selected { (S.state shelf.old).selected ≢ None }
    requires front { (S.state shelf.old).cursor ≡ 0 }
    requires room { 0 < length buffer.old }
    requires small { length buffer.old < 2 ^ 62 }
    requires limit { limit < 2 ^ 62 }

    ensures whole { IfOk result (λ bytes. OfSelected (S.state shelf.old) (λ content. content ≡ bytes)) }
    ensures within { IfOk result (λ bytes. length bytes ≤ limit) }
    ensures longer { IsErrOf result ReadAllFault.TooLong → OfSelected (S.state shelf.old) (λ content. limit < length content) }
    ensures taken { IsErrOf result ReadAllFault.TooLong → limit < (S.state shelf.new).cursor }
    ensures selected { (S.state shelf.new).selected ≡ (S.state shelf.old).selected }
    ensures failed { IsErrOf result ReadAllFault.ReadFault → Rose (S.state shelf.old).read_faults (S.state shelf.new).read_faults }
    ensures counted { (S.state shelf.old).read_faults < (S.state shelf.new).read_faults → IsErrOf result ReadAllFault.ReadFault }
    ensures rest { OnlyReads (S.state shelf.old) (S.state shelf.new) }
{
    let mut bytes = Vec::new(alloc);
    loop {
        let count = shelf.read(buffer)?;
        if count == 0 {
            return Ok(Bytes::from_vec(bytes));
        }
        if count as u64 > limit - bytes.len() as u64 {
            return Err(ReadAllFault::TooLong);
        }
        bytes.extend_from_slice(&buffer[..count])?;
    }
}
