ghost use Rattle.std.specs.Prelude.{◌≡◌, ◌⊎◌, ◌≤◌, length, All, Err, IfOk, IfErr};
ghost use Rattle.psl_base.specs.Places.{file_limit};
ghost use Rattle.blif_model.specs.FileKnown.{AreSaidOf, file_running, FileSays, IsModelWithin, no_file_known};
ghost use Rattle.blif_model.specs.Files.{models_of};
ghost use Rattle.blif_model.specs.Lines.{lines};

use crate::BlifFault;
use crate::file::FileText;
use crate::file_reader::FileReader;
use crate::pieces::{Pieces, Taken};
use psl_base::place_of;
use std::alloc::Global;

/// What a text of several models says: of each its name, its own lines with numbers in place of their names, and the
/// words of what is placed in it. A text with a fault in a line is refused with the first one; of several at one word the
/// one that stands first in `BlifFault` is named. What models say of each other, and whether names are driven, is not
/// asked.
pub fn read_models<'a>(alloc: Global, whole: &'a [u8]) -> Result<FileText<'a>, BlifFault>
    requires { length whole.now ≤ file_limit }
    ensures says { IfOk result (FileSays whole.now) }
    ensures within { IfOk result (λ text. All (IsModelWithin whole.now) text.models) }
    ensures fault { IfErr result (λ fault. (fault ≡ BlifFault.NoMemory) ⊎ (models_of whole.now ≡ Err fault)) }
{
    read_file_lines(alloc, whole)
}

/// What the lines of a text say, one by one.
fn read_file_lines<'a>(alloc: Global, whole: &'a [u8]) -> Result<FileText<'a>, BlifFault>
    requires { length whole.now ≤ file_limit }
    ensures says { IfOk result (AreSaidOf whole.now (file_running (no_file_known whole.now) (lines whole.now))) }
    ensures within { IfOk result (λ text. All (IsModelWithin whole.now) text.models) }
    ensures fault { IfErr result (λ fault. (fault ≡ BlifFault.NoMemory) ⊎ (file_running (no_file_known whole.now) (lines whole.now) ≡ Err fault)) }
{
    let mut pieces = Pieces::new(whole);
    let mut words = Vec::new(alloc);
    let mut reader = FileReader::new(alloc, whole);
    loop {
        match pieces.next_line(&mut words)? {
            Taken::Line => reader = reader.take(alloc, &words)?,
            Taken::Stray(at) => {
                let _ = reader.take(alloc, &words)?;
                return Err(BlifFault::MissingEnd(place_of(whole, at as usize)));
            }
            Taken::Nothing => return Ok(reader.finish(alloc)?),
        }
    }
}
