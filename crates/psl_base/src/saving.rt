// Files that are written, one after the other.
ghost use Rattle.std.specs.Prelude.{◌≡◌, [], map, OnErr, OnOk};
ghost use Rattle.psl_base.specs.Shelf.{OnlyWrites};
ghost use Rattle.psl_base.specs.Saves.{SavesAll, SavesOne, SavesPart, SavesPartOfOne, file_of};

use crate::items::{Bytes, Items};
use crate::outside::{Failed, Shelf};

/// A file that is to be written: its name and its whole content.
#[derive(Debug, Drop)]
pub struct Save {
    pub name: String,
    pub content: Bytes,
}

/// Files that are to be written, in order.
pub type Saves = Items<Save>;

/// Writes files in order, each whole. It takes no memory.
///
/// # Errors
///
/// `Failed` where a call of the shelf failed: the files before are whole, that one may hold its first bytes, and those
/// behind are as they were.
pub fn save_all<F: Shelf>(files: &mut F, saves: &[Save]) -> Result<(), Failed>
    ensures ok { OnOk result (SavesAll (map file_of saves.now) (F.state files.old) (F.state files.new)) }
    ensures failed { OnErr result (SavesPart (map file_of saves.now) (F.state files.old) (F.state files.new)) }
    ensures rest { OnlyWrites (F.state files.old) (F.state files.new) }
    ensures none { saves.now ≡ [] → F.state files.new ≡ F.state files.old }
{
    for save in saves {
        save_one(files, save)?;
    }
    Ok(())
}

fn save_one<F: Shelf>(files: &mut F, save: &Save) -> Result<(), Failed>
    ensures ok { OnOk result (SavesOne (file_of save.now) (F.state files.old) (F.state files.new)) }
    ensures failed { OnErr result (SavesPartOfOne (file_of save.now) (F.state files.old) (F.state files.new)) }
    ensures rest { OnlyWrites (F.state files.old) (F.state files.new) }
{
    let content = save.content.as_slice();
    files.create(save.name.as_str())?;
    let mut done = 0;
    while done < content.len() {
        done += files.append(&content[done..])?;
    }
    Ok(())
}
