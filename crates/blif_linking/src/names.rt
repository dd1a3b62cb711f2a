// Sets of names.
ghost use Rattle.std.specs.Prelude.{◌≡◌, ◌<◌, not, length, map, IfOk, OnOk};
ghost use Rattle.blif_model.specs.Models.{with_name};
ghost use Rattle.blif_linking.specs.Interfaces.{is_one_of};
ghost use Rattle.blif_linking.specs.Sets.{gathered, text_at};

use blif_model::{NameTable, NoMemory};

// A name comes to others, where it is not there yet: whether it was new.
pub(crate) fn insert<'a>(names: &mut NameTable<'a>, name: &'a [u8]) -> Result<bool, NoMemory>
    ensures names { OnOk result (names.new ≡ with_name names.old name.now) }
    ensures fresh { IfOk result (λ fresh. fresh ≡ not (is_one_of names.old name.now)) }
{
    if names.find(name).is_some() {
        return Ok(false);
    }
    names.add(name)?;
    Ok(true)
}

// Whether a name is one of some names.
pub(crate) fn is_one_of(names: &NameTable, name: &[u8]) -> bool
    ensures { result ≡ is_one_of names.now name.now }
{
    names.find(name).is_some()
}

// The name of a number, an empty one past the last.
pub(crate) fn text_at<'a>(names: &NameTable<'a>, number: u32) -> &'a [u8]
    ensures { result.now ≡ text_at names.now number }
{
    let place = number as usize;
    if place < names.len() {
        return names.at(place);
    }
    &[]
}

// The names of numbers come to others.
pub(crate) fn insert_all<'a>(
    found: &mut NameTable<'a>,
    names: &NameTable<'a>,
    numbers: &[u32],
) -> Result<(), NoMemory>
    ensures { OnOk result (found.new ≡ gathered found.old (map (text_at names.now) numbers.now)) }
{
    for number in numbers {
        insert(found, text_at(names, *number))?;
    }
    Ok(())
}
