// What connections drive.
ghost use Rattle.std.specs.Prelude.{◌≡◌, ℕ, [], List, map, All, IfNone, IfOk, OnOk, false, slice_index_or};
ghost use Rattle.std.specs.Option.{option_map};
ghost use Rattle.blif_model.specs.FileKnown.{IsModelWithin, IsPlacementWithin, part_in, placing_in};
ghost use Rattle.blif_model.specs.Files.{Part};
ghost use Rattle.blif_model.specs.Models.{Model};
ghost use Rattle.blif_model.specs.Names.{place_of};
ghost use Rattle.blif_model.specs.Scanning.{word_of};
ghost use Rattle.blif_linking.specs.Actuals.{actual_in, at_place};
ghost use Rattle.blif_linking.specs.Bad.{IsReadAs};
ghost use Rattle.blif_linking.specs.Driving.{found_by, found_in, lines_drive, twice_among, twice_by, twice_in};
ghost use Rattle.blif_linking.specs.Names.{first_driven};
ghost use Rattle.blif_linking.specs.Offers.{interface_in};

use crate::actuals::{Actual, actuals_at};
use crate::interface::Interface;
use crate::library::Library;
use crate::names::insert;
use blif_model::{FileModel, FileText, NameTable, NoMemory, OwnText, PlacementLine, Span};
use std::alloc::Global;

/// The first connection of an output whose actual a line of its model drives, or a connection before it. The interfaces
/// are those of the models.
///
/// # Errors
///
/// `NoMemory` if memory is refused.
pub fn first_driven(
    alloc: Global,
    whole: &[u8],
    text: &FileText,
    interfaces: &[Interface],
) -> Result<Option<Span>, NoMemory>
    requires within { All (IsModelWithin whole.now) text.now.models }
    requires offers { interfaces.now ≡ map (interface_in whole.now) text.now.models }
    ensures { (parts : List (Part Model)) → IsReadAs whole.now text.now parts
        → IfOk result (λ found. option_map (λ word. (word_of whole.now word).place) found
        ≡ option_map (λ word. word.place) (first_driven parts)) }
{
    let library = Library {
        whole,
        titles: &text.titles,
        interfaces,
    };
    twice_among(alloc, &library, text.models.as_slice())
}

fn twice_among(
    alloc: Global,
    library: &Library,
    models: &[FileModel],
) -> Result<Option<Span>, NoMemory>
    requires { All (IsModelWithin library.now.whole.now) models.now }
    ensures { IfOk result (λ found. at_place (option_map (word_of library.now.whole.now) found)
        ≡ twice_among (place_of library.now.titles.now) library.now.interfaces.now (map (part_in library.now.whole.now) models.now)) }
{
    for model in models {
        let lines = model.placements.as_slice();
        if let Some(word) = twice_in(alloc, library, &model.own, lines)? {
            return Ok(Some(word));
        }
    }
    Ok(None)
}

fn twice_in(
    alloc: Global,
    library: &Library,
    own: &OwnText,
    lines: &[PlacementLine],
) -> Result<Option<Span>, NoMemory>
    requires { All (IsPlacementWithin library.now.whole.now) lines.now }
    ensures { IfOk result (λ word. at_place (option_map (word_of library.now.whole.now) word)
        ≡ twice_in own.now.text.names own.now.driven (place_of library.now.titles.now) library.now.interfaces.now []
        (map (placing_in library.now.whole.now) lines.now)) }
{
    let mut found = NameTable::new(alloc);
    for line in lines {
        let actuals = actuals_at(alloc, library, line)?;
        if let Some(word) = twice_by(own, &mut found, &actuals)? {
            return Ok(Some(word));
        }
    }
    Ok(None)
}

// Where no connection is at fault, what they drive is found too.
fn twice_by<'a>(
    own: &OwnText,
    found: &mut NameTable<'a>,
    actuals: &[Actual<'a>],
) -> Result<Option<Span>, NoMemory>
    ensures word { (whole : List ℕ) → IfOk result (λ word. at_place (option_map (word_of whole) word)
        ≡ twice_by own.now.text.names own.now.driven found.old (map (actual_in whole) actuals.now)) }
    ensures found { (whole : List ℕ) → IfOk result (λ word. IfNone word (found.new ≡ found_by found.old (map (actual_in whole) actuals.now))) }
{
    for actual in actuals {
        if actual.drives {
            if lines_drive(own, actual.name) {
                return Ok(Some(actual.word));
            }
            let fresh = insert(found, actual.name)?;
            if !fresh {
                return Ok(Some(actual.word));
            }
        }
    }
    Ok(None)
}

/// The names that connections drive, each once.
pub(crate) fn found_in<'a>(
    alloc: Global,
    library: &Library<'_, 'a, '_, '_>,
    lines: &[PlacementLine],
) -> Result<NameTable<'a>, NoMemory>
    requires { All (IsPlacementWithin library.now.whole.now) lines.now }
    ensures { IfOk result (λ found. found ≡ found_in (place_of library.now.titles.now) library.now.interfaces.now []
        (map (placing_in library.now.whole.now) lines.now)) }
{
    let mut found = NameTable::new(alloc);
    for line in lines {
        let actuals = actuals_at(alloc, library, line)?;
        found_by(&mut found, &actuals)?;
    }
    Ok(found)
}

fn found_by<'a>(found: &mut NameTable<'a>, actuals: &[Actual<'a>]) -> Result<(), NoMemory>
    ensures { (whole : List ℕ) → OnOk result (found.new ≡ found_by found.old (map (actual_in whole) actuals.now)) }
{
    for actual in actuals {
        if actual.drives {
            insert(found, actual.name)?;
        }
    }
    Ok(())
}

/// Whether a line of a model drives a name.
pub(crate) fn lines_drive(own: &OwnText, name: &[u8]) -> bool
    ensures { result ≡ lines_drive own.now.text.names own.now.driven name.now }
{
    match own.text.names.find(name) {
        Some(number) => flag_at(own.driven.as_slice(), number),
        None => false,
    }
}

// A flag of a list, false past its end.
pub(crate) fn flag_at(flags: &[bool], number: usize) -> bool
    ensures { result ≡ slice_index_or flags.now number false }
{
    match flags.get(number) {
        Some(flag) => *flag,
        None => false,
    }
}
