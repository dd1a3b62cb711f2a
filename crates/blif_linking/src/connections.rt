// Connections that do not fit the model that is placed.
ghost use Rattle.std.specs.Prelude.{◌≡◌, not, [], List, map, All, IfOk, None, Some};
ghost use Rattle.std.specs.Option.{option_map};
ghost use Rattle.blif_model.specs.FileKnown.{IsModelWithin, IsPlacementWithin, part_in, placing_in};
ghost use Rattle.blif_model.specs.Files.{Part};
ghost use Rattle.blif_model.specs.Models.{Model};
ghost use Rattle.blif_model.specs.Names.{place_of};
ghost use Rattle.blif_model.specs.Scanning.{IsWithin, word_of};
ghost use Rattle.blif_linking.specs.Bad.{IsReadAs, bad_after, bad_among, bad_for, bad_placing, given_by, lacks_one};
ghost use Rattle.blif_linking.specs.Interfaces.{is_one_of};
ghost use Rattle.blif_linking.specs.Names.{first_bad, first_some};
ghost use Rattle.blif_linking.specs.Offers.{interface_in};

use crate::interface::Interface;
use crate::library::Library;
use crate::links::link_of;
use crate::names::{insert, is_one_of};
use blif_model::{FileModel, FileText, NameTable, NoMemory, PlacementLine, Span, text_of};
use std::alloc::Global;

/// The word at which a `.subckt` first does not fit the model that it places: the name of the model, where one of its
/// inputs is not connected; or else a word that is no connection, or connects a name that the model does not offer, or
/// one that a word before it connects. The interfaces are those of the models.
///
/// # Errors
///
/// `NoMemory` if memory is refused.
pub fn first_bad(
    alloc: Global,
    whole: &[u8],
    text: &FileText,
    interfaces: &[Interface],
) -> Result<Option<Span>, NoMemory>
    requires within { All (IsModelWithin whole.now) text.now.models }
    requires offers { interfaces.now ≡ map (interface_in whole.now) text.now.models }
    ensures { (parts : List (Part Model)) → IsReadAs whole.now text.now parts
        → IfOk result (λ bad. option_map (word_of whole.now) bad ≡ first_bad parts) }
{
    let library = Library {
        whole,
        titles: &text.titles,
        interfaces,
    };
    bad_among(alloc, &library, text.models.as_slice())
}

fn bad_among(
    alloc: Global,
    library: &Library,
    models: &[FileModel],
) -> Result<Option<Span>, NoMemory>
    requires { All (IsModelWithin library.now.whole.now) models.now }
    ensures { IfOk result (λ bad. option_map (word_of library.now.whole.now) bad
        ≡ bad_among (place_of library.now.titles.now) library.now.interfaces.now (map (part_in library.now.whole.now) models.now)) }
{
    for model in models {
        if let Some(word) = bad_in(alloc, library, model.placements.as_slice())? {
            return Ok(Some(word));
        }
    }
    Ok(None)
}

fn bad_in(
    alloc: Global,
    library: &Library,
    lines: &[PlacementLine],
) -> Result<Option<Span>, NoMemory>
    requires { All (IsPlacementWithin library.now.whole.now) lines.now }
    ensures { IfOk result (λ bad. option_map (word_of library.now.whole.now) bad
        ≡ first_some (bad_placing (place_of library.now.titles.now) library.now.interfaces.now) (map (placing_in library.now.whole.now) lines.now)) }
{
    for line in lines {
        if let Some(word) = bad_placing(alloc, library, line)? {
            return Ok(Some(word));
        }
    }
    Ok(None)
}

fn bad_placing(
    alloc: Global,
    library: &Library,
    line: &PlacementLine,
) -> Result<Option<Span>, NoMemory>
    requires { IsPlacementWithin library.now.whole.now line.now }
    ensures { IfOk result (λ bad. option_map (word_of library.now.whole.now) bad
        ≡ bad_placing (place_of library.now.titles.now) library.now.interfaces.now (placing_in library.now.whole.now line.now)) }
{
    let [title, connections @ ..] = line.words.as_slice() else {
        return Ok(None);
    };
    match library.offered(*title) {
        Some(interface) => bad_for(alloc, library.whole, interface, *title, connections),
        None => Ok(None),
    }
}

// What is wrong with the connections of a model.
fn bad_for(
    alloc: Global,
    whole: &[u8],
    interface: &Interface,
    title: Span,
    words: &[Span],
) -> Result<Option<Span>, NoMemory>
    requires { All (IsWithin whole.now) words.now }
    ensures { IfOk result (λ bad. option_map (word_of whole.now) bad
        ≡ bad_for interface.now (Some (word_of whole.now title)) (map (word_of whole.now) words.now)) }
{
    let given = given_by(alloc, whole, words)?;
    if lacks_one(&given, &interface.inputs) {
        return Ok(Some(title));
    }
    bad_after(alloc, whole, interface, words)
}

// The formals that words connect.
fn given_by<'a>(alloc: Global, whole: &'a [u8], words: &[Span]) -> Result<NameTable<'a>, NoMemory>
    requires { All (IsWithin whole.now) words.now }
    ensures { IfOk result (λ given. given ≡ given_by [] (map (word_of whole.now) words.now)) }
{
    let mut given = NameTable::new(alloc);
    for word in words {
        if let Some(link) = link_of(text_of(whole, *word)) {
            insert(&mut given, link.formal)?;
        }
    }
    Ok(given)
}

// Whether some input is not among the formals that are connected. As each input stands just once among the inputs, no
// more are looked at than are connected, and one.
fn lacks_one(given: &NameTable, inputs: &NameTable) -> bool
    ensures { result ≡ lacks_one given.now inputs.now }
{
    for number in 0..inputs.len() {
        if lacks(given, inputs.at(number)) {
            return true;
        }
    }
    false
}

// Whether a name is not among the formals that are connected.
fn lacks(given: &NameTable, name: &[u8]) -> bool
    ensures { result ≡ not (is_one_of given.now name.now) }
{
    !is_one_of(given, name)
}

// The first word that does not fit, where no input is missing.
fn bad_after(
    alloc: Global,
    whole: &[u8],
    interface: &Interface,
    words: &[Span],
) -> Result<Option<Span>, NoMemory>
    requires { All (IsWithin whole.now) words.now }
    ensures { IfOk result (λ bad. option_map (word_of whole.now) bad
        ≡ bad_after interface.now [] (map (word_of whole.now) words.now)) }
{
    let mut given = NameTable::new(alloc);
    for word in words {
        let Some(link) = link_of(text_of(whole, *word)) else {
            return Ok(Some(*word));
        };
        if interface.role_of(link.formal).is_none() {
            return Ok(Some(*word));
        }
        let fresh = insert(&mut given, link.formal)?;
        if !fresh {
            return Ok(Some(*word));
        }
    }
    Ok(None)
}
