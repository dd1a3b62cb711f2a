// The models of a text by numbers.
ghost use Rattle.std.specs.Prelude.{◌≡◌, ℕ, ◌<◌, ◌^◌, ◌++◌, [], List, length, map, take, drop, All, IfOk, IfSome, OnOk, slice_get, slice_index, slice_index_or};
ghost use Rattle.std.specs.Option.{option_map, option_to_list, unwrap_or};
ghost use Rattle.std.specs.Vec.Iter.{into_iter_items};
ghost use Rattle.blif_model.specs.FileKnown.{IsModelWithin, IsPlacementWithin, part_in, placing_in};
ghost use Rattle.blif_model.specs.Files.{Part};
ghost use Rattle.blif_model.specs.Models.{Model as PartModel};
ghost use Rattle.blif_model.specs.Names.{place_of};
ghost use Rattle.blif_model.specs.Scanning.{IsWithin, word_of};
ghost use Rattle.blif_linking.specs.Bad.{IsReadAs};
ghost use Rattle.blif_linking.specs.Linked.{linked, linked_texts};
ghost use Rattle.blif_linking.specs.Links.{link_of};
ghost use Rattle.blif_linking.specs.Numbering.{AreSmall, joined_by, joined_for, joined_one, number_in, numbered_among, numbered_within, placement_in, renumbered, woven};
ghost use Rattle.blif_linking.specs.Offers.{interface_in};

use crate::interface::Interface;
use crate::library::Library;
use crate::links::link_of;
use crate::role::Role;
use blif_flattening::{Connection, Item, Model, Placement};
use blif_model::{
    FileModel, FileModels, FileText, ModelLine, ModelText, NameTable, NoMemory, OwnText,
    PlacementLine, Span, text_of,
};
use psl_base::{Items, Numbers};
use std::alloc::Global;
use std::vec::IntoIter;

/// The models of a text by numbers: each name is its place among the names of its model, and each model its place in the
/// text. The rows of tables are moved. The interfaces and the names are those of the models.
///
/// # Errors
///
/// `NoMemory` if memory is refused.
pub(crate) fn link_models(
    alloc: Global,
    whole: &[u8],
    text: FileText,
    interfaces: &[Interface],
    texts: &Items<NameTable>,
) -> Result<Items<Model<ModelLine>>, NoMemory>
    requires within { All (IsModelWithin whole.now) text.models }
    requires offers { interfaces.now ≡ map (interface_in whole.now) text.models }
    requires titles { AreSmall text.titles }
    requires few { All (λ names. length names < 2 ^ 32) texts.now }
    ensures { (parts : List (Part PartModel)) → IsReadAs whole.now text.entry parts → texts.now ≡ linked_texts parts
        → IfOk result (λ models. models ≡ linked parts) }
{
    let FileText { titles, models } = text;
    let library = Library {
        whole,
        titles: &titles,
        interfaces,
    };
    numbered_among(alloc, &library, texts, models)
}

fn numbered_among(
    alloc: Global,
    library: &Library,
    texts: &Items<NameTable>,
    models: FileModels,
) -> Result<Items<Model<ModelLine>>, NoMemory>
    requires within { All (IsModelWithin library.now.whole.now) models }
    requires titles { AreSmall library.now.titles.now }
    requires few { All (λ names. length names < 2 ^ 32) texts.now }
    ensures { IfOk result (λ linked. linked ≡ numbered_among (place_of library.now.titles.now) library.now.interfaces.now
        texts.now texts.now (map (part_in library.now.whole.now) models.entry)) }
{
    let mut linked = Items::new(alloc);
    let mut number = 0usize;
    let mut rest = models.into_vec().into_iter();
    while let Some(model) = rest.next() {
        if number >= texts.len() {
            return Ok(linked);
        }
        let names = texts.at(number);
        linked.push(numbered_within(alloc, library, texts, names, model)?)?;
        number += 1;
    }
    Ok(linked)
}

fn numbered_within(
    alloc: Global,
    library: &Library,
    texts: &Items<NameTable>,
    names: &NameTable,
    model: FileModel,
) -> Result<Model<ModelLine>, NoMemory>
    requires within { IsModelWithin library.now.whole.now model }
    requires titles { AreSmall library.now.titles.now }
    requires few { All (λ names. length names < 2 ^ 32) texts.now }
    requires names { length names.now < 2 ^ 32 }
    ensures { IfOk result (λ linked. linked ≡ numbered_within (place_of library.now.titles.now) library.now.interfaces.now
        texts.now names.now (part_in library.now.whole.now model.entry)) }
{
    let FileModel {
        own,
        placements,
        ..
    } = model;
    let OwnText { text, .. } = own;
    let ModelText {
        names: own_names,
        model,
    } = text;
    let lines = placements.as_slice();
    let placed = placements_in(alloc, library, texts, names, lines)?;
    let numbers = numbers_in(alloc, names, &own_names)?;
    let items = woven(alloc, &numbers, model.items, lines, placed)?;
    Ok(Model {
        names: names.len() as u32,
        items,
    })
}

// The numbers of names among others.
fn numbers_in(alloc: Global, names: &NameTable, own: &NameTable) -> Result<Vec<u32>, NoMemory>
    requires { length names.now < 2 ^ 32 }
    ensures { IfOk result (λ numbers. numbers.items ≡ map (number_in names.now) own.now) }
{
    let mut numbers = Vec::with_capacity(alloc, own.len())?;
    for number in 0..own.len() {
        numbers.push(number_in(names, own.at(number)))?;
    }
    Ok(numbers)
}

// The number of a name, 0 where it is none of the names.
fn number_in(names: &NameTable, name: &[u8]) -> u32
    requires { length names.now < 2 ^ 32 }
    ensures { result ≡ number_in names.now name.now }
{
    match names.find(name) {
        Some(number) => number as u32,
        None => 0,
    }
}

// The placements that lines say.
fn placements_in(
    alloc: Global,
    library: &Library,
    texts: &Items<NameTable>,
    names: &NameTable,
    lines: &[PlacementLine],
) -> Result<Items<Item<ModelLine>>, NoMemory>
    requires within { All (IsPlacementWithin library.now.whole.now) lines.now }
    requires titles { AreSmall library.now.titles.now }
    requires few { All (λ names. length names < 2 ^ 32) texts.now }
    requires names { length names.now < 2 ^ 32 }
    ensures { IfOk result (λ placed. placed
        ≡ map (placement_in (place_of library.now.titles.now) library.now.interfaces.now texts.now names.now)
        (map (placing_in library.now.whole.now) lines.now)) }
{
    let mut placed = Items::new(alloc);
    for line in lines {
        placed.push(placement_in(alloc, library, texts, names, line)?)?;
    }
    Ok(placed)
}

// The placement that a `.subckt` is.
fn placement_in(
    alloc: Global,
    library: &Library,
    texts: &Items<NameTable>,
    names: &NameTable,
    line: &PlacementLine,
) -> Result<Item<ModelLine>, NoMemory>
    requires within { IsPlacementWithin library.now.whole.now line.now }
    requires titles { AreSmall library.now.titles.now }
    requires few { All (λ names. length names < 2 ^ 32) texts.now }
    requires names { length names.now < 2 ^ 32 }
    ensures { IfOk result (λ placed. placed ≡ placement_in (place_of library.now.titles.now) library.now.interfaces.now
        texts.now names.now (placing_in library.now.whole.now line.now)) }
{
    let [title, connections @ ..] = line.words.as_slice() else {
        return Ok(nothing_placed(alloc));
    };
    let Some(number) = library.titles.find(text_of(library.whole, *title)) else {
        return Ok(nothing_placed(alloc));
    };
    let joined = joined_for(alloc, library, texts, number, names, connections)?;
    Ok(Item::Place(Placement {
        model: number as u32,
        connections: joined,
    }))
}

// A placement of the top, with nothing connected.
fn nothing_placed(alloc: Global) -> Item<ModelLine>
    ensures { result ≡ Item.Place (record { model = 0; connections = [] }) }
{
    Item::Place(Placement {
        model: 0,
        connections: Items::new(alloc),
    })
}

// The connections of the model of a number.
fn joined_for(
    alloc: Global,
    library: &Library,
    texts: &Items<NameTable>,
    number: usize,
    names: &NameTable,
    words: &[Span],
) -> Result<Items<Connection>, NoMemory>
    requires within { All (IsWithin library.now.whole.now) words.now }
    requires few { All (λ names. length names < 2 ^ 32) texts.now }
    requires names { length names.now < 2 ^ 32 }
    ensures { IfOk result (λ joined. joined ≡ joined_for (slice_get library.now.interfaces.now number)
        (slice_index_or texts.now number []) names.now (map (word_of library.now.whole.now) words.now)) }
{
    match library.interfaces.get(number) {
        Some(interface) => joined_by(
            alloc,
            library.whole,
            interface,
            texts.as_slice().get(number),
            names,
            words,
        ),
        None => Ok(Items::new(alloc)),
    }
}

fn joined_by(
    alloc: Global,
    whole: &[u8],
    interface: &Interface,
    formals: Option<&NameTable>,
    names: &NameTable,
    words: &[Span],
) -> Result<Items<Connection>, NoMemory>
    requires within { All (IsWithin whole.now) words.now }
    requires formals { IfSome formals (λ formals. length formals.now < 2 ^ 32) }
    requires names { length names.now < 2 ^ 32 }
    ensures { IfOk result (λ joined. joined ≡ joined_by interface.now
        (unwrap_or (option_map (λ formals. formals.now) formals.entry) []) names.now (map (word_of whole.now) words.now)) }
{
    let mut joined = Items::new(alloc);
    for word in words {
        if let Some(connection) = joined_one(interface, formals, names, text_of(whole, *word)) {
            joined.push(connection)?;
        }
    }
    Ok(joined)
}

// The connection that a word is, where it is of an input or an output.
fn joined_one(
    interface: &Interface,
    formals: Option<&NameTable>,
    names: &NameTable,
    word: &[u8],
) -> Option<Connection>
    requires formals { IfSome formals (λ formals. length formals.now < 2 ^ 32) }
    requires names { length names.now < 2 ^ 32 }
    ensures { option_to_list result ≡ joined_one interface.now
        (unwrap_or (option_map (λ formals. formals.now) formals.entry) []) names.now (link_of word.now) }
{
    let link = link_of(word)?;
    match interface.role_of(link.formal)? {
        Role::Clock => None,
        Role::Input | Role::Output => Some(Connection {
            formal: formal_number(formals, link.formal),
            actual: number_in(names, link.actual),
        }),
    }
}

// The number of a formal, 0 where there are no names.
fn formal_number(formals: Option<&NameTable>, name: &[u8]) -> u32
    requires { IfSome formals (λ formals. length formals.now < 2 ^ 32) }
    ensures { result ≡ number_in (unwrap_or (option_map (λ formals. formals.now) formals.entry) []) name.now }
{
    match formals {
        Some(formals) => number_in(formals, name),
        None => 0,
    }
}

// Lines with other numbers, and what is placed between them.
fn woven(
    alloc: Global,
    numbers: &[u32],
    items: Items<Item<ModelLine>>,
    lines: &[PlacementLine],
    placed: Items<Item<ModelLine>>,
) -> Result<Items<Item<ModelLine>>, NoMemory>
    ensures { (whole : List ℕ) → IfOk result (λ all. all ≡ woven numbers.now 0 items (map (placing_in whole) lines.now) placed) }
{
    let mut all = Items::new(alloc);
    let mut left = items.into_vec().into_iter();
    let mut places = placed.into_vec().into_iter();
    let mut before = 0usize;
    for line in lines {
        let Some(place) = places.next() else {
            return Ok(all);
        };
        add_lines(
            alloc,
            &mut all,
            numbers,
            &mut left,
            line.before.saturating_sub(before),
        )?;
        all.push(place)?;
        before = line.before;
    }
    add_rest(alloc, &mut all, numbers, left)?;
    Ok(all)
}

// So many lines more, or all where there are fewer, with other numbers.
fn add_lines(
    alloc: Global,
    all: &mut Items<Item<ModelLine>>,
    numbers: &[u32],
    left: &mut IntoIter<Item<ModelLine>>,
    count: usize,
) -> Result<(), NoMemory>
    ensures all { OnOk result (all.new ≡ all.old ++ map (renumbered numbers.now) (take count (into_iter_items left.old))) }
    ensures left { OnOk result (into_iter_items left.new ≡ drop count (into_iter_items left.old)) }
{
    let mut more = count;
    while more > 0 {
        let Some(item) = left.next() else {
            return Ok(());
        };
        all.push(renumbered(alloc, item, numbers)?)?;
        more -= 1;
    }
    Ok(())
}

// All lines that are left, with other numbers.
fn add_rest(
    alloc: Global,
    all: &mut Items<Item<ModelLine>>,
    numbers: &[u32],
    left: IntoIter<Item<ModelLine>>,
) -> Result<(), NoMemory>
    ensures { OnOk result (all.new ≡ all.old ++ map (renumbered numbers.now) (into_iter_items left)) }
{
    let mut rest = left;
    while let Some(item) = rest.next() {
        all.push(renumbered(alloc, item, numbers)?)?;
    }
    Ok(())
}

// A line with other numbers.
fn renumbered(
    alloc: Global,
    item: Item<ModelLine>,
    numbers: &[u32],
) -> Result<Item<ModelLine>, NoMemory>
    ensures { IfOk result (λ new. new ≡ renumbered numbers.now item) }
{
    match item {
        Item::Own(line) => {
            let ModelLine { mentions, kind } = line;
            let mentions = numbers_at(alloc, mentions.as_slice(), numbers)?;
            Ok(Item::Own(ModelLine { mentions, kind }))
        }
        Item::Place(placement) => Ok(Item::Place(placement)),
    }
}

// The numbers at places of a list.
fn numbers_at(alloc: Global, places: &[u32], numbers: &[u32]) -> Result<Numbers, NoMemory>
    ensures { IfOk result (λ found. found ≡ map (slice_index numbers.now) places.now) }
{
    let mut found = Items::new(alloc);
    for place in places {
        found.push(number_at(numbers, *place))?;
    }
    Ok(found)
}

// The number at a place of a list, 0 past its end.
fn number_at(numbers: &[u32], place: u32) -> u32
    ensures { result ≡ slice_index numbers.now place }
{
    match numbers.get(place as usize) {
        Some(number) => *number,
        None => 0,
    }
}
