// Uses of names that nothing drives.
ghost use Rattle.std.specs.Prelude.{◌≡◌, ℕ, List, map, All, IfOk};
ghost use Rattle.std.specs.Option.{option_map};
ghost use Rattle.blif_model.specs.FileKnown.{IsModelWithin, part_in, placing_in};
ghost use Rattle.blif_model.specs.Files.{Part};
ghost use Rattle.blif_model.specs.Models.{Model};
ghost use Rattle.blif_model.specs.Names.{place_of};
ghost use Rattle.blif_model.specs.Scanning.{word_of};
ghost use Rattle.blif_linking.specs.Actuals.{actual_in, at_place};
ghost use Rattle.blif_linking.specs.Bad.{IsReadAs};
ghost use Rattle.blif_linking.specs.Names.{first_undriven};
ghost use Rattle.blif_linking.specs.Offers.{interface_in};
ghost use Rattle.blif_linking.specs.Undriven.{first_free, free_by, free_from, free_names, is_free, items_free, mentioned_at, some_free, undriven_among, undriven_within};

use crate::actuals::{Actual, actuals_at};
use crate::driving::{flag_at, found_in, lines_drive};
use crate::interface::Interface;
use crate::library::Library;
use crate::names::is_one_of;
use crate::order::{first_items, rest_items};
use blif_flattening::Item;
use blif_model::{FileModel, FileText, ModelLine, NameTable, NoMemory, OwnText, Span};
use std::alloc::Global;

/// The first use of a name that neither a line of its model drives nor a connection: the word that mentions it, or the
/// connection of an input. The interfaces are those of the models.
///
/// # Errors
///
/// `NoMemory` if memory is refused.
pub fn first_undriven(
    alloc: Global,
    whole: &[u8],
    text: &FileText,
    interfaces: &[Interface],
) -> Result<Option<Span>, NoMemory>
    requires within { All (IsModelWithin whole.now) text.now.models }
    requires offers { interfaces.now ≡ map (interface_in whole.now) text.now.models }
    ensures { (parts : List (Part Model)) → IsReadAs whole.now text.now parts
        → IfOk result (λ found. option_map (λ word. (word_of whole.now word).place) found
        ≡ option_map (λ word. word.place) (first_undriven parts)) }
{
    let library = Library {
        whole,
        titles: &text.titles,
        interfaces,
    };
    undriven_among(alloc, &library, text.models.as_slice())
}

fn undriven_among(
    alloc: Global,
    library: &Library,
    models: &[FileModel],
) -> Result<Option<Span>, NoMemory>
    requires { All (IsModelWithin library.now.whole.now) models.now }
    ensures { IfOk result (λ found. at_place (option_map (word_of library.now.whole.now) found)
        ≡ undriven_among (place_of library.now.titles.now) library.now.interfaces.now (map (part_in library.now.whole.now) models.now)) }
{
    for model in models {
        if let Some(word) = undriven_within(alloc, library, model)? {
            return Ok(Some(word));
        }
    }
    Ok(None)
}

fn undriven_within(
    alloc: Global,
    library: &Library,
    model: &FileModel,
) -> Result<Option<Span>, NoMemory>
    requires { IsModelWithin library.now.whole.now model.now }
    ensures { IfOk result (λ found. at_place (option_map (word_of library.now.whole.now) found)
        ≡ undriven_within (place_of library.now.titles.now) library.now.interfaces.now (part_in library.now.whole.now model.now)) }
{
    let found = found_in(alloc, library, model.placements.as_slice())?;
    let free = free_names(alloc, &model.own, &found)?;
    free_from(alloc, library, model, &found, &free)
}

// Of each name, whether neither a line drives it nor one of the connections that were found.
fn free_names(alloc: Global, own: &OwnText, found: &NameTable) -> Result<Vec<bool>, NoMemory>
    ensures { IfOk result (λ free. free.items ≡ free_names own.now.text.names own.now.driven found.now) }
{
    let names = &own.text.names;
    let mut free = Vec::with_capacity(alloc, names.len())?;
    for number in 0..names.len() {
        free.push(is_free(own, found, names.at(number)))?;
    }
    Ok(free)
}

// Whether neither a line drives a name nor one of the connections that were found.
fn is_free(own: &OwnText, found: &NameTable, name: &[u8]) -> bool
    ensures { result ≡ is_free own.now.text.names own.now.driven found.now name.now }
{
    !(lines_drive(own, name) || is_one_of(found, name))
}

// The first use in the order of a model's lines and placements. Where a line has it, it is the first mention of the
// first name that is free.
fn free_from(
    alloc: Global,
    library: &Library,
    model: &FileModel,
    found: &NameTable,
    free: &[bool],
) -> Result<Option<Span>, NoMemory>
    requires { IsModelWithin library.now.whole.now model.now }
    ensures { IfOk result (λ word. at_place (option_map (word_of library.now.whole.now) word)
        ≡ free_from model.now.own.text.names model.now.own.driven found.now free.now
        (at_place (first_free free.now (map (word_of library.now.whole.now) model.now.own.firsts)))
        (place_of library.now.titles.now) library.now.interfaces.now 0
        model.now.own.text.model.items (map (placing_in library.now.whole.now) model.now.placements)) }
{
    let word = first_free(free, model.own.firsts.as_slice());
    let mut items = model.own.text.model.items.as_slice();
    let mut before = 0usize;
    for line in model.placements.as_slice() {
        let count = line.before.saturating_sub(before);
        if items_free(free, first_items(items, count)) {
            return Ok(word);
        }
        let actuals = actuals_at(alloc, library, line)?;
        let used = free_by(&model.own, found, &actuals);
        if used.is_some() {
            return Ok(used);
        }
        items = rest_items(items, count);
        before = line.before;
    }
    if items_free(free, items) {
        return Ok(word);
    }
    Ok(None)
}

// The first word that belongs to a name that is free.
fn first_free(free: &[bool], words: &[Span]) -> Option<Span>
    ensures { (whole : List ℕ) → option_map (word_of whole) result ≡ first_free free.now (map (word_of whole) words.now) }
{
    for number in 0..free.len().min(words.len()) {
        if free[number] {
            return Some(words[number]);
        }
    }
    None
}

// Whether lines mention a name that is free.
fn items_free(free: &[bool], items: &[Item<ModelLine>]) -> bool
    ensures { result ≡ items_free free.now items.now }
{
    for item in items {
        if some_free(free, mentioned_at(item)) {
            return true;
        }
    }
    false
}

// The numbers of the names that an item mentions.
pub(crate) fn mentioned_at<'a>(item: &'a Item<ModelLine>) -> &'a [u32]
    ensures { result.now ≡ mentioned_at item.now }
{
    match item {
        Item::Own(line) => line.mentions.as_slice(),
        Item::Place(_) => &[],
    }
}

// Whether some number is that of a name that is free.
fn some_free(free: &[bool], numbers: &[u32]) -> bool
    ensures { result ≡ some_free free.now numbers.now }
{
    for number in numbers {
        if flag_at(free, *number as usize) {
            return true;
        }
    }
    false
}

// The first connection that uses a name that is free.
fn free_by(own: &OwnText, found: &NameTable, actuals: &[Actual]) -> Option<Span>
    ensures { (whole : List ℕ) → at_place (option_map (word_of whole) result)
        ≡ free_by own.now.text.names own.now.driven found.now (map (actual_in whole) actuals.now) }
{
    for actual in actuals {
        if !actual.drives && is_free(own, found, actual.name) {
            return Some(actual.word);
        }
    }
    None
}
