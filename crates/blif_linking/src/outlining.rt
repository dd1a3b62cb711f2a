// The models of a text with nothing but what they place.
ghost use Rattle.std.specs.Prelude.{◌≡◌, ◌≤◌, ◌<◌, ◌^◌, None, List, length, map, All, IfOk};
ghost use Rattle.psl_base.specs.Places.{file_limit};
ghost use Rattle.blif_hierarchy.specs.First.{IsClosed};
ghost use Rattle.blif_model.specs.FileKnown.{FileSays, IsModelWithin, IsPlacementWithin, part_in, placing_in};
ghost use Rattle.blif_model.specs.Files.{Part};
ghost use Rattle.blif_model.specs.Models.{Model as PartModel};
ghost use Rattle.blif_model.specs.Names.{place_of};
ghost use Rattle.blif_model.specs.Scanning.{word_of};
ghost use Rattle.blif_linking.specs.Bad.{IsReadAs};
ghost use Rattle.blif_linking.specs.Bare.{bare, outlined_part, outlined_placing};
ghost use Rattle.blif_linking.specs.Linked.{linked};
ghost use Rattle.blif_linking.specs.Links.{title_in};
ghost use Rattle.blif_linking.specs.Names.{first_unknown};
ghost use Rattle.blif_linking.specs.Numbering.{AreSmall, model_number};

use blif_flattening::{Item, Model, Placement};
use blif_model::{
    FileModel, FileText, ModelLine, NameTable, NoMemory, PlacementLine, Span, text_of,
};
use psl_base::Items;
use std::alloc::Global;

/// The models of a text by numbers, as linking gives them, but without names, lines and connections. It takes time for
/// each `.subckt`, whatever that connects.
///
/// # Errors
///
/// `NoMemory` if memory is refused.
pub fn outline(
    alloc: Global,
    whole: &[u8],
    text: &FileText,
) -> Result<Items<Model<ModelLine>>, NoMemory>
    requires limit { length whole.now ≤ file_limit }
    requires says { FileSays whole.now text.now }
    requires within { All (IsModelWithin whole.now) text.now.models }
    ensures models { (parts : List (Part PartModel)) → IsReadAs whole.now text.now parts
        → IfOk result (λ models. models ≡ bare (linked parts)) }
    // where no model is missing, each that is placed is one of these
    ensures closed { (parts : List (Part PartModel)) → IsReadAs whole.now text.now parts → first_unknown parts ≡ None
        → IfOk result (λ models. IsClosed models) }
{
    outlined(alloc, whole, &text.titles, text.models.as_slice())
}

fn outlined(
    alloc: Global,
    whole: &[u8],
    titles: &NameTable,
    models: &[FileModel],
) -> Result<Items<Model<ModelLine>>, NoMemory>
    requires within { All (IsModelWithin whole.now) models.now }
    requires titles { AreSmall titles.now }
    ensures { IfOk result (λ all. all ≡ map (outlined_part (place_of titles.now)) (map (part_in whole.now) models.now)) }
{
    let mut all = Items::new(alloc);
    for model in models {
        let items = outlined_in(alloc, whole, titles, model.placements.as_slice())?;
        all.push(Model { names: 0, items })?;
    }
    Ok(all)
}

// What lines place.
fn outlined_in(
    alloc: Global,
    whole: &[u8],
    titles: &NameTable,
    lines: &[PlacementLine],
) -> Result<Items<Item<ModelLine>>, NoMemory>
    requires within { All (IsPlacementWithin whole.now) lines.now }
    requires titles { AreSmall titles.now }
    ensures { IfOk result (λ items. items
        ≡ map (outlined_placing (place_of titles.now)) (map (placing_in whole.now) lines.now)) }
{
    let mut items = Items::new(alloc);
    for line in lines {
        items.push(Item::Place(Placement {
            model: model_number(whole, titles, line),
            connections: Items::new(alloc),
        }))?;
    }
    Ok(items)
}

// The number of the model that a line places, 0 where there is none.
fn model_number(whole: &[u8], titles: &NameTable, line: &PlacementLine) -> u32
    requires within { IsPlacementWithin whole.now line.now }
    requires titles { AreSmall titles.now }
    ensures { result ≡ model_number (place_of titles.now) (title_in (map (word_of whole.now) line.now.words)) }
{
    let [title, ..] = line.words.as_slice() else {
        return 0;
    };
    match titles.find(text_of(whole, *title)) {
        Some(number) => number as u32,
        None => 0,
    }
}
