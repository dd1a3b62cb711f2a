// What is known of the models of a text by what they place alone.
ghost use Rattle.std.specs.Prelude.{◌≡◌, ◌+◌, ◌<◌, ◌≤◌, ◌^◌, List, length, map, All, IfOk};
ghost use Rattle.psl_base.specs.Places.{file_limit};
ghost use Rattle.blif_model.specs.FileKnown.{IsModelWithin};
ghost use Rattle.blif_model.specs.Files.{Part};
ghost use Rattle.blif_model.specs.Models.{Model as PartModel};
ghost use Rattle.blif_linking.specs.Bad.{IsReadAs};
ghost use Rattle.blif_reader.specs.Faults.{in_top, title_place};
ghost use Rattle.blif_reader.specs.Kept.{IsKnown, IsShape, LooksLong};
ghost use Rattle.blif_reader.specs.Kept.{line_titles, model_titles, scale_in, start_at, starts_in, title_span};

use crate::places::{number_at, place_at};
use blif_flattening::Model;
use blif_hierarchy::{PlacementAt, Scale, first_recursive, first_too_deep, first_too_long};
use blif_linking::outline;
use blif_model::{FileModel, FileText, ModelLine, PlacementLine, Span};
use psl_base::{FILE_LIMIT, Items, NoMemory, Numbers, Place};
use std::alloc::Global;

/// How many signals, and how many instances, a hierarchy has at most.
const MOST: u32 = 65_536;

/// What is known of models by what they place, before their connections are looked at.
#[derive(Drop)]
pub(crate) struct Shape {
    /// Of each model, how many bytes of the text stand before the name of a model in each of its `.subckt`s.
    pub(crate) titles: Items<Numbers>,
    /// How large the flat netlist may be, and where the lines of each model stand.
    pub(crate) scale: Scale,
    /// The first placement of a model that contains the one in which it stands.
    pub(crate) recursive: Option<PlacementAt>,
    /// The first placement of a model that is too deep.
    pub(crate) deep: Option<PlacementAt>,
    /// The first placement of the top with which the lines of all instances are longer than a file may be, where no model
    /// contains itself and none is too deep.
    pub(crate) long: Option<usize>,
}

impl Shape {
    /// That of a text of which no model is missing.
    pub(crate) fn of(alloc: Global, bytes: &[u8], text: &FileText) -> Result<Shape, NoMemory>
        requires limit { length bytes.now ≤ file_limit }
        requires within { All (IsModelWithin bytes.now) text.now.models }
        requires known { IsKnown bytes.now text.now }
        ensures { (parts : List (Part PartModel)) → IsReadAs bytes.now text.now parts
            → IfOk result (λ shape. IsShape bytes.now parts shape) }
    {
        let models = outline(alloc, bytes, text)?;
        let titles = titles_of(alloc, text.models.as_slice())?;
        let scale = scale_of(alloc, bytes, text.models.as_slice())?;
        let recursive = first_recursive(alloc, &models)?;
        let deep = first_too_deep(alloc, &models)?;
        let long = first_long(alloc, &models, &scale, recursive, deep)?;
        Ok(Shape {
            titles,
            scale,
            recursive,
            deep,
            long,
        })
    }

    /// The place of the name of the model in a `.subckt`.
    pub(crate) fn title_place(&self, bytes: &[u8], found: PlacementAt) -> Place
        requires { length bytes.now ≤ file_limit }
        ensures { result ≡ title_place bytes.now self.now.titles found }
    {
        match self.titles.as_slice().get(found.model) {
            Some(titles) => place_at(bytes, number_at(titles.as_slice(), found.placement)),
            None => place_at(bytes, 0),
        }
    }

    /// The same of a placement of the top, by its number there.
    pub(crate) fn top_place(&self, bytes: &[u8], placement: usize) -> Place
        requires { length bytes.now ≤ file_limit }
        ensures { result ≡ title_place bytes.now self.now.titles (in_top placement) }
    {
        self.title_place(
            bytes,
            PlacementAt {
                model: 0,
                placement,
            },
        )
    }
}

// The first placement of the top with which lines are too long, where nothing contains itself and nothing is too deep.
fn first_long(
    alloc: Global,
    models: &Items<Model<ModelLine>>,
    scale: &Scale,
    recursive: Option<PlacementAt>,
    deep: Option<PlacementAt>,
) -> Result<Option<usize>, NoMemory>
    requires { scale.now.size + 1 < 2 ^ 32 }
    ensures { IfOk result (λ found. LooksLong models.now scale.now recursive deep found) }
{
    match (recursive, deep) {
        (None, None) => first_too_long(alloc, models, scale),
        _ => Ok(None),
    }
}

// How large the flat netlist may be: no larger than a file.
fn scale_of(alloc: Global, bytes: &[u8], models: &[FileModel]) -> Result<Scale, NoMemory>
    requires { length bytes.now ≤ file_limit }
    ensures { IfOk result (λ scale. scale ≡ scale_in bytes.now models.now) }
{
    Ok(Scale {
        count: MOST,
        size: FILE_LIMIT as u32,
        starts: starts_of(alloc, bytes.len() as u32, models)?,
    })
}

// Where the lines of each model begin, and then where those of the last one end.
fn starts_of(alloc: Global, size: u32, models: &[FileModel]) -> Result<Numbers, NoMemory>
    ensures { IfOk result (λ starts. starts ≡ starts_in size models.now) }
{
    let mut starts = Items::new(alloc);
    for model in models {
        starts.push(start_at(model.title))?;
    }
    starts.push(size)?;
    Ok(starts)
}

// Where the name of a model stands, 0 where it has none.
fn start_at(title: Option<Span>) -> u32
    ensures { result ≡ start_at title }
{
    match title {
        Some(title) => title.at,
        None => 0,
    }
}

// Where each model names the models that it places.
fn titles_of(alloc: Global, models: &[FileModel]) -> Result<Items<Numbers>, NoMemory>
    ensures { IfOk result (λ titles. titles ≡ map model_titles models.now) }
{
    let mut titles = Items::new(alloc);
    for model in models {
        titles.push(titles_in(alloc, model.placements.as_slice())?)?;
    }
    Ok(titles)
}

fn titles_in(alloc: Global, lines: &[PlacementLine]) -> Result<Numbers, NoMemory>
    ensures { IfOk result (λ titles. titles ≡ line_titles lines.now) }
{
    let mut titles = Items::new(alloc);
    for line in lines {
        titles.push(title_span(line).at)?;
    }
    Ok(titles)
}

// The name of the model, or the `.subckt` where it has none.
fn title_span(line: &PlacementLine) -> Span
    ensures { result ≡ title_span line.now }
{
    match line.words.as_slice() {
        [] => line.head,
        [title, ..] => *title,
    }
}
