// Models that are placed and are not there.
ghost use Rattle.std.specs.Prelude.{◌≡◌, List, map, All};
ghost use Rattle.std.specs.Option.{option_map};
ghost use Rattle.blif_model.specs.FileKnown.{IsModelWithin, IsNumbered, IsPlacementWithin, part_in, placing_in};
ghost use Rattle.blif_model.specs.Files.{Part};
ghost use Rattle.blif_model.specs.Models.{Model};
ghost use Rattle.blif_model.specs.Names.{place_of};
ghost use Rattle.blif_model.specs.Scanning.{word_of};
ghost use Rattle.blif_linking.specs.Names.{first_some, first_unknown, unknown_from, unknown_word};

use blif_model::{FileModel, FileText, NameTable, PlacementLine, Span, text_of};

/// The word at which a `.subckt` first names a model that its text does not have, or the `.subckt` itself where it names
/// none.
pub fn first_unknown(whole: &[u8], text: &FileText) -> Option<Span>
    requires { All (IsModelWithin whole.now) text.now.models }
    ensures { (parts : List (Part Model)) → IsNumbered whole.now text.now parts
        → option_map (word_of whole.now) result ≡ first_unknown parts }
{
    unknown_from(whole, &text.titles, text.models.as_slice())
}

fn unknown_from(whole: &[u8], titles: &NameTable, models: &[FileModel]) -> Option<Span>
    requires { All (IsModelWithin whole.now) models.now }
    ensures { option_map (word_of whole.now) result ≡ unknown_from (place_of titles.now) (map (part_in whole.now) models.now) }
{
    for model in models {
        if let Some(word) = unknown_in(whole, titles, model.placements.as_slice()) {
            return Some(word);
        }
    }
    None
}

fn unknown_in(whole: &[u8], titles: &NameTable, lines: &[PlacementLine]) -> Option<Span>
    requires { All (IsPlacementWithin whole.now) lines.now }
    ensures { option_map (word_of whole.now) result
        ≡ first_some (unknown_word (place_of titles.now)) (map (placing_in whole.now) lines.now) }
{
    for line in lines {
        if let Some(word) = unknown_word(whole, titles, line) {
            return Some(word);
        }
    }
    None
}

fn unknown_word(whole: &[u8], titles: &NameTable, line: &PlacementLine) -> Option<Span>
    requires { IsPlacementWithin whole.now line.now }
    ensures { option_map (word_of whole.now) result ≡ unknown_word (place_of titles.now) (placing_in whole.now line.now) }
{
    match line.words.as_slice() {
        [] => Some(line.head),
        [title, ..] => match titles.find(text_of(whole, *title)) {
            Some(_) => None,
            None => Some(*title),
        },
    }
}
