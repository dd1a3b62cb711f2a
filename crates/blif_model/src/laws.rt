ghost use Rattle.std.specs.Prelude.{◌≡◌, ℕ, List, ◌++◌, map, Ok, Err};
ghost use Rattle.blif_model.specs.declared.fault.BlifFault.{BlifFault};
ghost use Rattle.blif_model.specs.Lines.{lines};
ghost use Rattle.blif_model.specs.Models.{Mention, Model, names_of};
ghost use Rattle.blif_model.specs.Names.{named_by, names_fault_in, place_of, rule_of, with_mentions};
ghost use Rattle.blif_model.specs.Rules.{name_rule, names_fault};
ghost use Rattle.blif_model.specs.Examples.{LinesAreJoined, BackslashIsPart, NamesInOrder, UnknownWord, ModelBehindInputs};
ghost use Rattle.blif_model.specs.Examples.{RowWithoutTable, RowOfAnotherOutput, LatchOfOneWord, LatchOfALevel};
ghost use Rattle.blif_model.specs.Examples.{LatchesOfTwoClocks, InputTwice, BackslashAtTheEnd};
ghost use Rattle.blif_model.specs.Examples.{LineBehindTheEnd};
ghost use Rattle.blif_model.specs.FileExamples.{FurtherWithoutName, NoTitle, PlacedBehindTheEnd, RowBehindPlacement, TwiceNamed, TwoModels};
ghost use Rattle.blif_model.specs.FileKnown.{FileKnown, file_running, no_file_known, numbered_part, parts_known};
ghost use Rattle.blif_model.specs.Files.{Part, model_named, models_of};

/// Worked examples of the definitions, as laws: texts with the words of their lines, and one text for each fault of a
/// line.
#[tactic(auto, using(crate::proofs::ExamplesHold::examples))]
pub fn worked_examples()
    ensures joined { LinesAreJoined }
    ensures backslash { BackslashIsPart }
    ensures names { NamesInOrder }
    ensures unknown { UnknownWord }
    ensures model { ModelBehindInputs }
    ensures row { RowWithoutTable }
    ensures mixed { RowOfAnotherOutput }
    ensures latch { LatchOfOneWord }
    ensures level { LatchOfALevel }
    ensures clocks { LatchesOfTwoClocks }
    ensures twice { InputTwice }
    ensures stray { BackslashAtTheEnd }
    ensures behind { LineBehindTheEnd }
{}

/// A law of the definitions: the names that are kept say of mentions what the mentions before them say.
pub fn naming_law()
    ensures names { (whole : List ℕ) (mentions : List Mention) → names_of mentions ≡ (named_by whole mentions).names }
    ensures rule { (whole : List ℕ) (before : List Mention) (mention : Mention) → name_rule before mention
        ≡ rule_of (named_by whole before) mention }
    ensures fault { (whole : List ℕ) (before mentions : List Mention) → names_fault before mentions
        ≡ names_fault_in (named_by whole before) mentions }
    ensures more { (whole : List ℕ) (before mentions : List Mention) → named_by whole (before ++ mentions)
        ≡ with_mentions (named_by whole before) mentions }
{}

/// A law of the definitions: what is known when the lines of a text of several models are over is what the text says.
pub fn file_law()
    ensures says { (whole : List ℕ) (known : FileKnown) → file_running (no_file_known whole) (lines whole) ≡ Ok known
        → (parts : List (Part Model)) × (models_of whole ≡ Ok parts) × (parts_known known ≡ map (numbered_part whole) parts)
        × ((name : List ℕ) → place_of known.titles name ≡ model_named parts name) }
    ensures refuses { (whole : List ℕ) (fault : BlifFault) → file_running (no_file_known whole) (lines whole) ≡ Err fault
        → models_of whole ≡ Err fault }
{}

/// Worked examples of texts with several models, as laws.
#[tactic(auto, using(crate::proofs::FileExamplesHold::file_examples))]
pub fn worked_files()
    ensures two { TwoModels }
    ensures title { NoTitle }
    ensures twice { TwiceNamed }
    ensures behind { PlacedBehindTheEnd }
    ensures nameless { FurtherWithoutName }
    ensures row { RowBehindPlacement }
{}
