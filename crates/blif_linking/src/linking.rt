// The models of a text linked.
ghost use Rattle.std.specs.Prelude.{◌≡◌, ◌≤◌, None, List, length, map, All, IfOk};
ghost use Rattle.psl_base.specs.Places.{file_limit};
ghost use Rattle.blif_hierarchy.specs.First.{IsClosed};
ghost use Rattle.blif_hierarchy.specs.Sums.{AreInForm};
ghost use Rattle.blif_model.specs.FileKnown.{FileSays, IsModelWithin};
ghost use Rattle.blif_model.specs.Files.{Part};
ghost use Rattle.blif_model.specs.Models.{Model as PartModel};
ghost use Rattle.blif_linking.specs.Bad.{IsReadAs};
ghost use Rattle.blif_linking.specs.Linked.{linked, linked_texts};
ghost use Rattle.blif_linking.specs.Names.{first_bad, first_unknown};
ghost use Rattle.blif_linking.specs.Offers.{interface_in};

use crate::interface::Interface;
use crate::naming::names_of;
use crate::numbering::link_models;
use blif_flattening::Model;
use blif_model::{FileText, ModelLine, NameTable, NoMemory};
use psl_base::Items;
use std::alloc::Global;

/// Models that place each other, by numbers.
#[derive(Drop)]
pub struct LinkedModels<'a> {
    /// The models, the first of which is the top. Each name is its place among the names of its model, and each model its
    /// place here.
    pub models: Items<Model<ModelLine>>,
    /// The names of each model, in the order of their first mention: those that its lines mention, and those that are
    /// connected in it with inputs and outputs of the models that it places.
    pub texts: Items<NameTable<'a>>,
}

/// The models of a text by numbers. The rows of tables are moved. The interfaces are those of the models.
///
/// # Errors
///
/// `NoMemory` if memory is refused.
pub fn link<'a>(
    alloc: Global,
    whole: &'a [u8],
    text: FileText<'a>,
    interfaces: &[Interface],
) -> Result<LinkedModels<'a>, NoMemory>
    requires limit { length whole.now ≤ file_limit }
    requires says { FileSays whole.now text }
    requires within { All (IsModelWithin whole.now) text.models }
    requires offers { interfaces.now ≡ map (interface_in whole.now) text.models }
    ensures models { (parts : List (Part PartModel)) → IsReadAs whole.now text.entry parts
        → IfOk result (λ all. all.models ≡ linked parts) }
    ensures texts { (parts : List (Part PartModel)) → IsReadAs whole.now text.entry parts
        → IfOk result (λ all. all.texts ≡ linked_texts parts) }
    // where no model is missing, each that is placed is one of these
    ensures closed { (parts : List (Part PartModel)) → IsReadAs whole.now text.entry parts → first_unknown parts ≡ None
        → IfOk result (λ all. IsClosed all.models) }
    // where no connection is at fault, each placement is in form
    ensures form { (parts : List (Part PartModel)) → IsReadAs whole.now text.entry parts → first_bad parts ≡ None
        → IfOk result (λ all. AreInForm all.models) }
{
    let texts = names_of(alloc, whole, &text, interfaces)?;
    let models = link_models(alloc, whole, text, interfaces, &texts)?;
    Ok(LinkedModels { models, texts })
}
