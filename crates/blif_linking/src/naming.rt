// The names of models in the order of their first mention.
ghost use Rattle.std.specs.Prelude.{◌≡◌, ℕ, List, map, All, IfOk, OnOk};
ghost use Rattle.blif_model.specs.FileKnown.{IsModelWithin, part_in};
ghost use Rattle.blif_model.specs.Files.{Part};
ghost use Rattle.blif_model.specs.Models.{Model};
ghost use Rattle.blif_model.specs.Names.{place_of};
ghost use Rattle.blif_linking.specs.Actuals.{actual_in};
ghost use Rattle.blif_linking.specs.Bad.{IsReadAs};
ghost use Rattle.blif_linking.specs.Linked.{linked_texts};
ghost use Rattle.blif_linking.specs.Naming.{named_by, named_in, named_within};
ghost use Rattle.blif_linking.specs.Offers.{interface_in};

use crate::actuals::{Actual, actuals_at};
use crate::interface::Interface;
use crate::library::Library;
use crate::names::{insert, insert_all};
use crate::order::{first_items, rest_items};
use crate::undriven::mentioned_at;
use blif_flattening::Item;
use blif_model::{FileModel, FileText, ModelLine, NameTable, NoMemory};
use psl_base::Items;
use std::alloc::Global;

/// The names of each model, in the order of their first mention: those that its lines mention, and those that are
/// connected in it with inputs and outputs of the models that it places. The interfaces are those of the models.
///
/// # Errors
///
/// `NoMemory` if memory is refused.
pub(crate) fn names_of<'a>(
    alloc: Global,
    whole: &'a [u8],
    text: &FileText<'a>,
    interfaces: &[Interface],
) -> Result<Items<NameTable<'a>>, NoMemory>
    requires within { All (IsModelWithin whole.now) text.now.models }
    requires offers { interfaces.now ≡ map (interface_in whole.now) text.now.models }
    ensures { (parts : List (Part Model)) → IsReadAs whole.now text.now parts
        → IfOk result (λ texts. texts ≡ linked_texts parts) }
{
    let library = Library {
        whole,
        titles: &text.titles,
        interfaces,
    };
    named_among(alloc, &library, text.models.as_slice())
}

fn named_among<'a>(
    alloc: Global,
    library: &Library<'_, 'a, '_, '_>,
    models: &[FileModel<'a>],
) -> Result<Items<NameTable<'a>>, NoMemory>
    requires { All (IsModelWithin library.now.whole.now) models.now }
    ensures { IfOk result (λ texts. texts
        ≡ map (named_within (place_of library.now.titles.now) library.now.interfaces.now) (map (part_in library.now.whole.now) models.now)) }
{
    let mut texts = Items::new(alloc);
    for model in models {
        texts.push(named_within(alloc, library, model)?)?;
    }
    Ok(texts)
}

fn named_within<'a>(
    alloc: Global,
    library: &Library<'_, 'a, '_, '_>,
    model: &FileModel<'a>,
) -> Result<NameTable<'a>, NoMemory>
    requires { IsModelWithin library.now.whole.now model.now }
    ensures { IfOk result (λ names. names
        ≡ named_within (place_of library.now.titles.now) library.now.interfaces.now (part_in library.now.whole.now model.now)) }
{
    let own = &model.own.text.names;
    let mut names = NameTable::new(alloc);
    let mut items = model.own.text.model.items.as_slice();
    let mut before = 0usize;
    for line in model.placements.as_slice() {
        let count = line.before.saturating_sub(before);
        named_in(&mut names, own, first_items(items, count))?;
        let actuals = actuals_at(alloc, library, line)?;
        named_by(&mut names, &actuals)?;
        items = rest_items(items, count);
        before = line.before;
    }
    named_in(&mut names, own, items)?;
    Ok(names)
}

// With the names that lines mention.
fn named_in<'a>(
    names: &mut NameTable<'a>,
    own: &NameTable<'a>,
    items: &[Item<ModelLine>],
) -> Result<(), NoMemory>
    ensures { OnOk result (names.new ≡ named_in own.now names.old items.now) }
{
    for item in items {
        insert_all(names, own, mentioned_at(item))?;
    }
    Ok(())
}

// With the names that connections mention.
fn named_by<'a>(names: &mut NameTable<'a>, actuals: &[Actual<'a>]) -> Result<(), NoMemory>
    ensures { (whole : List ℕ) → OnOk result (names.new ≡ named_by names.old (map (actual_in whole) actuals.now)) }
{
    for actual in actuals {
        insert(names, actual.name)?;
    }
    Ok(())
}
