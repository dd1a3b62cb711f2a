// What models offer to those who place them.
ghost use Rattle.std.specs.Prelude.{◌≡◌, ◌≤◌, length, [], true, false, map, All, IfOk};
ghost use Rattle.blif_model.specs.FileKnown.{IsModelWithin};
ghost use Rattle.blif_model.specs.Scanning.{IsWithin, word_of};
ghost use Rattle.blif_linking.specs.Interfaces.{texts_of};
ghost use Rattle.blif_linking.specs.Offers.{interface_in, listed_at, listed_by, listed_in, role_in};
ghost use Rattle.blif_linking.specs.Sets.{gathered};

use crate::names::{insert, insert_all, is_one_of};
use crate::role::Role;
use blif_flattening::Item;
use blif_model::{FileModel, LineKind, ModelLine, NameTable, NoMemory, Span, text_of};
use std::alloc::Global;

/// The names by which a model may be connected. Each set has a name just once.
#[derive(Drop)]
pub struct Interface<'a> {
    /// The names that it lists as inputs.
    pub inputs: NameTable<'a>,
    /// The names that it lists as outputs.
    pub outputs: NameTable<'a>,
    /// The names in its `.clock`s.
    pub clocks: NameTable<'a>,
}

/// What each model offers.
///
/// # Errors
///
/// `NoMemory` if memory is refused.
pub fn interfaces_of<'a>(
    alloc: Global,
    whole: &'a [u8],
    models: &[FileModel<'a>],
) -> Result<Vec<Interface<'a>>, NoMemory>
    requires { All (IsModelWithin whole.now) models.now }
    ensures { IfOk result (λ interfaces. interfaces.items ≡ map (interface_in whole.now) models.now) }
{
    let mut interfaces = Vec::with_capacity(alloc, models.len())?;
    for model in models {
        interfaces.push(interface_of(alloc, whole, model)?)?;
    }
    Ok(interfaces)
}

// What a model offers.
fn interface_of<'a>(
    alloc: Global,
    whole: &'a [u8],
    model: &FileModel<'a>,
) -> Result<Interface<'a>, NoMemory>
    requires { IsModelWithin whole.now model.now }
    ensures { IfOk result (λ interface. interface ≡ interface_in whole.now model.now) }
{
    let names = &model.own.text.names;
    let items = model.own.text.model.items.as_slice();
    Ok(Interface {
        inputs: listed(alloc, names, items, true)?,
        outputs: listed(alloc, names, items, false)?,
        clocks: clock_names(alloc, whole, model.clocks.as_slice())?,
    })
}

// The names that items list as inputs, or as outputs.
fn listed<'a>(
    alloc: Global,
    names: &NameTable<'a>,
    items: &[Item<ModelLine>],
    inputs: bool,
) -> Result<NameTable<'a>, NoMemory>
    ensures { IfOk result (λ found. found ≡ listed_in names.now inputs [] items.now) }
{
    let mut found = NameTable::new(alloc);
    for item in items {
        insert_all(&mut found, names, listed_at(item, inputs))?;
    }
    Ok(found)
}

// The numbers that an item lists as inputs, or as outputs.
fn listed_at<'b>(item: &'b Item<ModelLine>, inputs: bool) -> &'b [u32]
    ensures { result.now ≡ listed_at inputs item.now }
{
    match item {
        Item::Own(line) => listed_by(&line.kind, line.mentions.as_slice(), inputs),
        Item::Place(_) => &[],
    }
}

// The numbers of a line, where it lists inputs or outputs.
fn listed_by<'b>(kind: &LineKind, numbers: &'b [u32], inputs: bool) -> &'b [u32]
    ensures { result.now ≡ listed_by inputs kind.now numbers.now }
{
    let lists = match kind {
        LineKind::Inputs => inputs,
        LineKind::Outputs => !inputs,
        LineKind::Latch(_) => false,
        LineKind::Table(_) => false,
    };
    if lists {
        return numbers;
    }
    &[]
}

// The names that words are.
fn clock_names<'a>(
    alloc: Global,
    whole: &'a [u8],
    words: &[Span],
) -> Result<NameTable<'a>, NoMemory>
    requires { All (IsWithin whole.now) words.now }
    ensures { IfOk result (λ found. found ≡ gathered [] (texts_of (map (word_of whole.now) words.now))) }
{
    let mut found = NameTable::new(alloc);
    for word in words {
        insert(&mut found, text_of(whole, *word))?;
    }
    Ok(found)
}

impl<'a> Interface<'a> {
    /// What a name is to those who place the model.
    pub fn role_of(&self, name: &[u8]) -> Option<Role>
        ensures { result ≡ role_in self.now name.now }
    {
        if is_one_of(&self.inputs, name) {
            return Some(Role::Input);
        }
        if is_one_of(&self.outputs, name) {
            return Some(Role::Output);
        }
        if is_one_of(&self.clocks, name) {
            return Some(Role::Clock);
        }
        None
    }
}
