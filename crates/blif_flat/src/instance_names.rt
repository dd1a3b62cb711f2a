// The names of all instances.
ghost use Rattle.std.specs.Prelude.{◌≡◌, ◌+◌, ◌<◌, ◌^◌, ◌++◌, IfOk, OnOk};
ghost use Rattle.blif_flattening.specs.Listing.{AreSmall, IsSmall};
ghost use Rattle.blif_flat.specs.Naming.{name_with, names_in, names_with, prefix_of, step_of};

use blif_flattening::FlatInstance;
use blif_model::NameTable;
use psl_base::{Items, NoMemory, Text, add_bytes, add_number};
use psl_tree::{Name, Names};
use std::alloc::Global;

/// The names of instances that are signals, where each model has a table of names. The text of each has the placements
/// before it that lead to its instance, as `u1.u2.n`.
pub(crate) fn names_of(
    alloc: Global,
    instances: &Items<FlatInstance>,
    texts: &Items<NameTable>,
) -> Result<Names, NoMemory>
    requires { AreSmall instances.now }
    ensures { IfOk result (λ names. names ≡ names_in texts.now instances.now) }
{
    let mut names = Items::new(alloc);
    for instance in instances.as_slice() {
        if let Some(table) = texts.as_slice().get(instance.model) {
            add_names(alloc, &mut names, instance, table)?;
        }
    }
    Ok(names)
}

// The names of one instance.
#[tactic(auto, using(crate::proofs::Listed::names_next, crate::proofs::Listed::names_end))]
fn add_names(
    alloc: Global,
    names: &mut Names,
    instance: &FlatInstance,
    texts: &NameTable,
) -> Result<(), NoMemory>
    requires { IsSmall instance.now.path }
    ensures { OnOk result (names.new
        ≡ names.old ++ names_with (prefix_of instance.now.path) instance.now.numbers texts.now) }
{
    let prefix = prefix_of(alloc, instance.path.as_slice())?;
    for number in 0..instance.numbers.len().min(texts.len()) {
        add_name(
            alloc,
            names,
            &prefix,
            *instance.numbers.at(number),
            texts.at(number),
        )?;
    }
    Ok(())
}

// One name, where it is a signal.
fn add_name(
    alloc: Global,
    names: &mut Names,
    prefix: &[u8],
    number: Option<u32>,
    text: &[u8],
) -> Result<(), NoMemory>
    ensures { OnOk result (names.new ≡ names.old ++ name_with prefix.now number text.now) }
{
    let Some(signal) = number else {
        return Ok(());
    };
    names.push(Name {
        text: joined(alloc, prefix, text)?,
        signal,
        left: 0,
        right: 0,
    })
}

// One text behind another.
fn joined(alloc: Global, front: &[u8], back: &[u8]) -> Result<Text, NoMemory>
    ensures { IfOk result (λ text. text ≡ front.now ++ back.now) }
{
    let mut text = Vec::with_capacity(alloc, front.len())?;
    add_bytes(&mut text, front)?;
    add_bytes(&mut text, back)?;
    Ok(Items::from_vec(text))
}

// The placements that lead to an instance, the first one first, each with a dot behind it.
fn prefix_of(alloc: Global, path: &[usize]) -> Result<Vec<u8>, NoMemory>
    requires { IsSmall path.now }
    ensures { IfOk result (λ prefix. prefix.items ≡ prefix_of path.now) }
{
    let mut prefix = Vec::new(alloc);
    let mut left = path.len();
    while left > 0 {
        left -= 1;
        add_step(&mut prefix, path[left])?;
    }
    Ok(prefix)
}

// A placement with a dot behind it: `u1.`, where the first has the number 0.
fn add_step(prefix: &mut Vec<u8>, placement: usize) -> Result<(), NoMemory>
    requires { placement + 1 < 2 ^ 64 }
    ensures { OnOk result (prefix.new.items ≡ prefix.old.items ++ step_of placement) }
{
    prefix.push(b'u')?;
    add_number(prefix, placement as u64 + 1)?;
    prefix.push(b'.')?;
    Ok(())
}
