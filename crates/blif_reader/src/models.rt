// From the models of a text to their flat netlist.
ghost use Rattle.std.specs.Prelude.{◌≡◌, ◌≤◌, Ok, length, All, IfOk, IfErr};
ghost use Rattle.psl_base.specs.Places.{file_limit};
ghost use Rattle.blif_laws.specs.Plain.{IsPlain};
ghost use Rattle.blif_model.specs.FileKnown.{FileSays, IsModelWithin};
ghost use Rattle.blif_model.specs.Rules.{signal_limit};
ghost use Rattle.blif_reader.specs.Kept.{IsLinked};
ghost use Rattle.blif_reader.specs.Meaning.{IsReading};
ghost use Rattle.blif_reader.specs.Told.{IsReadFault};

use crate::flat::netlist_of;
use crate::kept::Kept;
use crate::places::place_at;
use crate::shape::Shape;
use blif_flat::flat_netlist;
use blif_hierarchy::first_too_large;
use blif_linking::{LinkedModels, first_bad, first_unknown, interfaces_of, link};
use blif_model::{BlifFault, FileText};
use netlist::Netlist;
use std::alloc::Global;

/// The netlist of the models that bytes say.
pub(crate) fn netlist_of_models<'a>(
    alloc: Global,
    bytes: &'a [u8],
    text: FileText<'a>,
) -> Result<Netlist, BlifFault>
    requires limit { length bytes.now ≤ file_limit }
    requires says { FileSays bytes.now text }
    requires within { All (IsModelWithin bytes.now) text.models }
    ensures ok { IfOk result (λ netlist. IsReading bytes.now (Ok netlist)) }
    ensures few { IfOk result (λ netlist. netlist.signals ≤ signal_limit) }
    ensures plain { IfOk result (λ netlist. All IsPlain netlist.names) }
    ensures err { IfErr result (λ fault. IsReadFault bytes.now fault) }
{
    if let Some(word) = first_unknown(bytes, &text) {
        return Err(BlifFault::UnknownModel(place_at(bytes, word.at)));
    }
    let shape = Shape::of(alloc, bytes, &text)?;
    if let Some(placement) = shape.long {
        return Err(BlifFault::TooLarge(shape.top_place(bytes, placement)));
    }
    let interfaces = interfaces_of(alloc, bytes, text.models.as_slice())?;
    if let Some(word) = first_bad(alloc, bytes, &text, &interfaces)? {
        return Err(BlifFault::BadConnection(place_at(bytes, word.at)));
    }
    let kept = Kept::of(alloc, bytes, &text, &interfaces, shape)?;
    let all = link(alloc, bytes, text, &interfaces)?;
    netlist_of_linked(alloc, bytes, &all, &kept)
}

/// The netlist of models by numbers.
fn netlist_of_linked(
    alloc: Global,
    bytes: &[u8],
    all: &LinkedModels,
    kept: &Kept,
) -> Result<Netlist, BlifFault>
    requires limit { length bytes.now ≤ file_limit }
    requires linked { IsLinked bytes.now all.now kept.now }
    ensures ok { IfOk result (λ netlist. IsReading bytes.now (Ok netlist)) }
    ensures few { IfOk result (λ netlist. netlist.signals ≤ signal_limit) }
    ensures plain { IfOk result (λ netlist. All IsPlain netlist.names) }
    ensures err { IfErr result (λ fault. IsReadFault bytes.now fault) }
{
    if let Some(found) = kept.shape.recursive {
        return Err(BlifFault::ModelRecursion(kept.shape.title_place(bytes, found)));
    }
    if let Some(found) = kept.shape.deep {
        return Err(BlifFault::TooDeep(kept.shape.title_place(bytes, found)));
    }
    if let Some(word) = kept.driven {
        return Err(BlifFault::DrivenBySubckt(place_at(bytes, word.at)));
    }
    if let Some(word) = kept.undriven {
        return Err(BlifFault::Undriven(place_at(bytes, word.at)));
    }
    if let Some(placement) = first_too_large(alloc, &all.models, &kept.shape.scale)? {
        return Err(BlifFault::TooLarge(kept.shape.top_place(bytes, placement)));
    }
    let flat = flat_netlist(alloc, &all.models, &all.texts)?;
    netlist_of(alloc, bytes, flat)
}
