// What is kept of a text before its models are linked.
ghost use Rattle.std.specs.Prelude.{◌≡◌, ◌<◌, ◌≤◌, ◌^◌, List, length, map, All, IfOk};
ghost use Rattle.psl_base.specs.Places.{file_limit};
ghost use Rattle.blif_model.specs.FileKnown.{IsModelWithin};
ghost use Rattle.blif_model.specs.Files.{Part};
ghost use Rattle.blif_model.specs.Models.{Model};
ghost use Rattle.blif_linking.specs.Bad.{IsReadAs};
ghost use Rattle.blif_linking.specs.Offers.{interface_in};
ghost use Rattle.blif_reader.specs.Kept.{IsKept, IsShape};

use crate::shape::Shape;
use blif_linking::{Interface, first_driven, first_undriven};
use blif_model::{FileText, Span};
use psl_base::NoMemory;
use std::alloc::Global;

/// What is kept of a text, from which linking moves the lines.
#[derive(Drop)]
pub(crate) struct Kept {
    /// What is known of its models by what they place.
    pub(crate) shape: Shape,
    /// The first connection of an output that drives a name which is driven already.
    pub(crate) driven: Option<Span>,
    /// The first use of a name that nothing drives.
    pub(crate) undriven: Option<Span>,
}

impl Kept {
    /// What is kept of a text whose models have these interfaces.
    pub(crate) fn of(
        alloc: Global,
        bytes: &[u8],
        text: &FileText,
        interfaces: &[Interface],
        shape: Shape,
    ) -> Result<Kept, NoMemory>
        requires within { All (IsModelWithin bytes.now) text.now.models }
        requires limit { length bytes.now ≤ file_limit }
        requires offers { interfaces.now ≡ map (interface_in bytes.now) text.now.models }
        ensures { (parts : List (Part Model)) → IsReadAs bytes.now text.now parts → IsShape bytes.now parts shape
            → IfOk result (λ kept. IsKept bytes.now parts kept) }
    {
        let driven = first_driven(alloc, bytes, text, interfaces)?;
        let undriven = first_undriven(alloc, bytes, text, interfaces)?;
        Ok(Kept {
            shape,
            driven,
            undriven,
        })
    }
}
