// The netlist of models that fit together.
ghost use Rattle.std.specs.Prelude.{◌≡◌, ◌≤◌, Ok, length, All, IfOk, IfErr};
ghost use Rattle.psl_base.specs.Places.{file_limit};
ghost use Rattle.netlist.specs.Sound.{IsOrder, IsSound};
ghost use Rattle.blif_flat.specs.Inputs.{design_in};
ghost use Rattle.blif_laws.specs.Plain.{IsPlain};
ghost use Rattle.blif_model.specs.Rules.{signal_limit};
ghost use Rattle.blif_reader.specs.Kept.{IsFlat};
ghost use Rattle.blif_reader.specs.Meaning.{IsReading};
ghost use Rattle.blif_reader.specs.Told.{IsReadFault};

use crate::places::{number_at, place_at};
use blif_flat::{FlatNetlist, FlatParts};
use blif_model::BlifFault;
use netlist::{Netlist, Signals};
use netlist_order::order_tables;
use std::alloc::Global;

/// The netlist of a flat one, whose tables are put into an order.
pub(crate) fn netlist_of(
    alloc: Global,
    bytes: &[u8],
    flat: FlatNetlist,
) -> Result<Netlist, BlifFault>
    requires limit { length bytes.now ≤ file_limit }
    requires flat { IsFlat bytes.now flat }
    ensures ok { IfOk result (λ netlist. IsReading bytes.now (Ok netlist)) }
    ensures few { IfOk result (λ netlist. netlist.signals ≤ signal_limit) }
    ensures plain { IfOk result (λ netlist. All IsPlain netlist.names) }
    ensures err { IfErr result (λ fault. IsReadFault bytes.now fault) }
{
    match order_tables(alloc, flat.signals as u32, &flat.parts.tables)? {
        Ok(order) => Ok(build(flat, order)),
        Err(table) => {
            let at = number_at(flat.parts.outputs.as_slice(), table as usize);
            Err(BlifFault::CombinationalCycle(place_at(bytes, at)))
        }
    }
}

/// The netlist of its parts.
fn build(flat: FlatNetlist, order: Signals) -> Netlist
    requires sound { IsSound (design_in flat) }
    requires few { flat.signals ≤ signal_limit }
    requires order { IsOrder flat.parts.tables order }
    ensures { result ≡ design_in flat }
{
    let FlatNetlist {
        signals,
        inputs,
        parts,
        names,
    } = flat;
    let FlatParts {
        latches,
        tables,
        ..
    } = parts;
    Netlist::of(signals as u32, inputs, latches, tables, names, order)
}
