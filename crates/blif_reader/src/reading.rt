ghost use Rattle.std.specs.Prelude.{◌<◌, ◌≤◌, length, None, Ok, All, IfOk, IfErr, IsErrOf};
ghost use Rattle.psl_base.specs.Places.{file_limit};
ghost use Rattle.psl_base.specs.Shelf.{OnlyReads, IsLonger, Tells, HasTaken, ReadingFails, SelectsNoOther};
ghost use Rattle.blif_model.specs.Rules.{signal_limit};
ghost use Rattle.blif_laws.specs.Plain.{IsPlain};
ghost use Rattle.blif_reader.specs.Meaning.{IsReading};
ghost use Rattle.blif_reader.specs.Told.{Says, IsFirstFault, IsReadFault};

use crate::models::netlist_of_models;
use blif_model::{BlifFault, read_models};
use netlist::Netlist;
use psl_base::{FILE_LIMIT, Shelf, read_all};
use std::alloc::Global;

/// The netlist that a file holds, in the Berkeley Logic Interchange Format: the inputs of its first model, and the latches
/// and tables of all instances, each `.subckt` replaced by the lines of its model. Each name is a signal of one bit, a
/// formal and its actual one signal, and the signals are numbered in the order in which these lines first mention them. A
/// file at fault is refused with its first fault, and a combinational cycle is looked for where it has no other.
pub fn read_blif<S: Shelf>(alloc: Global, shelf: &mut S, name: &str) -> Result<Netlist, BlifFault>
    ensures read { IfOk result (λ netlist. Says (S.state shelf.old) name.now (Ok netlist)) }
    ensures fault { IfErr result (λ fault. IsFirstFault (S.state shelf.old) name.now fault) }

    // Told or not, the netlist has few signals and plain names.
    ensures few { IfOk result (λ netlist. netlist.signals ≤ signal_limit) }
    ensures plain { IfOk result (λ netlist. All IsPlain netlist.names) }

    // The content is longer than a file may be, and so many bytes of it were taken.
    ensures longer { IsErrOf result BlifFault.TooLong → IsLonger file_limit (S.state shelf.old) name.now }
    ensures taken { IsErrOf result BlifFault.TooLong → HasTaken file_limit name.now (S.state shelf.new) }

    ensures failed { IsErrOf result BlifFault.ReadFault → ReadingFails name.now (S.state shelf.old) (S.state shelf.new) }
    ensures absent { Tells (S.state shelf.old) name.now None → IsErrOf result BlifFault.ReadFault }
    ensures last { IsErrOf result BlifFault.ReadFault → SelectsNoOther name.now (S.state shelf.new) }

    // A count that rose comes with a fault of reading.
    ensures counted { (S.state shelf.old).read_faults < (S.state shelf.new).read_faults → IsErrOf result BlifFault.ReadFault }

    ensures rest { OnlyReads (S.state shelf.old) (S.state shelf.new) }
{
    let bytes = read_all(alloc, shelf, name, FILE_LIMIT)?;
    read_bytes(alloc, bytes.as_slice())
}

/// The netlist that the bytes of a file say.
fn read_bytes(alloc: Global, bytes: &[u8]) -> Result<Netlist, BlifFault>
    requires { length bytes.now ≤ file_limit }
    ensures ok { IfOk result (λ netlist. IsReading bytes.now (Ok netlist)) }
    ensures few { IfOk result (λ netlist. netlist.signals ≤ signal_limit) }
    ensures plain { IfOk result (λ netlist. All IsPlain netlist.names) }
    ensures err { IfErr result (λ fault. IsReadFault bytes.now fault) }
{
    let text = read_models(alloc, bytes)?;
    netlist_of_models(alloc, bytes, text)
}
