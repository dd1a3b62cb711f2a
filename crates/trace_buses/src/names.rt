// The first names of a netlist's signals.
ghost use Rattle.std.specs.Prelude.{◌≡◌, ◌<◌, ◌^◌, length, IfOk};
ghost use Rattle.trace_buses.specs.Buses.{bit_name, first_names, name_text};

use netlist::{Netlist, soundness_law};
use psl_base::{NoMemory, Text};
use psl_tree::{Name, Names};
use std::alloc::Global;
use trace::{first_places, first_text};

/// The first name of each signal, in the order of their numbers.
pub(crate) fn first_names(alloc: Global, netlist: &Netlist) -> Result<Names, NoMemory>
    ensures names { IfOk result (λ names. names ≡ first_names netlist.now) }
    ensures few { IfOk result (λ names. length names < 2 ^ 32) }
{
    soundness_law(netlist);
    let first = first_places(alloc, netlist.names().as_slice(), netlist.signals())?;
    let mut names = Names::new(alloc);
    for signal in 0..netlist.signals() {
        let text = first_text(netlist.names().as_slice(), &first, signal);
        names.push(bit_name(alloc, text, signal)?)?;
    }
    Ok(names)
}

/// A name of a signal of one bit.
fn bit_name(alloc: Global, text: &[u8], signal: u32) -> Result<Name, NoMemory>
    ensures { IfOk result (λ name. name ≡ bit_name text.now signal) }
{
    Ok(Name {
        text: Text::from_slice(alloc, text)?,
        signal,
        left: 0,
        right: 0,
    })
}

/// The name of a signal; nothing where there is no such signal.
pub(crate) fn text_at(names: &[Name], signal: usize) -> &[u8]
    ensures { result.now ≡ name_text names.now signal }
{
    match names.get(signal) {
        Some(name) => name.text.as_slice(),
        None => &[],
    }
}
