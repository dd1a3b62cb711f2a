ghost use Rattle.std.specs.Prelude.{◌≡◌, ◌<◌, ◌^◌, length, replicate, true, IfOk};
ghost use Rattle.netlist.specs.Runs.{IsMade};
ghost use Rattle.trace_buses.specs.Buses as spec;
ghost use Rattle.trace_buses.specs.Spans.{Tells};

use crate::buses::all_buses;
use crate::carried::{found_kept, is_exact};
use crate::joining::{Buses, alone, vectors_with};
use crate::names::first_names;
use crate::spans::spans_of;
use netlist::{Netlist, Run};
use psl_base::{Bytes, NoMemory};
use psl_names::NameIndex;
use psl_tree::Names;
use std::alloc::Global;
use trace::{Vectors, vector_names, write_vectors};

/// The text of a recording of a run, or of any stem and loop of valuations, as `trace::write_trace` gives it, with
/// each bus of the netlist's first names as one vector.
///
/// # Errors
/// `NoMemory` where the allocator refuses memory.
pub fn write_buses(
    alloc: Global,
    netlist: &Netlist,
    run: &Run,
    loops: u32,
) -> Result<Bytes, NoMemory>
    requires { IsMade netlist.now run.now }
    ensures { IfOk result (λ text. text ≡ spec.buses_text netlist.now run.now loops) }
{
    let vectors = vectors_in(alloc, netlist)?;
    write_vectors(alloc, vectors.as_slice(), run, loops)
}

/// The signals of a netlist as a recording has them: each bus of first names as one vector, where its first signal
/// stands, and all other signals alone. A bus is a text behind which each index from the lowest to the highest of
/// them stands in the first name of just one signal; there are two at least. It is not joined where the text is
/// empty or `$end`, where it is found as a first name, or where a signal of it would not be found by its first name
/// beside the other buses, as `count[0]` beside `u1.count[0]` alone. Where then still some signal would not be
/// found, each is alone. It takes time that grows as the length of the names and the logarithm of their number.
///
/// # Errors
/// `NoMemory` where the allocator refuses memory.
pub fn vectors_in(alloc: Global, netlist: &Netlist) -> Result<Vectors, NoMemory>
    ensures { IfOk result (λ vectors. vectors ≡ spec.vectors_in netlist.now) }
{
    let names = first_names(alloc, netlist)?;
    vectors_among(alloc, &names)
}

/// The same by the first names.
fn vectors_among(alloc: Global, names: &Names) -> Result<Vectors, NoMemory>
    requires { length names.now < 2 ^ 32 }
    ensures { IfOk result (λ vectors. vectors ≡ spec.vectors_among names.now) }
{
    let vectors = joined(alloc, names)?;
    exact_or_alone(alloc, names, vectors)
}

/// Vectors, where they are exact; else each signal alone.
fn exact_or_alone(alloc: Global, names: &Names, vectors: Vectors) -> Result<Vectors, NoMemory>
    requires names { length names.now < 2 ^ 32 }
    requires vectors { length vectors < 2 ^ 32 }
    ensures { IfOk result (λ chosen. chosen ≡ spec.exact_or_alone names.now vectors) }
{
    let declared = vector_names(alloc, vectors.as_slice())?;
    let index = NameIndex::of(alloc, &declared)?;
    if is_exact(names.as_slice(), &index, vectors.as_slice()) {
        return Ok(vectors);
    }
    alone(alloc, names.as_slice())
}

/// The vectors of the buses of which each signal is found among all buses.
fn joined(alloc: Global, names: &Names) -> Result<Vectors, NoMemory>
    requires { length names.now < 2 ^ 32 }
    ensures vectors { IfOk result (λ vectors. vectors ≡ spec.vectors_with names.now (spec.found_kept names.now)) }
    ensures few { IfOk result (λ vectors. length vectors < 2 ^ 32) }
{
    let index = NameIndex::of(alloc, names)?;
    let spans = spans_of(alloc, names.as_slice())?;
    let all = all_buses(alloc, names.as_slice(), &index, &spans)?;
    let buses = Buses {
        names: names.as_slice(),
        spans: &spans,
        buses: &all,
    };
    let kept = kept_of(alloc, buses)?;
    vectors_with(alloc, buses, &kept)
}

/// Which buses are kept: those of which each signal is found among all buses.
fn kept_of(alloc: Global, buses: Buses<'_, '_>) -> Result<Vec<bool>, NoMemory>
    requires few { length buses.names.now < 2 ^ 32 }
    requires spans { Tells buses.spans.now buses.names.now }
    requires buses { buses.buses.now ≡ spec.all_buses buses.names.now }
    ensures { IfOk result (λ kept. kept.items ≡ spec.found_kept buses.entry.names.now) }
{
    let everything = all_kept(alloc, buses.names.len())?;
    let vectors = vectors_with(alloc, buses, &everything)?;
    let declared = vector_names(alloc, vectors.as_slice())?;
    let index = NameIndex::of(alloc, &declared)?;
    found_kept(alloc, buses.names, &index, vectors.as_slice(), buses.buses)
}

/// All are kept.
fn all_kept(alloc: Global, count: usize) -> Result<Vec<bool>, NoMemory>
    ensures { IfOk result (λ kept. kept.items ≡ replicate count true) }
{
    let kept = vec![in alloc; true; count]?;
    Ok(kept)
}
