ghost use Rattle.std.specs.Prelude.{◌≡◌, ◌≤◌, ◌<◌, length, replicate, All, IfOk};
ghost use Rattle.netlist.specs.Valuations.{bit};
ghost use Rattle.gates_builder.specs.Adding.{AreOf};
ghost use Rattle.gates_frames.specs.Frames.{frame_at, frame_by, moved_latch};
ghost use Rattle.gates_unroll.specs.Adding.{filled, frame_of, AddsFrame, Writes};
ghost use Rattle.gates_unroll.specs.Sources.{latch_by, Tells};

use crate::inputs::add_inputs;
use crate::latches::{Source, add_latches};
use crate::tables::add_tables;
use clauses::CnfFault;
use gates_builder::Builder;
use gates_theory::Literals;
use netlist::{Netlist, soundness_law};
use psl_base::{Bits, NoMemory};
use std::alloc::Global;

// So many signals, each with the same literal.
fn blank(alloc: Global, signals: u32, literal: i32) -> Result<Vec<i32>, NoMemory>
    ensures { IfOk result (λ literals. literals.items ≡ replicate signals literal) }
{
    let mut literals = Vec::new(alloc);
    literals.resize(signals as usize, literal)?;
    Ok(literals)
}

// The inputs, latches and tables of a frame.
fn fill(
    alloc: Global,
    builder: &mut Builder,
    netlist: &Netlist,
    order: &[u32],
    cone: &[bool],
    number: u32,
    source: Source,
    literals: &mut [i32],
) -> Result<(), CnfFault>
    requires order { All (λ table. table < length netlist.now.tables) order.now }
    requires covers { length netlist.now.tables ≤ length builder.old.covers }
    requires cone { length cone.now ≡ netlist.now.signals }
    requires tells { All (λ latch. Tells builder.old source latch.input) netlist.now.latches }
    requires size { length literals.old ≡ netlist.now.signals }
    requires literals { AreOf builder.old literals.old }
    ensures { Writes builder.old builder.new literals.new
        (filled builder.old.covers builder.old.given netlist.now order.now (bit cone.now) number
        (latch_by source.entry builder.old.given) (frame_of builder.old literals.old)) result }
{
    soundness_law(netlist);
    add_inputs(builder, cone, number, netlist.inputs().as_slice(), literals)?;
    add_latches(
        builder,
        cone,
        source,
        netlist.latches().as_slice(),
        literals,
    )?;
    add_tables(
        alloc,
        builder,
        cone,
        netlist.tables().as_slice(),
        order,
        literals,
    )
}

// A frame of this number.
fn add_frame(
    alloc: Global,
    builder: &mut Builder,
    netlist: &Netlist,
    order: &[u32],
    cone: &Bits,
    number: u32,
    source: Source,
) -> Result<Literals, CnfFault>
    requires order { All (λ table. table < length netlist.now.tables) order.now }
    requires covers { length netlist.now.tables ≤ length builder.old.covers }
    requires cone { length cone.now ≡ netlist.now.signals }
    requires tells { All (λ latch. Tells builder.old source latch.input) netlist.now.latches }
    ensures frame { AddsFrame builder.old builder.new
        (frame_by builder.old.covers builder.old.given netlist.now order.now (bit cone.now) number
        (latch_by source.entry builder.old.given) builder.old.nodes) result }
    ensures size { IfOk result (λ literals. length literals ≡ netlist.now.signals) }
{
    let mut literals = blank(alloc, netlist.signals(), builder.no())?;
    fill(
        alloc,
        builder,
        netlist,
        order,
        cone.as_slice(),
        number,
        source,
        &mut literals,
    )?;
    Ok(Literals::from_vec(literals))
}

/// The literals of the signals of a netlist in a first frame, behind the nodes that there are: its latches have their
/// first values where the frame is to be initial, and else they are free. Only the signals of the cone have nodes; the
/// literal of each other one is false. The tables are computed in the given order.
///
/// # Errors
///
/// `TooLarge` only where the frame would have too many variables, and `NoMemory` if memory is refused. The builder is
/// then of no use.
pub fn first_frame(
    alloc: Global,
    builder: &mut Builder,
    netlist: &Netlist,
    order: &[u32],
    cone: &Bits,
    initial: bool,
) -> Result<Literals, CnfFault>
    requires order { All (λ table. table < length netlist.now.tables) order.now }
    // each table has a cover, by its number
    requires covers { length netlist.now.tables ≤ length builder.old.covers }
    requires cone { length cone.now ≡ netlist.now.signals }
    ensures frame { AddsFrame builder.old builder.new
        (frame_at builder.old.covers builder.old.given netlist.now order.now (bit cone.now) initial builder.old.nodes 0)
        result }
    ensures size { IfOk result (λ literals. length literals ≡ netlist.now.signals) }
{
    add_frame(
        alloc,
        builder,
        netlist,
        order,
        cone,
        0,
        Source::First(initial),
    )
}

/// The literals of the signals in the frame of a number, counted from 0, behind the nodes that there are: a latch is the
/// literal that its input has in the frame before.
///
/// # Errors
///
/// `TooLarge` only where the frame would have too many variables, and `NoMemory` if memory is refused. The builder is
/// then of no use.
pub fn next_frame(
    alloc: Global,
    builder: &mut Builder,
    netlist: &Netlist,
    order: &[u32],
    cone: &Bits,
    number: u32,
    before: &Literals,
) -> Result<Literals, CnfFault>
    requires order { All (λ table. table < length netlist.now.tables) order.now }
    // each table has a cover, by its number
    requires covers { length netlist.now.tables ≤ length builder.old.covers }
    requires cone { length cone.now ≡ netlist.now.signals }
    requires size { length before.now ≡ netlist.now.signals }
    // as those that the call for the frame before gave, and nodes may have been added since
    requires before { AreOf builder.old before.now }
    ensures frame { AddsFrame builder.old builder.new
        (frame_by builder.old.covers builder.old.given netlist.now order.now (bit cone.now) number
        (moved_latch builder.old.given before.now) builder.old.nodes) result }
    ensures size { IfOk result (λ literals. length literals ≡ netlist.now.signals) }
{
    soundness_law(netlist);
    add_frame(
        alloc,
        builder,
        netlist,
        order,
        cone,
        number,
        Source::Later(before.as_slice()),
    )
}
