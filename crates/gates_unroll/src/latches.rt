// The latches of a frame.
ghost use Rattle.std.specs.Prelude.{◌≡◌, ◌<◌, fold, length, All};
ghost use Rattle.netlist.specs.Valuations.{bit};
ghost use Rattle.gates_builder.specs.Adding.{Adds, AreOf};
ghost use Rattle.gates_frames.specs.Frames.{first_by, with_latch};
ghost use Rattle.gates_unroll.specs.Adding.{frame_of, Writes};
ghost use Rattle.gates_unroll.specs.Sources.{latch_by, Tells};

use clauses::CnfFault;
use gates_builder::Builder;
use netlist::{Init, Latch};

/// What the latches of a frame are.
#[derive(Clone, Copy)]
pub(crate) enum Source<'a> {
    /// Of a first frame: their first values, or free.
    First(bool),
    /// What their inputs are in the frame before.
    Later(&'a [i32]),
}

// The literal of a latch in a first frame.
fn first_latch(
    builder: &mut Builder,
    initial: bool,
    init: Init,
    output: u32,
) -> Result<i32, CnfFault>
    ensures { Adds builder.old builder.new
        (first_by builder.old.given initial init builder.old.nodes output) result }
{
    if !initial {
        return builder.free(0, output);
    }
    match init {
        Init::Zero => Ok(builder.no()),
        Init::One => Ok(builder.yes()),
        Init::Free => builder.free(0, output),
    }
}

// The literal of a latch.
fn latch_by(builder: &mut Builder, source: Source, latch: Latch) -> Result<i32, CnfFault>
    requires { Tells builder.old source latch.input }
    ensures { Adds builder.old builder.new (latch_by source.entry builder.old.given builder.old.nodes latch) result }
{
    match source {
        Source::First(initial) => first_latch(builder, initial, latch.init, latch.output),
        Source::Later(before) => Ok(before[latch.input as usize]),
    }
}

// A latch has its literal, where it is in the cone.
fn add_latch(
    builder: &mut Builder,
    cone: &[bool],
    source: Source,
    latch: Latch,
    literals: &mut [i32],
) -> Result<(), CnfFault>
    requires cone { latch.output < length cone.now }
    requires signal { latch.output < length literals.old }
    requires tells { Tells builder.old source latch.input }
    requires literals { AreOf builder.old literals.old }
    ensures { Writes builder.old builder.new literals.new
        (with_latch (bit cone.now) (latch_by source.entry builder.old.given)
        (frame_of builder.old literals.old) latch) result }
{
    if cone[latch.output as usize] {
        literals[latch.output as usize] = latch_by(builder, source, latch)?;
    }
    Ok(())
}

/// The latches of a frame have their literals, as far as they are in the cone.
pub(crate) fn add_latches(
    builder: &mut Builder,
    cone: &[bool],
    source: Source,
    latches: &[Latch],
    literals: &mut [i32],
) -> Result<(), CnfFault>
    requires cone { All (λ latch. latch.output < length cone.now) latches.now }
    requires signals { All (λ latch. latch.output < length literals.old) latches.now }
    requires tells { All (λ latch. Tells builder.old source latch.input) latches.now }
    requires literals { AreOf builder.old literals.old }
    ensures { Writes builder.old builder.new literals.new
        (fold (with_latch (bit cone.now) (latch_by source.entry builder.old.given))
        (frame_of builder.old literals.old) latches.now) result }
{
    for i in 0..latches.len() {
        add_latch(builder, cone, source, latches[i], literals)?;
    }
    Ok(())
}
