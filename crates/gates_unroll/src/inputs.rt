// The inputs of a frame.
ghost use Rattle.std.specs.Prelude.{◌≡◌, ◌<◌, fold, length, All};
ghost use Rattle.netlist.specs.Valuations.{bit};
ghost use Rattle.gates_builder.specs.Adding.{AreOf};
ghost use Rattle.gates_frames.specs.Frames.{with_input};
ghost use Rattle.gates_unroll.specs.Adding.{frame_of, Writes};

use clauses::CnfFault;
use gates_builder::Builder;

// An input is free, where it is in the cone.
fn add_input(
    builder: &mut Builder,
    cone: &[bool],
    number: u32,
    signal: u32,
    literals: &mut [i32],
) -> Result<(), CnfFault>
    requires cone { signal < length cone.now }
    requires signal { signal < length literals.old }
    requires literals { AreOf builder.old literals.old }
    ensures { Writes builder.old builder.new literals.new
        (with_input builder.old.given (bit cone.now) number (frame_of builder.old literals.old) signal) result }
{
    if cone[signal as usize] {
        literals[signal as usize] = builder.free(number, signal)?;
    }
    Ok(())
}

/// The inputs of a frame of this number are free, as far as they are in the cone.
pub(crate) fn add_inputs(
    builder: &mut Builder,
    cone: &[bool],
    number: u32,
    inputs: &[u32],
    literals: &mut [i32],
) -> Result<(), CnfFault>
    requires cone { All (λ signal. signal < length cone.now) inputs.now }
    requires signals { All (λ signal. signal < length literals.old) inputs.now }
    requires literals { AreOf builder.old literals.old }
    ensures { Writes builder.old builder.new literals.new
        (fold (with_input builder.old.given (bit cone.now) number) (frame_of builder.old literals.old) inputs.now) result }
{
    for i in 0..inputs.len() {
        add_input(builder, cone, number, inputs[i], literals)?;
    }
    Ok(())
}
