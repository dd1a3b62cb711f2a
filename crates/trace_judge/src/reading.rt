ghost use Rattle.std.specs.Prelude.{◌≡◌, ◌≤◌, length, IfOk};
ghost use Rattle.psl_base.specs.Places.{file_limit};
ghost use Rattle.trace.specs.Trace.{trace_sampled, trace_text};
ghost use Rattle.trace_judge.specs.Verdicts.{IsReadable};
ghost use Rattle.vcd_reader.specs.declared.unknown.Unknown.{Unknown};

use crate::judging::Traced;
use psl_base::{Bytes, NoMemory};
use std::alloc::Global;
use vcd_reader::{Recording, Unknown, read_faultless};

/// What the trace of a run says.
pub(crate) fn read_trace(
    alloc: Global,
    text: Bytes,
    traced: Traced<'_>,
) -> Result<Recording, NoMemory>
    requires text { text ≡ trace_text traced.netlist.now traced.run.now traced.loops }
    requires readable { IsReadable traced.netlist.now traced.run.now traced.loops }
    requires short { length text ≤ file_limit }
    ensures { IfOk result (λ recording. recording ≡ trace_sampled Unknown.Zero traced.entry.netlist.now traced.entry.run.now traced.entry.loops) }
{
    let recording = read_faultless(alloc, text, Unknown::Zero)?;
    Ok(recording)
}
