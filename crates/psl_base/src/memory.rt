ghost use Rattle.std.specs.Prelude.{◌≡◌, ◌+◌, ◌<◌, ◌↔◌, [], ◌++◌, length, IsTrue, IsErr, IfOk, OnOk, OnErr, ◌⊎◌};
ghost use Rattle.std.specs.List.{Contains};
ghost use Rattle.psl_base.specs.Sink.{Puts, PutFails};
ghost use Rattle.psl_base.specs.Memory.{counted, sink_state, SinkRefuses};

use crate::{Failed, NoMemory, Numbers, Sink};
use std::alloc::Global;
use std::marker::Model;

/// A sink in memory, which tells what was written.
///
/// It takes its room when it is made and no memory later. Its calls are numbered from 1, and those
/// whose number is listed fail, as does a piece that goes past the room. No other call fails.
#[derive(Debug, Drop)]
pub struct MemSink {
    bytes: Vec<u8>,
    room: usize,
    calls: u64,
    faults: u64,
    fail: Numbers,
}

impl Model for MemSink {
    ghost use Rattle.std.specs.Prelude.{◌≤◌, vec_len, vec_capacity};
    ghost use Rattle.psl_base.specs.Memory.{MemorySink};

    ghost Value = { MemorySink };

    ghost view = { λ sink. record { bytes = sink.bytes.items; room = sink.room; calls = sink.calls; faults = sink.faults; fail = sink.fail } };

    ghost invariant = { λ sink. (vec_len sink.bytes ≤ sink.room) × (sink.room ≤ vec_capacity sink.bytes) };
}

impl MemSink {
    /// An empty sink with room for so many bytes, of which the listed calls fail.
    pub fn new(alloc: Global, room: u32, fail: &Numbers) -> Result<MemSink, NoMemory>
        ensures { IfOk result (λ sink. sink ≡ record { bytes = []; room = room; calls = 0; faults = 0; fail = fail.now }) }
    {
        let room = room as usize;
        Ok(MemSink {
            bytes: Vec::with_capacity(alloc, room)?,
            room,
            calls: 0,
            faults: 0,
            fail: fail.copy(alloc)?,
        })
    }

    /// What was written.
    pub fn bytes(&self) -> &[u8]
        ensures { result.now ≡ self.now.bytes }
    {
        self.bytes.as_slice()
    }

    /// Whether a piece of this size fails now.
    fn refuses(&self, size: usize) -> bool
        ensures { IsTrue result ↔ (Contains self.now.fail (counted self.now.calls) ⊎ self.now.room < length self.now.bytes + size) }
    {
        is_listed(self.fail.as_slice(), self.calls.saturating_add(1))
            || size > self.room - self.bytes.len()
    }
}

impl Sink for MemSink {
    ghost state = { sink_state };

    fn put(&mut self, bytes: &[u8]) -> Result<usize, Failed>
        ensures ok { IfOk result (λ count. Puts count bytes.now (sink_state self.old) (sink_state self.new)) }
        ensures failed { OnErr result (PutFails (sink_state self.old) (sink_state self.new)) }

        ensures exact { IsErr result ↔ SinkRefuses self.old bytes.now }
        ensures whole { IfOk result (λ count. count ≡ length bytes.now) }
        ensures added { OnOk result (self.new ≡ record self.old { bytes = self.old.bytes ++ bytes.now; calls = counted self.old.calls }) }
        ensures counts { OnErr result (self.new ≡ record self.old { calls = counted self.old.calls; faults = counted self.old.faults }) }
    {
        let refuses = self.refuses(bytes.len());
        self.calls = self.calls.saturating_add(1);
        if refuses {
            self.faults = self.faults.saturating_add(1);
            return Err(Failed);
        }
        match self.bytes.extend_from_slice(bytes) {
            Ok(()) => Ok(bytes.len()),
            Err(_) => unreachable!(),
        }
    }
}

/// Whether the number of a call is among those that are to fail.
pub(crate) fn is_listed(fail: &[u32], call: u64) -> bool
    ensures { IsTrue result ↔ Contains fail.now call }
{
    fail.iter().any(|number| u64::from(*number) == call)
}
