ghost use Rattle.std.specs.Prelude.{◌≡◌, None};
ghost use Rattle.psl_base.specs.Sink.{SinkState};

use crate::{Failed, Sink};
use std::io::Write;

/// A stream of the system as a sink, such as the standard output. It tells nothing of what was
/// written, and counts each fault. A stream that takes nothing of a piece is at fault too.
#[derive(Drop)]
pub struct StdSink<W: Write + Drop> {
    stream: W,
    faults: u64,
}

impl<W: Write + Drop> StdSink<W> {
    /// A sink over a stream, with no fault so far.
    pub fn new(stream: W) -> StdSink<W>
        ensures { ⟦<StdSink<W> as Sink>⟧.state result ≡ record { written = None; faults = 0 } }
    {
        StdSink { stream, faults: 0 }
    }
}

impl<W: Write + Drop> Sink for StdSink<W> {
    ghost state = { λ sink. record { written = None; faults = sink.faults } };

    fn put(&mut self, bytes: &[u8]) -> Result<usize, Failed> {
        match self.stream.write(bytes) {
            Ok(count) if count > 0 || bytes.is_empty() => Ok(count),
            _ => {
                self.faults = self.faults.saturating_add(1);
                Err(Failed)
            }
        }
    }
}
