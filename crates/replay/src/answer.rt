use psl_base::{NoMemory, Text};
use thiserror::Error;

/// Whether a recording is a path of a netlist.
#[derive(Debug, Drop)]
pub enum Replay {
    /// It is.
    Path,
    /// It is not: at the sample, counted from 0, the signal of the netlist, counted from 0 and by its first name, has
    /// another value than the netlist gives it. No signal has at an earlier sample, and none with a lower number there.
    Leaves(u32, u32, Text),
}

/// Why a recording is not compared with a netlist.
#[derive(Debug, Drop, Error)]
pub enum ReplayFault {
    /// The first input or latch, by its first name and in the order of the netlist, that is not one bit of the recording:
    /// neither one signal of one bit nor, where an index stands behind the name, that bit of one vector.
    #[error("an input or a latch is not in the recording")]
    MissingSignal(Text),
    /// The allocator refused memory.
    #[error("out of memory")]
    NoMemory,
}

impl From<NoMemory> for ReplayFault {
    ghost use Rattle.replay.specs.declared.answer.ReplayFault.TheVariants as faults;
    ghost use Rattle.std.specs.Prelude.{◌≡◌};

    ghost from_gives = { λ _ fault. fault ≡ faults.NoMemory };

    fn from(_refused: NoMemory) -> ReplayFault {
        ReplayFault::NoMemory
    }
}
