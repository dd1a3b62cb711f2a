// Telling how far a search has come.
ghost use Rattle.std.specs.Prelude.{IfErr, OnOk};
ghost use Rattle.prover.specs.Milestones.{IsMilestoneFor};
ghost use Rattle.prover.specs.Telling.{HasToldFor, IsHaltAt};
ghost use Rattle.psl_base.specs.Sink.{SinkState};

use crate::context::Prover;
use crate::halt::Halt;
use crate::milestone::{Milestone, Wording};
use psl_base::{Sink, put_all};
use std::alloc::Global;
use std::marker::Brand;

/// How the sink stood when the search began. It stands for no value: each call of `prove_aloud` picks it.
pub(crate) trait Begun {
    ghost sink: { SinkState };
}

impl Begun for Brand {
    ghost use Rattle.std.specs.Prelude.{None};

    ghost sink = { record { written = None; faults = 0 } };
}

impl Prover<'_> {
    /// Tells a milestone.
    pub fn tell<W: Wording, E: Sink, B: Begun>(
        self,
        alloc: Global,
        wording: &W,
        err: &mut E,
        milestone: Milestone,
    ) -> Result<(), Halt>
        requires holds { IsMilestoneFor self.task milestone }
        requires told { HasToldFor self.task (W.line wording.now) B.sink (E.state err.old) }
        ensures told { OnOk result (HasToldFor self.entry.task (W.line wording.now) B.sink (E.state err.new)) }
        ensures halt { IfErr result (IsHaltAt self.entry.task (W.line wording.now) B.sink (E.state err.new)) }
    {
        let mut line = Vec::new(alloc);
        wording.add_line(&mut line, self.task.directive, milestone)?;
        match put_all(err, line.as_slice()) {
            Ok(()) => Ok(()),
            Err(_) => Err(Halt::Unwritten),
        }
    }
}
