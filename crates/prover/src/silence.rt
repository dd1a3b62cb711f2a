// Where nobody is told anything.
ghost use Rattle.std.specs.Prelude.{None, []};

use crate::milestone::{Milestone, Wording};
use psl_base::{Failed, NoMemory, Sink};
use psl_tree::Directive;

/// No words: nothing is told.
#[derive(Clone, Copy, Debug)]
pub(crate) struct Silent;

impl Wording for Silent {
    ghost line = { λ silent directive milestone. [] };

    fn add_line(
        &self,
        _text: &mut Vec<u8>,
        _directive: &Directive,
        _milestone: Milestone,
    ) -> Result<(), NoMemory> {
        Ok(())
    }
}

/// A sink that takes whatever it gets, and keeps nothing.
#[derive(Clone, Copy, Debug)]
pub(crate) struct Nowhere;

impl Sink for Nowhere {
    ghost state = { λ nowhere. record { written = None; faults = 0 } };

    fn put(&mut self, bytes: &[u8]) -> Result<usize, Failed> {
        Ok(bytes.len())
    }
}
