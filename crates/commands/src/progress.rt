// In which words it is told how far `prove` has come.
ghost use Rattle.std.specs.Prelude.{◌≡◌, ◌++◌, OnOk};
ghost use Rattle.commands.specs.Progress.{against_word, milestone_text, progress_line};

use crate::printing::add_head;
use prover::{Milestone, Wording};
use psl_base::{NoMemory, add_bytes, add_number};
use psl_tree::{Directive, Kind};

/// The lines of `--progress`: a line for each milestone where that is asked for, and else none.
#[derive(Clone, Copy, Debug)]
pub struct Progress {
    pub asked: bool,
}

impl Wording for Progress {
    ghost line = { λ progress directive milestone. progress_line progress.asked directive milestone };

    fn add_line(
        &self,
        text: &mut Vec<u8>,
        directive: &Directive,
        milestone: Milestone,
    ) -> Result<(), NoMemory> {
        if !self.asked {
            return Ok(());
        }
        add_bytes(text, b"pslc: ")?;
        add_head(text, directive.kind, directive.number, &directive.label)?;
        add_milestone(text, directive.kind, milestone)?;
        add_bytes(text, b"\n")
    }
}

/// Adds what a milestone says of a directive of this kind.
fn add_milestone(text: &mut Vec<u8>, kind: Kind, milestone: Milestone) -> Result<(), NoMemory>
    ensures { OnOk result (text.new.items ≡ text.old.items ++ milestone_text kind milestone) }
{
    match milestone {
        Milestone::NoneWithin(size) => {
            add_bytes(text, b"no run of up to ")?;
            add_number(text, size as u64)?;
            add_bytes(text, b" valuations ")?;
            add_bytes(text, against(kind))
        }
        Milestone::Open(window, visits) => {
            add_bytes(text, b"open at window ")?;
            add_number(text, window as u64)?;
            add_bytes(text, b" visits ")?;
            add_number(text, visits as u64)
        }
        Milestone::Frames(visits, count) => {
            add_bytes(text, b"frames ")?;
            add_number(text, count.frames as u64)?;
            add_bytes(text, b" clauses ")?;
            add_number(text, count.clauses as u64)?;
            add_bytes(text, b" visits ")?;
            add_number(text, visits as u64)
        }
    }
}

/// What no run of some size does: it violates an assertion, and meets a cover.
fn against(kind: Kind) -> &'static [u8]
    ensures { result.now ≡ against_word kind }
{
    match kind {
        Kind::Assert | Kind::Assume => b"violates it",
        Kind::Cover => b"meets it",
    }
}
