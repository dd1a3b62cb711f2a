// The lines of a section.
ghost use Rattle.std.specs.Prelude.{◌≡◌, ℕ, ◌+◌, ◌<◌, ◌≤◌, List, [], length, IfOk, OnOk, if◌then◌else◌};
ghost use Rattle.psl_base.specs.Places.{file_limit};
ghost use Rattle.cert_theory.specs.Lines as lines;
ghost use Rattle.cert_theory.specs.Sections.{Query, drops_in};
ghost use Rattle.clauses.specs.Entries.{entry_of};
ghost use Rattle.clauses.specs.Logs.{LogEntry, is_empty_lemma};
ghost use Rattle.cert_lines.specs.Sections.{Becomes, Holds, at_end, query_of, step_of, taken_bytes};

use cert_theory::{CertReason, Form, Header, Section, Version};
use clause_log::{LogChecker, Step};
use clause_text::{LineRoom, read_entry};
use clauses::{Cnf, Entry};
use psl_base::NoMemory;
use std::alloc::Global;

/// What becomes of a line of a section, or of one among the clauses.
#[derive(Clone, Copy, Debug, PartialEq, Eq, Drop)]
pub(crate) enum LineStep {
    /// Its entry or its clause is taken.
    Taken,
    /// It ends the section or the clauses.
    End,
    /// It is refused.
    Refused(CertReason),
}

/// A section whose lines are checked one after another.
#[derive(Drop)]
pub(crate) struct SectionChecker<'a> {
    pub(crate) header: Header,
    pub(crate) section: Section,
    pub(crate) checker: LogChecker<'a>,
    // Whether the empty lemma was taken.
    pub(crate) ended: bool,
}

impl<'a> SectionChecker<'a> {
    /// A section of which nothing was taken.
    pub(crate) fn new(
        alloc: Global,
        header: Header,
        section: Section,
        formula: &'a Cnf,
    ) -> Result<SectionChecker<'a>, NoMemory>
        ensures holds { IfOk result (Holds (query_of formula.now) []) }
        ensures header { IfOk result (λ made. made.header ≡ header) }
        ensures section { IfOk result (λ made. made.section ≡ section) }
        ensures room { IfOk result (λ made. taken_bytes made ≡ 0) }
    {
        Ok(SectionChecker {
            header,
            section,
            checker: LogChecker::new(alloc, formula, header.live)?,
            ended: false,
        })
    }

    /// Takes a line, without its line feed.
    pub(crate) fn take(&mut self, line: &[u8], room: &mut LineRoom) -> Result<LineStep, NoMemory>
        requires { taken_bytes self.old + length line.now < file_limit }
        ensures becomes { IfOk result (λ step. (query : Query) (entries : List LogEntry) → Holds query entries self.old
            → Becomes self.old query entries line.now step self.new) }
        ensures header { OnOk result (self.new.header ≡ self.old.header) }
        ensures section { OnOk result (self.new.section ≡ self.old.section) }
        ensures room { OnOk result (taken_bytes self.new ≤ taken_bytes self.old + length line.now + 1) }
    {
        if line == end_line(self.section) {
            return Ok(at_end(self.ended));
        }
        let Some(entry) = read_entry(line, drops_in(self.header.form), room)? else {
            return Ok(LineStep::Refused(CertReason::BadLine));
        };
        if self.ended {
            return Ok(LineStep::Refused(CertReason::BadLine));
        }
        self.ended = is_empty(entry);
        let step = self.checker.take(entry)?;
        Ok(step_of(step))
    }
}

/// What becomes of the word at the end of a section, behind the empty lemma or not.
fn at_end(ended: bool) -> LineStep
    ensures { result ≡ at_end ended }
{
    if ended {
        LineStep::End
    } else {
        LineStep::Refused(CertReason::NoEmptyClause)
    }
}

/// What becomes of the line of an entry, by what the checker of the log answers.
fn step_of(step: Step) -> LineStep
    ensures { result ≡ step_of step }
{
    match step {
        Step::Passes => LineStep::Taken,
        Step::Fails => LineStep::Refused(CertReason::LemmaFails),
        Step::TooManyLive => LineStep::Refused(CertReason::TooManyLive),
        Step::BadDrop => LineStep::Refused(CertReason::BadDrop),
    }
}

/// Whether an entry is the empty lemma.
fn is_empty(entry: Entry<'_>) -> bool
    ensures { result ≡ is_empty_lemma (entry_of entry.entry) }
{
    match entry {
        Entry::Lemma { literals, .. } => literals.is_empty(),
        Entry::Forget(_) => false,
    }
}

/// The word that ends a section.
fn end_line(section: Section) -> &'static [u8]
    ensures { result.now ≡ lines.end_line section }
{
    match section {
        Section::Base => b"induction",
        Section::Induction => b"end",
        Section::Initial => b"step",
        Section::Step => b"bad",
        Section::Bad => b"end",
    }
}

/// Whether drops have lines.
fn drops_in(form: Form) -> bool
    ensures { result ≡ drops_in form }
{
    match form {
        Form::Windowed(Version::One) => false,
        Form::Windowed(Version::Two) => true,
        Form::Clausal => true,
    }
}
