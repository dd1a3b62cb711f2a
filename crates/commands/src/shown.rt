// What is printed of findings.
ghost use Rattle.std.specs.Prelude.{◌≡◌, ◌++◌, ◌<◌, length, All, OnOk};
ghost use Rattle.std.specs.List.{flat_map};
ghost use Rattle.commands.specs.Text.{depth_line, digit, entry_text, finding_text, held_line, held_text, judged_lines, lengths_line, recorded_lines, proved_word, run_text, run_word, steps_line, valuation_line, valuation_lines, value_part};
ghost use Rattle.findings.specs.Columns.{HasColumns, ShowColumns, ShowsColumns};
ghost use Rattle.netlist.specs.Valuations.{bit};

use crate::printing::{add_answers, add_head};
use findings::{FindingEntry, Recorded};
use netlist::{Run, Valuations};
use prover::Finding;
use psl_base::{Bits, NoMemory, Text, add_bytes, add_number};
use psl_tree::{Kind, Name};
use wave_judge::Verdict;

/// By what findings are shown: the signals whose values are shown of a run, and how far a proof was sought.
#[derive(Clone, Copy)]
pub(crate) struct Shown<'a> {
    pub columns: &'a [Name],
    pub depth: u32,
    pub visits: u32,
}

impl<'a> Shown<'a> {
    /// Adds the lines of findings.
    pub fn add_entries(self, text: &mut Vec<u8>, entries: &[FindingEntry]) -> Result<(), NoMemory>
        requires { ShowColumns self.columns.now entries.now }
        ensures { OnOk result (text.new.items ≡ text.old.items
            ++ flat_map (entry_text self.entry.columns.now self.entry.depth self.entry.visits) entries.now) }
    {
        for entry in entries {
            self.add_entry(text, entry)?;
        }
        Ok(())
    }

    /// Adds the lines of a finding, with the head of its directive.
    fn add_entry(self, text: &mut Vec<u8>, entry: &FindingEntry) -> Result<(), NoMemory>
        requires { ShowsColumns self.columns.now entry.now.finding }
        ensures { OnOk result (text.new.items ≡ text.old.items
            ++ entry_text self.entry.columns.now self.entry.depth self.entry.visits entry.now) }
    {
        add_head(text, entry.kind, entry.number, &entry.label)?;
        self.add_finding(text, entry.kind, &entry.finding)?;
        add_recorded(text, &entry.recorded)
    }

    /// Adds what a finding says of a directive of this kind.
    fn add_finding(self, text: &mut Vec<u8>, kind: Kind, finding: &Finding) -> Result<(), NoMemory>
        requires { ShowsColumns self.columns.now finding.now }
        ensures { OnOk result (text.new.items ≡ text.old.items
            ++ finding_text kind self.entry.columns.now self.entry.depth self.entry.visits finding.now) }
    {
        match finding {
            Finding::Proved(certificate) => {
                add_bytes(text, proved_text(kind))?;
                add_bytes(text, b" visits ")?;
                add_number(text, u64::from(certificate.visits))?;
                add_bytes(text, b" window ")?;
                add_number(text, u64::from(certificate.window))?;
                add_bytes(text, b"\n")
            }
            Finding::ProvedReach(certificate) => {
                add_bytes(text, proved_text(kind))?;
                add_bytes(text, b" visits ")?;
                add_number(text, u64::from(certificate.visits))?;
                add_bytes(text, b" clauses ")?;
                add_number(text, certificate.clauses.len() as u64)?;
                add_bytes(text, b"\n")
            }
            Finding::Violated(run) => self.add_run(text, kind, run),
            Finding::Held(path, _) => self.add_held(text, kind, path),
            Finding::Depth(_) | Finding::DepthReach(_, _) => self.add_depth(text),
            Finding::Steps(_, log) => add_steps(text, log.lemmas() as u64),
            Finding::LogFull(_, _) => add_bytes(text, b"undecided log\n"),
            Finding::Large(_) => add_bytes(text, b"undecided formula\n"),
        }
    }

    /// Adds that neither a proof nor a run was found.
    fn add_depth(self, text: &mut Vec<u8>) -> Result<(), NoMemory>
        ensures { OnOk result (text.new.items ≡ text.old.items ++ depth_line self.entry.depth self.entry.visits) }
    {
        add_bytes(text, b"undecided depth ")?;
        add_number(text, u64::from(self.depth))?;
        add_bytes(text, b" visits ")?;
        add_number(text, u64::from(self.visits))?;
        add_bytes(text, b"\n")
    }

    /// Adds how long the stem and the loop of a run are, and the lines of its valuations.
    fn add_run(self, text: &mut Vec<u8>, kind: Kind, run: &Run) -> Result<(), NoMemory>
        requires stem { All (HasColumns self.columns.now) run.now.stem }
        requires looped { All (HasColumns self.columns.now) run.now.loop_part }
        ensures { OnOk result (text.new.items ≡ text.old.items ++ run_text kind self.entry.columns.now run.now) }
    {
        add_lengths(text, kind, run)?;
        self.add_valuations(text, b"stem", run.stem.as_slice())?;
        self.add_valuations(text, b"loop", run.loop_part.as_slice())
    }

    /// Adds how long a path is behind which the inputs are held, and the lines of its valuations.
    fn add_held(self, text: &mut Vec<u8>, kind: Kind, path: &Valuations) -> Result<(), NoMemory>
        requires { All (HasColumns self.columns.now) path.now }
        ensures { OnOk result (text.new.items ≡ text.old.items ++ held_text kind self.entry.columns.now path.now) }
    {
        add_held_length(text, kind, path)?;
        self.add_valuations(text, b"stem", path.as_slice())
    }

    /// Adds the lines of the valuations of a part of a run.
    fn add_valuations(
        self,
        text: &mut Vec<u8>,
        part: &[u8],
        valuations: &[Bits],
    ) -> Result<(), NoMemory>
        requires { All (HasColumns self.columns.now) valuations.now }
        ensures { OnOk result (text.new.items ≡ text.old.items
            ++ valuation_lines part.now self.entry.columns.now 0 valuations.now) }
    {
        for place in 0..valuations.len() {
            self.add_valuation(text, part, place, &valuations[place])?;
        }
        Ok(())
    }

    /// Adds the line of a valuation at a place of a part of a run.
    fn add_valuation(
        self,
        text: &mut Vec<u8>,
        part: &[u8],
        place: usize,
        valuation: &Bits,
    ) -> Result<(), NoMemory>
        requires { HasColumns self.columns.now valuation.now }
        ensures { OnOk result (text.new.items ≡ text.old.items
            ++ valuation_line part.now self.entry.columns.now place valuation.now) }
    {
        add_bytes(text, b"  ")?;
        add_bytes(text, part)?;
        add_bytes(text, b" ")?;
        add_number(text, place as u64)?;
        add_bytes(text, b":")?;
        self.add_values(text, valuation)?;
        add_bytes(text, b"\n")
    }

    /// Adds the value of each column.
    fn add_values(self, text: &mut Vec<u8>, valuation: &Bits) -> Result<(), NoMemory>
        requires { HasColumns self.columns.now valuation.now }
        ensures { OnOk result (text.new.items ≡ text.old.items ++ flat_map (value_part valuation.now) self.entry.columns.now) }
    {
        for column in self.columns {
            add_value(text, valuation, column)?;
        }
        Ok(())
    }
}

/// What is said of a directive of this kind of which a proof was found.
fn proved_text(kind: Kind) -> &'static [u8]
    ensures { result.now ≡ proved_word kind }
{
    match kind {
        Kind::Assert | Kind::Assume => b"proved",
        Kind::Cover => b"unreachable",
    }
}

/// What is said of a directive of this kind of which a run was found.
fn run_text(kind: Kind) -> &'static [u8]
    ensures { result.now ≡ run_word kind }
{
    match kind {
        Kind::Assert | Kind::Assume => b"violated",
        Kind::Cover => b"covered",
    }
}

/// Adds the line that says how long the stem and the loop of a run are.
fn add_lengths(text: &mut Vec<u8>, kind: Kind, run: &Run) -> Result<(), NoMemory>
    ensures { OnOk result (text.new.items ≡ text.old.items ++ lengths_line kind run.now) }
{
    add_bytes(text, run_text(kind))?;
    add_bytes(text, b" stem ")?;
    add_number(text, run.stem.len() as u64)?;
    add_bytes(text, b" loop ")?;
    add_number(text, run.loop_part.len() as u64)?;
    add_bytes(text, b"\n")
}

/// Adds the line that says how long a path is behind which the inputs are held.
fn add_held_length(text: &mut Vec<u8>, kind: Kind, path: &Valuations) -> Result<(), NoMemory>
    ensures { OnOk result (text.new.items ≡ text.old.items ++ held_line kind path.now) }
{
    add_bytes(text, run_text(kind))?;
    add_bytes(text, b" stem ")?;
    add_number(text, path.len() as u64)?;
    add_bytes(text, b" held\n")
}

/// Adds the line that says how many lemmas the solver learned.
fn add_steps(text: &mut Vec<u8>, steps: u64) -> Result<(), NoMemory>
    ensures { OnOk result (text.new.items ≡ text.old.items ++ steps_line steps) }
{
    add_bytes(text, b"undecided steps ")?;
    add_number(text, steps)?;
    add_bytes(text, b"\n")
}

/// Adds the lines of what is recorded of a run, where something is.
fn add_recorded(text: &mut Vec<u8>, recorded: &Option<Recorded>) -> Result<(), NoMemory>
    ensures { OnOk result (text.new.items ≡ text.old.items ++ recorded_lines recorded.now) }
{
    match recorded {
        None => Ok(()),
        Some(Recorded::TooLong) => add_bytes(text, b"  recording too long\n"),
        Some(
            Recorded::Judged {
                name,
                samples,
                verdict,
                text: _,
            },
        ) => add_judged(text, name, *samples, verdict),
    }
}

/// Adds the lines of a recording that was judged.
fn add_judged(
    text: &mut Vec<u8>,
    name: &Text,
    samples: u32,
    verdict: &Verdict,
) -> Result<(), NoMemory>
    ensures { OnOk result (text.new.items ≡ text.old.items ++ judged_lines name.now samples verdict.now) }
{
    add_bytes(text, b"  recording ")?;
    add_bytes(text, name.as_slice())?;
    add_bytes(text, b" samples ")?;
    add_number(text, samples as u64)?;
    add_bytes(text, b"\n  judged ")?;
    add_answers(text, verdict)
}

/// Adds the value of a column, behind its name.
fn add_value(text: &mut Vec<u8>, valuation: &Bits, column: &Name) -> Result<(), NoMemory>
    requires { column.now.signal < length valuation.now }
    ensures { OnOk result (text.new.items ≡ text.old.items ++ value_part valuation.now column.now) }
{
    add_bytes(text, b" ")?;
    add_bytes(text, column.text.as_slice())?;
    add_bytes(text, b"=")?;
    add_bytes(text, digit_text(value_of(valuation, column.signal)))
}

/// The value of a signal.
fn value_of(valuation: &Bits, signal: u32) -> bool
    requires { signal < length valuation.now }
    ensures { result ≡ bit valuation.now signal }
{
    valuation.as_slice()[signal as usize]
}

fn digit_text(value: bool) -> &'static [u8]
    ensures { result.now ≡ digit value }
{
    if value { b"1" } else { b"0" }
}
