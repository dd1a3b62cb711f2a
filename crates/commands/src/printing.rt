ghost use Rattle.std.specs.Prelude.{◌≡◌, ◌++◌, None, slice_index_or, IfOk, OnOk};
ghost use Rattle.std.specs.List.{flat_map};
ghost use Rattle.commands.specs.Text.{text_of, line_of, made_line, meaning_line, replay_line, answers_line, head, label_part, kind_word, level_words, answer_word, about, IsShowable};
ghost use Rattle.commands.specs.Text.{beginning_line, settled_line, settled_lines, verdict_line};

use crate::checked::add_checked;
use crate::outcome::{Fault, Line, Outcome, Settled};
use crate::rows::row_of;
use crate::shown::Shown;
use psl_base::{Bytes, NoMemory, Place, Text, add_bytes, add_number};
use psl_tree::Kind;
use replay::Replay;
use std::alloc::Global;
use wave_judge::{Level, Verdict, level};

/// The bytes that are printed of an outcome: a line for each directive, and the valuations of the runs that were found.
/// These have a value for the signal of each column.
pub fn report(alloc: Global, outcome: &Outcome) -> Result<Bytes, NoMemory>
    requires { IsShowable outcome.now }
    ensures { IfOk result (λ text. text ≡ text_of outcome.now) }
{
    let mut text = Vec::new(alloc);
    match outcome {
        Outcome::Nothing => {}
        Outcome::Wave(verdicts, None) => add_verdicts(&mut text, verdicts.as_slice())?,
        Outcome::Wave(verdicts, Some(settled)) => {
            add_settled_verdicts(&mut text, verdicts.as_slice(), settled.as_slice())?;
        }
        Outcome::Findings {
            findings,
            columns,
            depth,
            visits,
        } => {
            let shown = Shown {
                columns: columns.as_slice(),
                depth: *depth,
                visits: *visits,
            };
            shown.add_entries(&mut text, findings.as_slice())?;
        }
        Outcome::Checked(number, checked) => add_checked(&mut text, *number, *checked)?,
        Outcome::Shown(lines) => add_meanings(&mut text, lines.as_slice())?,
        Outcome::Made(seed, samples, bytes, verdicts) => {
            add_made(&mut text, *seed, *samples, *bytes)?;
            add_verdicts(&mut text, verdicts.as_slice())?;
        }
        Outcome::Replayed(replay, samples, verdicts) => {
            add_replay(&mut text, replay, *samples)?;
            add_verdicts(&mut text, verdicts.as_slice())?;
        }
    }
    Ok(Bytes::from_vec(text))
}

/// The line of a fault.
pub fn fault_line(alloc: Global, fault: &Fault) -> Result<Bytes, NoMemory>
    ensures { IfOk result (λ line. line ≡ line_of fault.now) }
{
    let mut line = Vec::new(alloc);
    add_bytes(&mut line, b"pslc: ")?;
    add_about(
        &mut line,
        &fault.file,
        &fault.place,
        row_of(fault.reason).words,
    )?;
    add_label(&mut line, &fault.signal)?;
    add_bytes(&mut line, b"\n")?;
    Ok(Bytes::from_vec(line))
}

/// The name of a file, perhaps with a place, and what is said of it.
fn add_about(
    line: &mut Vec<u8>,
    file: &Option<Text>,
    place: &Option<Place>,
    words: &[u8],
) -> Result<(), NoMemory>
    ensures { OnOk result (line.new.items ≡ line.old.items ++ about file.now place.now words.now) }
{
    let Some(file) = file else {
        return add_bytes(line, words);
    };
    add_bytes(line, file.as_slice())?;
    if let Some(place) = place {
        add_bytes(line, b":")?;
        add_number(line, place.line as u64)?;
        add_bytes(line, b":")?;
        add_number(line, place.column as u64)?;
    }
    add_bytes(line, b": ")?;
    add_bytes(line, words)
}

/// The line that says what was made.
fn add_made(text: &mut Vec<u8>, seed: u64, samples: u32, bytes: u64) -> Result<(), NoMemory>
    ensures { OnOk result (text.new.items ≡ text.old.items ++ made_line seed samples bytes) }
{
    add_bytes(text, b"gen ")?;
    add_number(text, seed)?;
    add_bytes(text, b" ")?;
    add_number(text, samples as u64)?;
    add_bytes(text, b" bytes ")?;
    add_number(text, bytes)?;
    add_bytes(text, b"\n")
}

/// The line that says where a recording leaves a netlist, if it does.
fn add_replay(text: &mut Vec<u8>, replay: &Replay, samples: u32) -> Result<(), NoMemory>
    ensures { OnOk result (text.new.items ≡ text.old.items ++ replay_line replay.now samples) }
{
    match replay {
        Replay::Path => {
            add_bytes(text, b"replay: path samples ")?;
            add_number(text, samples as u64)?;
            add_bytes(text, b"\n")
        }
        Replay::Leaves(sample, _, name) => {
            add_bytes(text, b"replay: leaves at sample ")?;
            add_number(text, *sample as u64)?;
            add_bytes(text, b" signal ")?;
            add_bytes(text, name.as_slice())?;
            add_bytes(text, b"\n")
        }
    }
}

fn add_meanings(text: &mut Vec<u8>, lines: &[Line]) -> Result<(), NoMemory>
    ensures { OnOk result (text.new.items ≡ text.old.items ++ flat_map meaning_line lines.now) }
{
    for line in lines {
        add_meaning(text, line)?;
    }
    Ok(())
}

fn add_meaning(text: &mut Vec<u8>, meaning: &Line) -> Result<(), NoMemory>
    ensures { OnOk result (text.new.items ≡ text.old.items ++ meaning_line meaning.now) }
{
    add_head(text, meaning.kind, meaning.number, &meaning.label)?;
    add_bytes(text, meaning.text.as_slice())?;
    add_bytes(text, b" obligations ")?;
    add_number(text, meaning.obligations)?;
    add_bytes(text, b"\n")
}

fn add_verdicts(text: &mut Vec<u8>, verdicts: &[Verdict]) -> Result<(), NoMemory>
    ensures { OnOk result (text.new.items ≡ text.old.items ++ flat_map verdict_line verdicts.now) }
{
    for verdict in verdicts {
        add_verdict(text, verdict)?;
    }
    Ok(())
}

/// The same, and behind each from where on it is settled.
fn add_settled_verdicts(
    text: &mut Vec<u8>,
    verdicts: &[Verdict],
    settled: &[Option<Settled>],
) -> Result<(), NoMemory>
    ensures { OnOk result (text.new.items ≡ text.old.items ++ settled_lines verdicts.now settled.now) }
{
    for (place, verdict) in verdicts.iter().enumerate() {
        add_verdict(text, verdict)?;
        add_settled(text, settled_at(settled, place))?;
    }
    Ok(())
}

/// From where on the verdict of a place is settled, if it is.
fn settled_at(settled: &[Option<Settled>], place: usize) -> Option<Settled>
    ensures { result ≡ slice_index_or settled.now place None }
{
    if place < settled.len() {
        settled[place]
    } else {
        None
    }
}

/// The line that says from where on a verdict is settled, if it is.
fn add_settled(text: &mut Vec<u8>, settled: Option<Settled>) -> Result<(), NoMemory>
    ensures { OnOk result (text.new.items ≡ text.old.items ++ settled_line settled) }
{
    match settled {
        None => Ok(()),
        Some(settled) => add_beginning(text, settled),
    }
}

fn add_beginning(text: &mut Vec<u8>, settled: Settled) -> Result<(), NoMemory>
    ensures { OnOk result (text.new.items ≡ text.old.items ++ beginning_line settled) }
{
    match settled {
        Settled::Before => add_bytes(text, b"  settled before the first sample\n"),
        Settled::At { sample, time, line } => {
            add_bytes(text, b"  settled at sample ")?;
            add_number(text, sample as u64)?;
            add_bytes(text, b" time ")?;
            add_number(text, time)?;
            add_bytes(text, b" line ")?;
            add_number(text, line as u64)?;
            add_bytes(text, b"\n")
        }
    }
}

fn add_verdict(text: &mut Vec<u8>, verdict: &Verdict) -> Result<(), NoMemory>
    ensures { OnOk result (text.new.items ≡ text.old.items ++ verdict_line verdict.now) }
{
    add_head(text, verdict.kind, verdict.number, &verdict.label)?;
    add_answers(text, verdict)
}

/// Adds in which views a verdict holds.
pub(crate) fn add_answers(text: &mut Vec<u8>, verdict: &Verdict) -> Result<(), NoMemory>
    ensures { OnOk result (text.new.items ≡ text.old.items ++ answers_line verdict.now) }
{
    add_bytes(text, level_text(level(verdict)))?;
    add_bytes(text, b" (weak ")?;
    add_bytes(text, answer(verdict.weak))?;
    add_bytes(text, b", neutral ")?;
    add_bytes(text, answer(verdict.neutral))?;
    add_bytes(text, b", strong ")?;
    add_bytes(text, answer(verdict.strong))?;
    add_bytes(text, b")\n")
}

/// The head of a directive.
pub(crate) fn add_head(
    text: &mut Vec<u8>,
    kind: Kind,
    number: u32,
    label: &Option<Text>,
) -> Result<(), NoMemory>
    ensures { OnOk result (text.new.items ≡ text.old.items ++ head kind number label.now) }
{
    add_bytes(text, kind_text(kind))?;
    add_bytes(text, b" ")?;
    add_number(text, number as u64)?;
    add_label(text, label)?;
    add_bytes(text, b": ")
}

/// A blank and a label or a name, where there is one.
fn add_label(text: &mut Vec<u8>, label: &Option<Text>) -> Result<(), NoMemory>
    ensures { OnOk result (text.new.items ≡ text.old.items ++ label_part label.now) }
{
    match label {
        None => Ok(()),
        Some(label) => {
            add_bytes(text, b" ")?;
            add_bytes(text, label.as_slice())
        }
    }
}

fn kind_text(kind: Kind) -> &'static [u8]
    ensures { result.now ≡ kind_word kind }
{
    match kind {
        Kind::Assert => b"assert",
        Kind::Assume => b"assume",
        Kind::Cover => b"cover",
    }
}

fn level_text(level: Level) -> &'static [u8]
    ensures { result.now ≡ level_words level }
{
    match level {
        Level::HoldsStrongly => b"holds strongly",
        Level::Holds => b"holds",
        Level::Pending => b"pending",
        Level::Fails => b"fails",
    }
}

fn answer(yes: bool) -> &'static [u8]
    ensures { result.now ≡ answer_word yes }
{
    if yes { b"yes" } else { b"no" }
}
