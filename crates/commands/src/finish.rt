ghost use Rattle.std.specs.Prelude.{◌≡◌, ◌⊎◌, [], map, None, Some, IfOk, IfErr, OnOk, OnErr};
ghost use Rattle.std.specs.List.{list_all, list_any};
ghost use Rattle.std.specs.Result.{ForOk, ForErr};
ghost use Rattle.psl_base.specs.Faults.{Rose};
ghost use Rattle.psl_base.specs.Shelf.{OnlyWrites};
ghost use Rattle.psl_base.specs.Sink.{AddsAll, SinkState};
ghost use Rattle.commands.specs.Endings.{status_of, answer_status, outcome_status, fails_as, findings_status, replay_status, succeeds_as, verdicts_status, passes, may_be_no, IsUnwritten, IsToTell, Prints, AddsSome, EndsWith, EndsFaulted};
ghost use Rattle.commands.specs.Faults.{of_none, fault_of};
ghost use Rattle.commands.specs.Saved.{FailsPlanned, HasSaved, WritingFails};
ghost use Rattle.commands.specs.Text.{text_of, line_of};
ghost use Rattle.psl_base.specs.Saves.{SavesAll, SavesPart, file_of};

use crate::faults::of_none;
use crate::outcome::{Fault, Outcome, Report};
use crate::printing::fault_line;
use crate::reason::Reason;
use crate::rows::row_of;
use cert_check::CertAnswer;
use findings::FindingEntry;
use prover::Finding;
use psl_base::{Bytes, Failed, Save, Saves, Shelf, Sink, put_all, save_all};
use psl_tree::Kind;
use replay::Replay;
use std::alloc::Global;
use wave_judge::Verdict;

/// What a run found out, the files that are to be written of it, and the text that is to be printed.
#[derive(Debug, Drop)]
pub struct Planned {
    pub outcome: Outcome,
    pub saves: Saves,
    pub text: Bytes,
}

/// Writes the files of an outcome and prints its text, or a fault's line, and tells how the run ended. Once something is
/// written, no memory is taken.
pub fn finish<F: Shelf, O: Sink, E: Sink>(
    alloc: Global,
    planned: Result<Planned, Fault>,
    files: &mut F,
    out: &mut O,
    err: &mut E,
) -> Report
    requires text { ForOk planned (λ made. made.text ≡ text_of made.outcome) }
    requires unwritten { ForErr planned (λ fault. IsUnwritten fault) }

    ensures status { result.status ≡ status_of result.outcome result.fault }
    ensures printed { Prints (FailsPlanned planned (F.state files.old) (F.state files.new)) (IsToTell (fault_of planned)) result.outcome result.fault (O.state out.old) (O.state out.new) (E.state err.old) (E.state err.new) }
    ensures made { IfOk planned (λ made. EndsWith made.outcome result.outcome result.fault (of_none Reason.WriteFault)
        (Rose (O.state out.old).faults (O.state out.new).faults ⊎ SavesPart (map file_of made.saves) (F.state files.old) (F.state files.new))) }
    ensures saved { IfOk planned (λ made. HasSaved (map file_of made.saves) result.fault (F.state files.old) (F.state files.new)) }
    ensures untouched { IfErr planned (λ _. F.state files.new ≡ F.state files.old) }
    ensures faulted { IfErr planned (λ fault. EndsFaulted fault result.outcome result.fault (of_none Reason.NoMemory) (of_none Reason.WriteFault) (Rose (E.state err.old).faults (E.state err.new).faults)) }
{
    match planned {
        Ok(made) => finish_outcome(made, files, out, err),
        Err(fault) => finish_fault(alloc, fault, err),
    }
}

fn finish_outcome<F: Shelf, O: Sink, E: Sink>(
    made: Planned,
    files: &mut F,
    out: &mut O,
    err: &mut E,
) -> Report
    requires text { made.text ≡ text_of made.outcome }

    ensures status { result.status ≡ status_of result.outcome result.fault }
    ensures printed { Prints (SavesPart (map file_of made.saves) (F.state files.old) (F.state files.new)) (λ _. ⊥) result.outcome result.fault
        (O.state out.old) (O.state out.new) (E.state err.old) (E.state err.new) }
    ensures made { EndsWith made.outcome result.outcome result.fault (of_none Reason.WriteFault)
        (Rose (O.state out.old).faults (O.state out.new).faults ⊎ SavesPart (map file_of made.saves) (F.state files.old) (F.state files.new)) }
    ensures saved { HasSaved (map file_of made.saves) result.fault (F.state files.old) (F.state files.new) }
{
    let Planned {
        outcome,
        saves,
        text,
    } = made;
    if let Err(_) = write(saves.as_slice(), files, text.as_slice(), out) {
        tell_write_fault(err);
        return Report {
            status: 4,
            outcome,
            fault: Some(of_none(Reason::WriteFault)),
        };
    }
    Report {
        status: status_of_outcome(&outcome),
        outcome,
        fault: None,
    }
}

/// Writes files, and then a text.
fn write<F: Shelf, O: Sink>(
    saves: &[Save],
    files: &mut F,
    text: &[u8],
    out: &mut O,
) -> Result<(), Failed>
    ensures saved { OnOk result (SavesAll (map file_of saves.now) (F.state files.old) (F.state files.new)) }
    ensures printed { OnOk result (AddsAll text.now (O.state out.old) (O.state out.new)) }
    ensures failed { OnErr result (WritingFails (map file_of saves.now) text.now (F.state files.old) (F.state files.new) (O.state out.old) (O.state out.new)) }
    ensures rest { OnlyWrites (F.state files.old) (F.state files.new) }
    ensures none { saves.now ≡ [] → F.state files.new ≡ F.state files.old }
{
    save_all(files, saves)?;
    put_all(out, text)
}

fn tell_write_fault<E: Sink>(err: &mut E)
    ensures { AddsSome (line_of (of_none Reason.WriteFault)) (E.state err.old) (E.state err.new) }
{
    let _ = put_all(err, b"pslc: write fault\n");
}

fn finish_fault<E: Sink>(alloc: Global, fault: Fault, err: &mut E) -> Report
    requires unwritten { IsUnwritten fault }

    ensures status { result.status ≡ status_of result.outcome result.fault }
    ensures printed { (out : SinkState) → Prints ⊥ (IsToTell (Some fault)) result.outcome result.fault out out (E.state err.old) (E.state err.new) }
    ensures faulted { EndsFaulted fault result.outcome result.fault (of_none Reason.NoMemory) (of_none Reason.WriteFault) (Rose (E.state err.old).faults (E.state err.new).faults) }
{
    match fault_line(alloc, &fault) {
        Ok(line) => tell(fault, line.as_slice(), err),
        Err(_) => tell(of_none(Reason::NoMemory), b"pslc: no memory\n", err),
    }
}

fn tell<E: Sink>(fault: Fault, line: &[u8], err: &mut E) -> Report
    requires unwritten { IsUnwritten fault }
    requires line { line.now ≡ line_of fault }

    ensures status { result.status ≡ status_of result.outcome result.fault }
    ensures printed { (out : SinkState) → Prints ⊥ (λ other. other ≡ fault) result.outcome result.fault out out (E.state err.old) (E.state err.new) }
    ensures faulted { EndsFaulted fault result.outcome result.fault (of_none Reason.NoMemory) (of_none Reason.WriteFault) (Rose (E.state err.old).faults (E.state err.new).faults) }
{
    match put_all(err, line) {
        Ok(()) => Report {
            status: row_of(fault.reason).status,
            outcome: Outcome::Nothing,
            fault: Some(fault),
        },
        Err(_) => Report {
            status: 4,
            outcome: Outcome::Nothing,
            fault: Some(of_none(Reason::WriteFault)),
        },
    }
}

fn status_of_outcome(outcome: &Outcome) -> u8
    ensures { result ≡ outcome_status outcome.now }
{
    match outcome {
        Outcome::Nothing | Outcome::Shown(_) => 0,
        Outcome::Checked(_, checked) => status_of_answer(checked.answer),
        Outcome::Findings { findings, .. } => status_of_findings(findings.as_slice()),
        Outcome::Replayed(replay, _, verdicts) => status_of_replay(replay, verdicts.as_slice()),
        Outcome::Wave(verdicts, _) | Outcome::Made(_, _, _, verdicts) => {
            status_of_verdicts(verdicts.as_slice())
        }
    }
}

fn status_of_replay(replay: &Replay, verdicts: &[Verdict]) -> u8
    ensures { result ≡ replay_status replay.now verdicts.now }
{
    match replay {
        Replay::Path => status_of_verdicts(verdicts),
        Replay::Leaves(_, _, _) => 1,
    }
}

fn status_of_verdicts(verdicts: &[Verdict]) -> u8
    ensures { result ≡ verdicts_status verdicts.now }
{
    if all_pass(verdicts) { 0 } else { 1 }
}

fn all_pass(verdicts: &[Verdict]) -> bool
    ensures { result ≡ list_all passes verdicts.now }
{
    verdicts.iter().all(|verdict| passes(verdict))
}

fn passes(verdict: &Verdict) -> bool
    ensures { result ≡ passes verdict.now }
{
    verdict.neutral || verdict.kind as u8 == Kind::Cover as u8
}

fn status_of_answer(answer: CertAnswer) -> u8
    ensures { result ≡ answer_status answer }
{
    match answer {
        CertAnswer::Passed => 0,
        CertAnswer::Refused(_, _) => 1,
    }
}

fn status_of_findings(entries: &[FindingEntry]) -> u8
    ensures { result ≡ findings_status entries.now }
{
    if some_fail(entries) {
        1
    } else if all_succeed(entries) {
        0
    } else {
        6
    }
}

fn some_fail(entries: &[FindingEntry]) -> bool
    ensures { result ≡ list_any (λ entry. fails_as entry.kind entry.finding) entries.now }
{
    entries
        .iter()
        .any(|entry| fails_as(entry.kind, &entry.finding))
}

fn all_succeed(entries: &[FindingEntry]) -> bool
    ensures { result ≡ list_all (λ entry. succeeds_as entry.kind entry.finding) entries.now }
{
    entries
        .iter()
        .all(|entry| succeeds_as(entry.kind, &entry.finding))
}

fn fails_as(kind: Kind, finding: &Finding) -> bool
    ensures { result ≡ fails_as kind finding.now }
{
    match kind {
        Kind::Assert | Kind::Assume => finding.is_violated(),
        Kind::Cover => finding.is_proved(),
    }
}

fn succeeds_as(kind: Kind, finding: &Finding) -> bool
    ensures { result ≡ succeeds_as kind finding.now }
{
    match kind {
        Kind::Assert | Kind::Assume => finding.is_proved(),
        Kind::Cover => finding.is_violated(),
    }
}
