ghost use Rattle.std.specs.Prelude.{◌≡◌, ◌≢◌, ◌⊎◌, ◌<◌, ◌≤◌, ℕ, List, Option, map, None, Some, IfOk, IfErr, IfSome, OnErr, string_bytes};
ghost use Rattle.std.specs.Result.{ForOk};
ghost use Rattle.psl_base.specs.Faults.{Rose};
ghost use Rattle.psl_base.specs.Shelf.{Contents, OnlyReads};
ghost use Rattle.command_line.specs.Commands.{meaning_of};
ghost use Rattle.command_line.specs.Commands.Meaning.{wave as a_wave, show as a_show, show_netlist as a_netlist, prove as a_proof, check as a_check, replay as a_replay};
ghost use Rattle.command_line.specs.Evidences.{evidence_of};
ghost use Rattle.command_line.specs.Ranges.{AreInRange, IsInRange};
ghost use Rattle.commands.specs.Commands.{FirstRefusal, HadToTell, IsCommand, IsOfCommand, IsOutcomeOf, IsNamed, IsNoCommand};
ghost use Rattle.commands.specs.Endings.{status_of, Explained, IsOutOfMemory, IsDeviceStatus};
ghost use Rattle.commands.specs.Faults.{of_none};
ghost use Rattle.commands.specs.Planning.{IsAnswer};
ghost use Rattle.commands.specs.Progress.{PrintsAll, Progresses, StopsTelling};
ghost use Rattle.commands.specs.Saved.{AreToWrite, FailsToWrite, IsSavedBy, files_of_outcome, wanted_of};
ghost use Rattle.commands.specs.Stages.{OfTold, IsUnread};
ghost use Rattle.commands.specs.Text.{text_of, IsShowable};
ghost use Rattle.psl_base.specs.Saves.{file_of};
ghost use Rattle.vcd_reader.specs.Rules.{sample_limit};

use crate::check::{Question, check};
use crate::faults::of_none;
use crate::finish::{Planned, finish};
use crate::generated::generate;
use crate::outcome::{Fault, Outcome, Report};
use crate::printing::report;
use crate::prove::{Request, prove};
use crate::reason::Reason;
use crate::replayed::replay_files;
use crate::saves::saves_of;
use crate::show::{show, show_netlist};
use crate::wave::{unknown_of, wave};
use command_line::{Command, Evidence, Unknown, WordsFault, one_command, read_words};
use psl_base::{Failed, Shelf, Sink};
use std::alloc::Global;
use vcd_reader::SAMPLE_LIMIT;

/// Runs the command that the words after the program's name give. It reads files, writes those of evidence where that
/// is asked for, prints what it finds out on `out` or a fault's line on `err`, and tells how it ended. Where `prove` is
/// asked for it, lines on `err` tell how far it has come, before anything else is written.
pub fn run<F: Shelf, O: Sink, E: Sink>(
    alloc: Global,
    words: &[String],
    files: &mut F,
    out: &mut O,
    err: &mut E,
) -> Report
    // The status follows from what was found out and the fault: without one it is 1 exactly where some assert or
    // assume is neutral no, some assertion is violated, some cover cannot be met, the certificate is refused or the
    // recording leaves the netlist, else 6 where some assertion or cover is undecided, else 0.
    ensures status { result.status ≡ status_of result.outcome result.fault }

    // Each fault has its cause; without one, nothing that is told is refused. Writing has failed only where the count of
    // an output rose, or where a certificate or a recording was to be written and the count of writing rose.
    ensures cause { Explained (Rose (O.state out.old).faults (O.state out.new).faults ⊎ (Rose (E.state err.old).faults (E.state err.new).faults
        ⊎ FailsToWrite (map string_bytes words.now) result.outcome (F.state files.old) (F.state files.new)))
        (F.state files.old) (F.state files.new) (FirstRefusal (map string_bytes words.now)) result.fault }

    // Words that are no command are told so, whatever the files tell, unless that cannot be written.
    ensures no_command { IsNoCommand (map string_bytes words.now) → (result.fault ≡ Some (of_none Reason.Usage)) ⊎ ((result.fault ≡ Some (of_none Reason.WriteFault)) ⊎ (result.fault ≡ Some (of_none Reason.NoMemory))) }

    // A fault of a file names one that the words name. One of reading has no place, and after it no other file is selected
    // than the one that it names. A signal is named only where one is missing.
    ensures named { IfSome result.fault (IsNamed (map string_bytes words.now)) }
    ensures unread { IfSome result.fault (IsUnread (F.state files.new)) }

    // Whatever the files tell, the outcome is one of the command that the words are, with points of verdicts just where
    // these are asked for, and that of `gen` is exact.
    ensures command { IsOfCommand (map string_bytes words.now) result.outcome }

    // The verdicts are satisfaction of the sampled word in the three views, the lines what the directives mean, and each
    // finding has its evidence, where what is owed of a cover is that it is not met: a shortest run that violates what is
    // owed; or a path such that each run which begins with it
    // and then holds its inputs violates it, with how the search for a run whose loop closes ended; or a certificate, of a
    // window or of clauses, and all runs satisfy it; or the limit that was met, and no run that was looked for violates it,
    // with how each search for clauses ended where they are sought. What is answered to a certificate is its first refusal,
    // or that it has none, and then all runs satisfy what is owed.
    ensures outcome { OfTold (F.state files.old) (λ told. IsOutcomeOf (map string_bytes words.now) told result.outcome) }

    // Without a fault something was found out, and with one nothing, unless it is of writing.
    ensures found { result.fault ≡ None → result.outcome ≢ Outcome.Nothing }
    ensures nothing { IfSome result.fault (λ fault. (fault.reason ≡ Reason.WriteFault) ⊎ (result.outcome ≡ Outcome.Nothing)) }

    // While `prove` works, the lines of `--progress` are added to `err`, each of which holds of the contents that are told;
    // without that option, and with another command, none is. Behind them the outcome's text is printed whole, or the
    // fault's line, or their first bytes, or those of the line of a fault that was to be told. Once a line of progress
    // cannot be written, the run ends with a fault of writing, and nothing else is printed.
    ensures printed { PrintsAll (map string_bytes words.now) (F.state files.old) (FailsToWrite (map string_bytes words.now) result.outcome (F.state files.old) (F.state files.new))
        (HadToTell (map string_bytes words.now) (F.state files.old) (F.state files.new)) result.outcome result.fault (O.state out.old) (O.state out.new) (E.state err.old) (E.state err.new) }

    // A count that is larger after the run than before it comes with the status of such a fault.
    ensures counted { ((F.state files.old).read_faults < (F.state files.new).read_faults)
        ⊎ (((F.state files.old).write_faults < (F.state files.new).write_faults)
        ⊎ (((O.state out.old).faults < (O.state out.new).faults) ⊎ ((E.state err.old).faults < (E.state err.new).faults)))
        → IsDeviceStatus result.status }

    // Where all contents are told and nothing fails, the answer is the first refusal, or that there is
    // none; want of memory alone may come instead.
    ensures complete { (told : Contents) → (F.state files.old).told ≡ Some told → (Rose (F.state files.old).read_faults (F.state files.new).read_faults → ⊥)
        → (Rose (F.state files.old).write_faults (F.state files.new).write_faults → ⊥)
        → (Rose (O.state out.old).faults (O.state out.new).faults → ⊥) → (Rose (E.state err.old).faults (E.state err.new).faults → ⊥)
        → FirstRefusal (map string_bytes words.now) told result.fault ⊎ IsOutOfMemory result.fault }

    // Where prefixes are given, the certificate of each proof is written to its name, `PREFIX.N.cert`, and the recording
    // of each run that is not too long to its own, `PREFIX.N.vcd`, and every other content is as before;
    // with a fault of writing the first ones are, in the order of the directives, and the next may be in part. With any
    // other fault, and where nothing is to be written, every content is as before.
    ensures saved { IsSavedBy (map string_bytes words.now) result.outcome result.fault (F.state files.old) (F.state files.new) }
{
    match plan(alloc, words, files, err) {
        Ok(planned) => finish(alloc, planned, files, out, err),
        Err(_) => Report {
            status: 4,
            outcome: Outcome::Nothing,
            fault: Some(of_none(Reason::WriteFault)),
        },
    }
}

/// What the command finds out, with the files that are to be written and its text. Nothing is written but how far it has
/// come, where that is asked for; it has failed once that cannot be written.
fn plan<F: Shelf, E: Sink>(
    alloc: Global,
    words: &[String],
    files: &mut F,
    err: &mut E,
) -> Result<Result<Planned, Fault>, Failed>
    ensures answer { IfOk result (IsAnswer (λ (made : Planned). made.outcome) (map string_bytes words.now) (F.state files.old) (F.state files.new)) }
    ensures text { IfOk result (λ planned. ForOk planned (λ made. made.text ≡ text_of made.outcome)) }
    ensures saves { IfOk result (λ planned. IfOk planned (λ made. AreToWrite (map string_bytes words.now) made.outcome (map file_of made.saves))) }
    ensures told { IfOk result (λ _. Progresses (map string_bytes words.now) (F.state files.old) (E.state err.old) (E.state err.new)) }
    ensures lost { OnErr result (StopsTelling (map string_bytes words.now) (F.state files.old) (E.state err.old) (E.state err.new)) }
    ensures kept { OnErr result (OnlyReads (F.state files.old) (F.state files.new)) }
{
    let command = match command(alloc, words) {
        Ok(command) => command,
        Err(fault) => return Ok(Err(fault)),
    };
    match outcome(alloc, files, err, command)? {
        Ok(outcome) => Ok(made(alloc, wanted_of(command), outcome)),
        Err(fault) => Ok(Err(fault)),
    }
}

/// The command that the words are.
fn command(alloc: Global, words: &[String]) -> Result<Command<'_>, Fault>
    ensures command { IfOk result (λ command. IsCommand (map string_bytes words.entry.now) (meaning_of command)) }
    ensures range { IfOk result (λ command. IsInRange sample_limit (meaning_of command)) }
    ensures fault { IfErr result (λ fault. (fault ≡ of_none Reason.NoMemory)
        ⊎ ((fault ≡ of_none Reason.Usage) × IsNoCommand (map string_bytes words.entry.now))) }
{
    one_command();
    match read_words(alloc, words, SAMPLE_LIMIT) {
        Ok(command) => Ok(command),
        Err(WordsFault::Usage) => Err(of_none(Reason::Usage)),
        Err(WordsFault::NoMemory) => Err(of_none(Reason::NoMemory)),
    }
}

/// What a command finds out. It has failed once it cannot be written how far `prove` has come.
fn outcome<F: Shelf, E: Sink>(
    alloc: Global,
    files: &mut F,
    err: &mut E,
    command: Command<'_>,
) -> Result<Result<Outcome, Fault>, Failed>
    requires { IsInRange sample_limit (meaning_of command) }
    ensures showable { IfOk result (λ found. IfOk found IsShowable) }
    ensures answer { (words : List (List ℕ)) → IsCommand words (meaning_of command.entry)
        → IfOk result (IsAnswer (λ (outcome : Outcome). outcome) words (F.state files.old) (F.state files.new)) }
    ensures told { (words : List (List ℕ)) → IsCommand words (meaning_of command.entry)
        → IfOk result (λ _. Progresses words (F.state files.old) (E.state err.old) (E.state err.new)) }
    ensures lost { (words : List (List ℕ)) → IsCommand words (meaning_of command.entry)
        → OnErr result (StopsTelling words (F.state files.old) (E.state err.old) (E.state err.new)) }
    ensures kept { OnErr result (OnlyReads (F.state files.old) (F.state files.new)) }
{
    match command {
        Command::Wave {
            unit,
            recording,
            unknown,
            points,
        } => Ok(wave_outcome(alloc, files, unit, recording, unknown, points)),
        Command::Show { unit, names } => Ok(show_outcome(alloc, files, unit, names)),
        Command::ShowNetlist { unit, netlist } => Ok(netlist_outcome(alloc, files, unit, netlist)),
        Command::Prove {
            unit,
            netlist,
            limits,
            evidence,
        } => {
            let request = Request {
                unit,
                netlist,
                limits,
                evidence,
            };
            prove_outcome(alloc, files, err, request)
        }
        Command::Check {
            unit,
            netlist,
            number,
            certificate,
        } => Ok(check_outcome(alloc, files, unit, netlist, number, certificate)),
        Command::Replay {
            unit,
            netlist,
            recording,
        } => Ok(replay_outcome(alloc, files, unit, netlist, recording)),
        Command::Gen { seed, samples } => Ok(generate(alloc, seed, samples)),
    }
}

/// The files of evidence that a command is to leave.
fn wanted_of(command: Command<'_>) -> Evidence<'_>
    ensures { evidence_of result ≡ wanted_of (meaning_of command.entry) }
{
    match command {
        Command::Prove { evidence, .. } => evidence,
        _ => Evidence {
            cert: None,
            vcd: None,
            loops: 1,
            buses: false,
        },
    }
}

/// What `wave` finds out.
fn wave_outcome<F: Shelf>(
    alloc: Global,
    files: &mut F,
    unit: &str,
    recording: &str,
    unknown: Unknown,
    points: bool,
) -> Result<Outcome, Fault>
    ensures showable { IfOk result IsShowable }
    ensures answer { (words : List (List ℕ)) → IsCommand words (a_wave unit.now recording.now unknown points)
        → IsAnswer (λ (outcome : Outcome). outcome) words (F.state files.old) (F.state files.new) result }
{
    let judged = wave(alloc, files, unit, recording, unknown_of(unknown), points)?;
    Ok(Outcome::Wave(judged.verdicts, judged.settled))
}

/// What `show` finds out over the names of a recording.
fn show_outcome<F: Shelf>(
    alloc: Global,
    files: &mut F,
    unit: &str,
    names: &str,
) -> Result<Outcome, Fault>
    ensures showable { IfOk result IsShowable }
    ensures answer { (words : List (List ℕ)) → IsCommand words (a_show unit.now names.now)
        → IsAnswer (λ (outcome : Outcome). outcome) words (F.state files.old) (F.state files.new) result }
{
    let lines = show(alloc, files, unit, names)?;
    Ok(Outcome::Shown(lines))
}

/// What `show` finds out over the names of a netlist.
fn netlist_outcome<F: Shelf>(
    alloc: Global,
    files: &mut F,
    unit: &str,
    netlist: &str,
) -> Result<Outcome, Fault>
    ensures showable { IfOk result IsShowable }
    ensures answer { (words : List (List ℕ)) → IsCommand words (a_netlist unit.now netlist.now)
        → IsAnswer (λ (outcome : Outcome). outcome) words (F.state files.old) (F.state files.new) result }
{
    let lines = show_netlist(alloc, files, unit, netlist)?;
    Ok(Outcome::Shown(lines))
}

/// What `prove` finds out. It has failed once it cannot be written how far it has come.
fn prove_outcome<F: Shelf, E: Sink>(
    alloc: Global,
    files: &mut F,
    err: &mut E,
    request: Request<'_>,
) -> Result<Result<Outcome, Fault>, Failed>
    requires range { AreInRange request.limits }
    requires loops { request.evidence.loops ≤ 16 }
    ensures showable { IfOk result (λ found. IfOk found IsShowable) }
    ensures answer { (words : List (List ℕ))
        → IsCommand words (a_proof request.entry.unit.now request.entry.netlist.now request.entry.limits (evidence_of request.entry.evidence))
        → IfOk result (IsAnswer (λ (outcome : Outcome). outcome) words (F.state files.old) (F.state files.new)) }
    ensures told { (words : List (List ℕ))
        → IsCommand words (a_proof request.entry.unit.now request.entry.netlist.now request.entry.limits (evidence_of request.entry.evidence))
        → IfOk result (λ _. Progresses words (F.state files.old) (E.state err.old) (E.state err.new)) }
    ensures lost { (words : List (List ℕ))
        → IsCommand words (a_proof request.entry.unit.now request.entry.netlist.now request.entry.limits (evidence_of request.entry.evidence))
        → OnErr result (StopsTelling words (F.state files.old) (E.state err.old) (E.state err.new)) }
    ensures kept { OnErr result (OnlyReads (F.state files.old) (F.state files.new)) }
{
    match prove(alloc, files, err, request)? {
        Ok(found) => Ok(Ok(Outcome::Findings {
            findings: found.findings,
            columns: found.columns,
            depth: request.limits.depth,
            visits: request.limits.visits,
        })),
        Err(fault) => Ok(Err(fault)),
    }
}

/// What `check` finds out.
fn check_outcome<F: Shelf>(
    alloc: Global,
    files: &mut F,
    unit: &str,
    netlist: &str,
    number: u32,
    certificate: &str,
) -> Result<Outcome, Fault>
    ensures showable { IfOk result IsShowable }
    ensures answer { (words : List (List ℕ)) → IsCommand words (a_check unit.now netlist.now number certificate.now)
        → IsAnswer (λ (outcome : Outcome). outcome) words (F.state files.old) (F.state files.new) result }
{
    let question = Question {
        unit,
        netlist,
        number,
        certificate,
    };
    let checked = check(alloc, files, question)?;
    Ok(Outcome::Checked(number, checked))
}

/// What `replay` finds out.
fn replay_outcome<F: Shelf>(
    alloc: Global,
    files: &mut F,
    unit: &str,
    netlist: &str,
    recording: &str,
) -> Result<Outcome, Fault>
    ensures showable { IfOk result IsShowable }
    ensures answer { (words : List (List ℕ)) → IsCommand words (a_replay unit.now netlist.now recording.now)
        → IsAnswer (λ (outcome : Outcome). outcome) words (F.state files.old) (F.state files.new) result }
{
    let found = replay_files(alloc, files, unit, netlist, recording)?;
    Ok(Outcome::Replayed(found.replay, found.samples, found.verdicts))
}

/// An outcome with its files of evidence and its text.
fn made(alloc: Global, evidence: Evidence<'_>, outcome: Outcome) -> Result<Planned, Fault>
    requires { IsShowable outcome }
    ensures outcome { IfOk result (λ made. made.outcome ≡ outcome) }
    ensures text { IfOk result (λ made. made.text ≡ text_of made.outcome) }
    ensures saves { IfOk result (λ made. map file_of made.saves ≡ files_of_outcome (evidence_of evidence.entry) outcome) }
    ensures memory { IfErr result (λ fault. fault ≡ of_none Reason.NoMemory) }
{
    let saves = saves_of(alloc, evidence, &outcome)?;
    let text = report(alloc, &outcome)?;
    Ok(Planned {
        outcome,
        saves,
        text,
    })
}
