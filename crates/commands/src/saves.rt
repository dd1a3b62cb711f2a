ghost use Rattle.std.specs.Prelude.{◌≡◌, ◌++◌, map, string_bytes, Some, IfOk, OnOk};
ghost use Rattle.std.specs.List.{flat_map};
ghost use Rattle.std.specs.Option.{option_map};
ghost use Rattle.cert_theory.specs.Printed.{cert_text, inductive_text};
ghost use Rattle.cert_theory.specs.declared.header.Version.TheVariants.{Two};
ghost use Rattle.command_line.specs.Evidences.{evidence_of};
ghost use Rattle.commands.specs.Saved.{certificate_files, file_name, files_of_entry, files_of_outcome, recorded_files, recording_files};
ghost use Rattle.psl_base.specs.Saves.{file_of};

use crate::outcome::Outcome;
use cert_text::{print_cert, print_inductive};
use cert_theory::{Certificate, InductiveCert};
use command_line::Evidence;
use findings::{FindingEntry, Recorded};
use itoa::Buffer;
use prover::Finding;
use psl_base::{Bytes, NoMemory, Save, Saves};
use std::alloc::{AllocError, Global};

/// The files of evidence that are to be written of an outcome, in the order of the directives: the certificate of each proof,
/// and the recording of each run, where prefixes of their names are given.
pub fn saves_of(alloc: Global, evidence: Evidence<'_>, outcome: &Outcome) -> Result<Saves, NoMemory>
    ensures { IfOk result (λ saves. map file_of saves ≡ files_of_outcome (evidence_of evidence.entry) outcome.now) }
{
    match outcome {
        Outcome::Findings { findings, .. } => {
            saves_of_findings(alloc, evidence, findings.as_slice())
        }
        _ => Ok(Saves::new(alloc)),
    }
}

fn saves_of_findings(
    alloc: Global,
    evidence: Evidence<'_>,
    entries: &[FindingEntry],
) -> Result<Saves, NoMemory>
    ensures { IfOk result (λ saves. map file_of saves ≡ flat_map (files_of_entry (evidence_of evidence.entry)) entries.now) }
{
    let mut saves = Saves::new(alloc);
    for entry in entries {
        add_evidence(alloc, &mut saves, evidence, entry)?;
    }
    Ok(saves)
}

/// Adds the file of a finding's evidence, where it has one.
fn add_evidence(
    alloc: Global,
    saves: &mut Saves,
    evidence: Evidence<'_>,
    entry: &FindingEntry,
) -> Result<(), NoMemory>
    ensures { OnOk result (map file_of saves.new ≡ map file_of saves.old ++ files_of_entry (evidence_of evidence.entry) entry.now) }
{
    match &entry.finding {
        Finding::Proved(certificate) => {
            add_certificate(alloc, saves, evidence.cert, entry.number, certificate)
        }
        Finding::ProvedReach(certificate) => {
            add_inductive(alloc, saves, evidence.cert, entry.number, certificate)
        }
        Finding::Violated(_) | Finding::Held(_, _) => {
            add_recorded(alloc, saves, evidence.vcd, entry.number, &entry.recorded)
        }
        Finding::Depth(_)
        | Finding::DepthReach(_, _)
        | Finding::Steps(_, _)
        | Finding::LogFull(_, _)
        | Finding::Large(_) => Ok(()),
    }
}

/// Adds the file of a certificate of a window, where there is a prefix for it.
fn add_certificate(
    alloc: Global,
    saves: &mut Saves,
    prefix: Option<&str>,
    number: u32,
    certificate: &Certificate,
) -> Result<(), NoMemory>
    ensures { OnOk result (map file_of saves.new ≡ map file_of saves.old ++ certificate_files (option_map (λ s. s.now) prefix.entry) number (cert_text Two certificate.now)) }
{
    let Some(prefix) = prefix else {
        return Ok(());
    };
    let content = print_cert(alloc, certificate)?;
    push_certificate(alloc, saves, prefix, number, content)
}

/// Adds the file of a certificate of clauses, where there is a prefix for it.
fn add_inductive(
    alloc: Global,
    saves: &mut Saves,
    prefix: Option<&str>,
    number: u32,
    certificate: &InductiveCert,
) -> Result<(), NoMemory>
    ensures { OnOk result (map file_of saves.new ≡ map file_of saves.old ++ certificate_files (option_map (λ s. s.now) prefix.entry) number (inductive_text certificate.now)) }
{
    let Some(prefix) = prefix else {
        return Ok(());
    };
    let content = print_inductive(alloc, certificate)?;
    push_certificate(alloc, saves, prefix, number, content)
}

/// Adds the file of a certificate with this text.
fn push_certificate(
    alloc: Global,
    saves: &mut Saves,
    prefix: &str,
    number: u32,
    content: Bytes,
) -> Result<(), NoMemory>
    ensures { OnOk result (map file_of saves.new ≡ map file_of saves.old ++ certificate_files (Some prefix.now) number content) }
{
    let name = file_name(alloc, prefix, number, ".cert")?;
    saves.push(Save { name, content })
}

/// Adds the file of what is recorded of a run, where that is not too long and there is a prefix for it.
fn add_recorded(
    alloc: Global,
    saves: &mut Saves,
    prefix: Option<&str>,
    number: u32,
    recorded: &Option<Recorded>,
) -> Result<(), NoMemory>
    ensures { OnOk result (map file_of saves.new ≡ map file_of saves.old ++ recorded_files (option_map (λ s. s.now) prefix.entry) number recorded.now) }
{
    match recorded {
        Some(Recorded::Judged { text, .. }) => add_recording(alloc, saves, prefix, number, text),
        Some(Recorded::TooLong) | None => Ok(()),
    }
}

/// Adds the file of a recording, where there is a prefix for it.
fn add_recording(
    alloc: Global,
    saves: &mut Saves,
    prefix: Option<&str>,
    number: u32,
    text: &Bytes,
) -> Result<(), NoMemory>
    ensures { OnOk result (map file_of saves.new ≡ map file_of saves.old ++ recording_files (option_map (λ s. s.now) prefix.entry) number text.now) }
{
    let Some(prefix) = prefix else {
        return Ok(());
    };
    let name = file_name(alloc, prefix, number, ".vcd")?;
    let content = text.copy(alloc)?;
    saves.push(Save { name, content })
}

/// The name of a file of evidence.
fn file_name(alloc: Global, prefix: &str, number: u32, ending: &str) -> Result<String, AllocError>
    ensures { IfOk result (λ name. string_bytes name ≡ file_name prefix.now number ending.now) }
{
    let mut digits = Buffer::new();
    let mut name = String::from_str(alloc, prefix)?;
    name.push_str(".")?;
    name.push_str(digits.format(number))?;
    name.push_str(ending)?;
    Ok(name)
}
