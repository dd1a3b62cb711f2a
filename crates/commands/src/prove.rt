ghost use Rattle.std.specs.Prelude.{◌≡◌, ◌≤◌, ◌∷◌, [], true, IfOk, IfErr, OnErr};
ghost use Rattle.psl_tree.specs.Directives.{AreOver, AreSmall};
ghost use Rattle.command_line.specs.Evidences.{evidence_of};
ghost use Rattle.command_line.specs.Ranges.{AreInRange};
ghost use Rattle.commands.specs.Progress.{progress_line, LosesProgress, MayHaveProgress};
ghost use Rattle.commands.specs.Provings.{FoundReading, IsFound, ProveStage, recordings_in};
ghost use Rattle.commands.specs.Stages.{IsStage, IsReading};
ghost use Rattle.findings.specs.Asked.{AreNumbered};
ghost use Rattle.findings.specs.Columns.{ShowColumns};
ghost use Rattle.findings.specs.Recordings.{wanted_of};
ghost use Rattle.findings.specs.Sizes.{AreWithin};
ghost use Rattle.findings.specs.Telling.{HaveTold, HaveToldPart, IsProveFault};
ghost use Rattle.findings.specs.Traceable.{AreTraceable, HasTraces};
ghost use Rattle.psl_base.specs.Shelf.{OnlyReads};

use crate::faults::{limit_fault, of_none};
use crate::outcome::Fault;
use crate::progress::Progress;
use crate::reason::Reason;
use crate::subject::{Subject, load_subject};
use command_line::{Evidence, Limits};
use findings::{Findings, Recordings, check_all, columns, prove_all};
use netlist::{Netlist, soundness_law};
use prover::{Options, ProveFault};
use psl_base::{Failed, Shelf, Sink};
use psl_tree::{Names, Unit, UnitFault};
use std::alloc::Global;

/// What the words of `prove` ask for: the names of the files, how far a proof is sought, and which files are to be left.
#[derive(Clone, Copy)]
pub struct Request<'a> {
    pub unit: &'a str,
    pub netlist: &'a str,
    pub limits: Limits,
    pub evidence: Evidence<'a>,
}

/// What is found out of a text's assertions, and of its covers where these are asked, and what is shown of it.
#[derive(Drop)]
pub struct Found {
    pub findings: Findings,
    /// The first names of the netlist's inputs and then of its latches' outputs, in its order.
    pub columns: Names,
}

/// Proves the assertions of a text of a netlist, both read from files, or finds runs that violate them, and asks its covers
/// where the limits say so: `prove UNIT NETLIST`. Where they say so, it is told on the second output how far it has come;
/// it has failed once that cannot be written.
pub fn prove<F: Shelf, E: Sink>(
    alloc: Global,
    files: &mut F,
    err: &mut E,
    request: Request<'_>,
) -> Result<Result<Found, Fault>, Failed>
    requires range { AreInRange request.limits }
    requires loops { request.evidence.loops ≤ 16 }
    ensures stage { IfOk result (IsStage (request.entry.unit.now ∷ request.entry.netlist.now ∷ [])
        (ProveStage request.entry.unit.now request.entry.netlist.now request.entry.limits (evidence_of request.entry.evidence)) (F.state files.old) (F.state files.new)) }
    ensures shown { IfOk result (λ found. IfOk found (λ found. ShowColumns found.columns found.findings)) }
    ensures told { IfOk result (λ _. MayHaveProgress request.entry.unit.now request.entry.netlist.now request.entry.limits (F.state files.old) (E.state err.old) (E.state err.new)) }
    ensures lost { OnErr result ((request.entry.limits.progress ≡ true)
        × LosesProgress request.entry.unit.now request.entry.netlist.now request.entry.limits (F.state files.old) (E.state err.old) (E.state err.new)) }
    ensures kept { OnErr result (OnlyReads (F.state files.old) (F.state files.new)) }
{
    match load_subject(alloc, files, request.unit, request.netlist) {
        Ok(subject) => prove_subject(alloc, &subject, err, request),
        Err(fault) => Ok(Err(fault)),
    }
}

/// The same of what was read, where no directive that is asked may be too large.
fn prove_subject<E: Sink>(
    alloc: Global,
    subject: &Subject,
    err: &mut E,
    request: Request<'_>,
) -> Result<Result<Found, Fault>, Failed>
    requires range { AreInRange request.limits }
    requires in_range { AreOver subject.now.netlist.names subject.now.directives }
    requires numbered { AreNumbered subject.now.directives }
    requires small { AreSmall subject.now.directives }
    requires traces { HasTraces subject.now.netlist }
    requires loops { request.evidence.loops ≤ 16 }
    ensures reading { IfOk result (IsReading (request.entry.unit.now ∷ request.entry.netlist.now ∷ [])
        (FoundReading request.entry.unit.now request.entry.netlist.now request.entry.limits (evidence_of request.entry.evidence) subject.now)) }
    ensures shown { IfOk result (λ found. IfOk found (λ found. ShowColumns found.columns found.findings)) }
    ensures told { IfOk result (λ _. HaveTold subject.now.netlist subject.now.directives request.entry.limits.covers
        (progress_line request.entry.limits.progress) (E.state err.old) (E.state err.new)) }
    ensures lost { OnErr result (HaveToldPart subject.now.netlist subject.now.directives request.entry.limits.covers
        (progress_line request.entry.limits.progress) (E.state err.old) (E.state err.new)) }
{
    let (directives, netlist) = (&subject.directives, &subject.netlist);
    let limits = request.limits;
    match check_all(alloc, directives, netlist, limits.depth, limits.covers) {
        Ok(()) => match find(alloc, directives, netlist, err, request) {
            Ok(found) => Ok(Ok(found)),
            Err(ProveFault::NoMemory) => Ok(Err(of_none(Reason::NoMemory))),
            Err(ProveFault::Unwritten) => Err(Failed),
        },
        Err(UnitFault::TooLarge(number, limit)) => Ok(Err(limit_fault(
            alloc,
            request.unit,
            request.netlist,
            directives,
            number,
            limit,
        ))),
        Err(UnitFault::NoMemory) => Ok(Err(of_none(Reason::NoMemory))),
    }
}

/// What is found out of directives that are within the limits, and what is shown of it.
fn find<E: Sink>(
    alloc: Global,
    directives: &Unit,
    netlist: &Netlist,
    err: &mut E,
    request: Request<'_>,
) -> Result<Found, ProveFault>
    requires range { AreInRange request.limits }
    requires within { AreWithin netlist.now request.limits.depth request.limits.covers directives.now }
    requires in_range { AreOver netlist.now.names directives.now }
    requires numbered { AreNumbered directives.now }
    requires traceable { AreTraceable netlist.now directives.now (recordings_in (evidence_of request.evidence)) }
    ensures found { IfOk result (IsFound netlist.now request.entry.limits (evidence_of request.entry.evidence) directives.now) }
    ensures shown { IfOk result (λ found. ShowColumns found.columns found.findings) }
    ensures told { IfOk result (λ _. HaveTold netlist.now directives.now request.entry.limits.covers (progress_line request.entry.limits.progress)
        (E.state err.old) (E.state err.new)) }
    ensures fault { IfErr result (IsProveFault netlist.now directives.now request.entry.limits.covers (progress_line request.entry.limits.progress)
        (E.state err.old) (E.state err.new)) }
{
    soundness_law(netlist);
    let options = Options {
        depth: request.limits.depth,
        visits: request.limits.visits,
        steps: request.limits.steps,
        reach: request.limits.reach,
    };
    let covers = request.limits.covers;
    let recordings = recordings_of(request.evidence);
    let progress = Progress {
        asked: request.limits.progress,
    };
    let findings = prove_all(
        alloc, directives, netlist, options, covers, recordings, &progress, err,
    )?;
    let columns = columns(alloc, netlist)?;
    Ok(Found { findings, columns })
}

/// Which recordings are wanted.
fn recordings_of(evidence: Evidence<'_>) -> Option<Recordings<'_>>
    ensures { wanted_of result ≡ recordings_in (evidence_of evidence.entry) }
{
    match evidence.vcd {
        Some(prefix) => Some(Recordings {
            prefix,
            loops: evidence.loops,
            buses: evidence.buses,
        }),
        None => None,
    }
}
