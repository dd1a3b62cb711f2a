ghost use Rattle.std.specs.Prelude.{◌≡◌, ◌≤◌, ◌∷◌, [], length};
ghost use Rattle.std.specs.Option.{option_copied};
ghost use Rattle.psl_tree.specs.Directives.{AreOver};
ghost use Rattle.commands.specs.Checks as spec;
ghost use Rattle.commands.specs.Checks.{CertReading, CertStage, CheckStage};
ghost use Rattle.commands.specs.Stages.{IsStage, IsReading};
ghost use Rattle.psl_base.specs.Places.{file_limit};
ghost use Rattle.cert_check.specs.Claims.{directive_of};

use crate::faults::{limit_fault, of_none};
use crate::inputs::load;
use crate::outcome::{CheckedCert, Fault};
use crate::reason::Reason;
use crate::subject::{Subject, load_subject};
use cert_check::check_cert;
use psl_base::Shelf;
use psl_tree::{Directive, Kind, LimitFault, Unit};
use std::alloc::Global;

/// What the words of `check` ask for: the names of the files, and the number of the directive.
#[derive(Clone, Copy)]
pub struct Question<'a> {
    pub unit: &'a str,
    pub netlist: &'a str,
    pub number: u32,
    pub certificate: &'a str,
}

/// Checks whether a certificate shows that each run of a netlist satisfies what is owed of a directive of a text, an assertion
/// or a cover, all three read from files: `check UNIT NETLIST NUMBER CERTIFICATE`.
pub fn check<F: Shelf>(
    alloc: Global,
    files: &mut F,
    question: Question<'_>,
) -> Result<CheckedCert, Fault>
    ensures { IsStage (question.entry.unit.now ∷ question.entry.netlist.now ∷ question.entry.certificate.now ∷ [])
        (CheckStage question.entry.unit.now question.entry.netlist.now question.entry.number question.entry.certificate.now)
        (F.state files.old) (F.state files.new) result }
{
    let subject = load_subject(alloc, files, question.unit, question.netlist)?;
    check_file(alloc, files, &subject, question)
}

/// The same of a netlist and directives that were read.
fn check_file<F: Shelf>(
    alloc: Global,
    files: &mut F,
    subject: &Subject,
    question: Question<'_>,
) -> Result<CheckedCert, Fault>
    requires { AreOver subject.now.netlist.names subject.now.directives }
    ensures { IsStage (question.entry.unit.now ∷ question.entry.netlist.now ∷ question.entry.certificate.now ∷ [])
        (CertStage question.entry.unit.now question.entry.netlist.now question.entry.number question.entry.certificate.now subject.now)
        (F.state files.old) (F.state files.new) result }
{
    let text = load(alloc, files, question.certificate)?;
    check_text(alloc, text.as_slice(), subject, question)
}

/// The same of a text.
fn check_text(
    alloc: Global,
    text: &[u8],
    subject: &Subject,
    question: Question<'_>,
) -> Result<CheckedCert, Fault>
    requires in_range { AreOver subject.now.netlist.names subject.now.directives }
    requires few { length text.now ≤ file_limit }
    ensures { IsReading (question.entry.unit.now ∷ question.entry.netlist.now ∷ [])
        (CertReading question.entry.unit.now question.entry.netlist.now question.entry.number subject.now text.now) result }
{
    let (directives, netlist) = (&subject.directives, &subject.netlist);
    match check_cert(alloc, directives, question.number, netlist, text) {
        Ok(answer) => Ok(CheckedCert {
            kind: answered_kind(directives, question.number),
            answer,
        }),
        Err(LimitFault::TooLarge(limit)) => Err(limit_fault(
            alloc,
            question.unit,
            question.netlist,
            directives,
            question.number,
            limit,
        )),
        Err(LimitFault::NoMemory) => Err(of_none(Reason::NoMemory)),
    }
}

/// As what the directive of a number is answered for.
fn answered_kind(directives: &Unit, number: u32) -> Kind
    ensures { result ≡ spec.answered_kind (directive_of directives.now number) }
{
    match directive_of(directives, number) {
        Some(directive) => answered_as(directive.kind),
        None => Kind::Assert,
    }
}

/// The directive of a number.
fn directive_of(directives: &Unit, number: u32) -> Option<&Directive>
    ensures { option_copied result ≡ directive_of directives.now number }
{
    directives
        .as_slice()
        .iter()
        .find(|directive| directive.number == number)
}

/// As what a directive of this kind is: a cover as one, and all else as an assertion.
fn answered_as(kind: Kind) -> Kind
    ensures { result ≡ spec.answered_as kind }
{
    match kind {
        Kind::Assert | Kind::Assume => Kind::Assert,
        Kind::Cover => Kind::Cover,
    }
}
