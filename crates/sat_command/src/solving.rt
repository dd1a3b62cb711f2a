// A formula is read and solved.
ghost use Rattle.std.specs.Prelude.{◌≡◌, ◌≤◌, length, IfOk, IfErr};
ghost use Rattle.psl_base.specs.Places.{file_limit};
ghost use Rattle.psl_base.specs.Shelf.{OnlyReads};
ghost use Rattle.sat_dimacs.specs.Formulas.{StandsFor};
ghost use Rattle.sat_command.specs.Answering.{IsAnswerFor, IsSolved, limit_of};
ghost use Rattle.sat_command.specs.Refusals.{IsCounted, IsFileFault, IsTextFault};
ghost use Rattle.sat_command.specs.Requests.{asked_by};

use crate::Fault;
use crate::words::Request;
use cdcl::{Answer, solve};
use clauses::Cnf;
use psl_base::{Bytes, FILE_LIMIT, Shelf, read_all};
use sat_dimacs::{DimacsFault, read_dimacs};
use std::alloc::Global;

/// Reads the formula that is asked for, and solves it.
pub(crate) fn solved<F: Shelf>(
    alloc: Global,
    request: &Request<'_>,
    files: &mut F,
) -> Result<Answer, Fault>
    ensures ok { IfOk result (IsSolved (asked_by request.now) (F.state files.old)) }
    ensures err { IfErr result (IsFileFault (asked_by request.now).file (F.state files.old) (F.state files.new)) }
    ensures quiet { IfOk result (λ _. (F.state files.new).read_faults ≡ (F.state files.old).read_faults) }
    ensures counted { IfErr result (IsCounted (F.state files.old) (F.state files.new)) }
    ensures rest { OnlyReads (F.state files.old) (F.state files.new) }
{
    let text = read_all(alloc, files, request.file, FILE_LIMIT)?;
    answer(alloc, text, steps_of(request))
}

/// How many lemmas may be learned.
fn steps_of(request: &Request<'_>) -> u64
    ensures { result ≡ limit_of (asked_by request.now).steps }
{
    match request.steps {
        Some(steps) => steps,
        None => u64::MAX,
    }
}

/// The answer for the formula of a text. The text is gone when the formula is solved.
fn answer(alloc: Global, text: Bytes, steps: u64) -> Result<Answer, Fault>
    requires { length text ≤ file_limit }
    ensures ok { IfOk result (IsAnswerFor text steps) }
    ensures err { IfErr result (IsTextFault text) }
{
    let cnf = formula(alloc, text)?;
    let answer = solve(alloc, &cnf, steps)?;
    Ok(answer)
}

/// The formula that a text stands for.
fn formula(alloc: Global, text: Bytes) -> Result<Cnf, Fault>
    requires { length text ≤ file_limit }
    ensures ok { IfOk result (λ cnf. StandsFor text cnf.variables cnf.clauses) }
    ensures err { IfErr result (IsTextFault text) }
{
    match read_dimacs(alloc, text.as_slice()) {
        Ok(cnf) => Ok(cnf),
        Err(DimacsFault::NoMemory) => Err(Fault::NoMemory),
        Err(fault) => Err(Fault::Format(fault)),
    }
}
