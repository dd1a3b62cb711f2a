// The clauses of a certificate.
ghost use Rattle.std.specs.Prelude.{◌≡◌, ◌+◌, ◌*◌, ◌<◌, ◌≤◌, length, IsTrue, IfOk, IfErr, OnOk};
ghost use Rattle.clauses.specs.Literals as literals;
ghost use Rattle.clauses.specs.Literals.{clause_words, clauses_within};
ghost use Rattle.psl_base.specs.Places.{file_limit};
ghost use Rattle.cert_lines.specs.Clauses.{AreClauses, BecomesClause, HasNoClauses, IsRefusedAmong};

use crate::entries::LineStep;
use crate::{Reading, Refusal};
use cert_theory::CertReason;
use clause_text::{LineRoom, read_clause};
use clauses::{Clauses, CnfFault};
use psl_base::NoMemory;
use std::alloc::Global;

/// Reads the clauses of a certificate, from the first of them on, where a state has so many bits. What stands behind the
/// word that ends them is left. Or the first refusal, where it stands at one of these lines.
pub fn read_clauses(
    alloc: Global,
    width: u64,
    reading: &mut Reading<'_>,
) -> Result<Result<Clauses, Refusal>, NoMemory>
    ensures clauses { IfOk result (λ read. IfOk read (λ clauses. AreClauses width reading.old clauses reading.new)) }
    ensures within { IfOk result (λ read. IfOk read (λ clauses. IsTrue (clauses_within width clauses))) }
    ensures refused { IfOk result (λ read. IfErr read (IsRefusedAmong width reading.old)) }
    ensures none { IfOk result (λ read. IfErr read (λ _. HasNoClauses width reading.old)) }
{
    let mut clauses = Clauses::new(alloc);
    let mut room = LineRoom::new(alloc);
    loop {
        let number = reading.line;
        let line = match reading.next() {
            Ok(line) => line,
            Err(refusal) => return Ok(Err(refusal)),
        };
        match take_clause(&mut clauses, width, line, &mut room)? {
            LineStep::Taken => {}
            LineStep::End => return Ok(Ok(clauses)),
            LineStep::Refused(reason) => {
                return Ok(Err(Refusal {
                    reason,
                    line: number,
                }));
            }
        }
    }
}

/// Takes a line among the clauses, without its line feed.
fn take_clause(
    clauses: &mut Clauses,
    width: u64,
    line: &[u8],
    room: &mut LineRoom,
) -> Result<LineStep, NoMemory>
    requires { 2 * clause_words clauses.old + length line.now < file_limit }
    ensures becomes { IfOk result (λ step. BecomesClause width clauses.old line.now step clauses.new) }
    ensures room { OnOk result (2 * clause_words clauses.new ≤ 2 * clause_words clauses.old + length line.now + 1) }
{
    if line == b"initial".as_slice() {
        return Ok(LineStep::End);
    }
    let Some(clause) = read_clause(line, room)? else {
        return Ok(LineStep::Refused(CertReason::BadLine));
    };
    if !name_bits(width, clause) {
        return Ok(LineStep::Refused(CertReason::BadClause));
    }
    match clauses.push(clause) {
        Ok(()) => Ok(LineStep::Taken),
        Err(CnfFault::NoMemory) => Err(NoMemory),
        Err(CnfFault::TooLarge) => unreachable!(),
    }
}

/// Whether all literals of a clause name state bits.
fn name_bits(width: u64, clause: &[i32]) -> bool
    ensures { result ≡ literals.clause_within width clause.now }
{
    for literal in clause {
        if !is_within(width, *literal) {
            return false;
        }
    }
    true
}

/// Whether a literal is of one of the first so many variables.
fn is_within(variables: u64, literal: i32) -> bool
    ensures { result ≡ literals.is_within variables literal }
{
    let variable = u64::from(literal.unsigned_abs());
    variable > 0 && variable <= variables
}
