// A certificate, from its first byte to its last.
ghost use Rattle.std.specs.Prelude.{◌≡◌, ◌≤◌, Ok, Some, length, IfOk, IfErr, OnOk};
ghost use Rattle.psl_tree.specs.Directives.{AreOver, IsOver};
ghost use Rattle.cert_theory.specs.declared.answer.CertAnswer.{CertAnswer};
ghost use Rattle.cert_theory.specs.declared.header.Header.{Header};
ghost use Rattle.cert_theory.specs.Headers.{HasHeader};
ghost use Rattle.cert_theory.specs.Texts.{IsAnswer};
ghost use Rattle.owed.specs.Violations.{violation_of};
ghost use Rattle.psl_base.specs.Places.{file_limit};
ghost use Rattle.psl_tree.specs.declared.directive.Directive.{Directive};
ghost use Rattle.run_terms.specs.Automata.{IsSound, TestsSignals};
ghost use Rattle.cert_check.specs.Claims.{AnswersBehind, IsProved, asked_of as asked_for, directive_of as directive_at, queries_of};
ghost use Rattle.cert_check.specs.Limits.{ClausesIn, FitsFrom, FitsLimits, IsFault, IsFaultFrom};

use crate::claim::{Claim, asked_of, directive_of};
use crate::lines::check_lines;
use crate::soundness::claim_holds;
use cert_lines::{Reading, read_header};
use cert_theory::{CertAnswer, Header};
use netlist::Netlist;
use owed::{assumed_size, check_sizes, violation};
use psl_tree::{LimitFault, Unit};
use run_gates::automaton_law;
use std::alloc::Global;

/// Whether a text is a certificate that each run of a netlist satisfies what is owed of the directive of a number: the
/// numbers of a text's directives count from 1. No line is refused, or the first one that is counts, with its number from
/// 1. The text has at most `FILE_LIMIT` bytes, and the unit's atoms are in range of the netlist.
///
/// # Errors
///
/// The header's lines are read first. Where none of them is refused, the first of the limits is told that what is owed or
/// one of the formulas passes, in the order of the faults; then come the other lines. Of a certificate of clauses the
/// limits of what is owed are told first, with a window of 1; then come the lines of the clauses, and then whether the
/// circuit or one of the formulas is too large. `NoMemory` if memory is refused.
pub fn check_cert(
    alloc: Global,
    unit: &Unit,
    assertion: u32,
    netlist: &Netlist,
    bytes: &[u8],
) -> Result<CertAnswer, LimitFault>
    requires in_range { AreOver netlist.now.names unit.now }
    requires few { length bytes.now ≤ file_limit }
    ensures answer { IfOk result (IsAnswer (asked_for unit.now assertion)
        (queries_of netlist.now unit.now assertion) bytes.now) }
    ensures fits { OnOk result ((header : Header) (directive : Directive)
        → HasHeader (asked_for unit.now assertion) bytes.now header
        → directive_at unit.now assertion ≡ Some directive
        → FitsLimits netlist.now unit.now directive header (ClausesIn netlist.now unit.now assertion bytes.now header)) }
    ensures fault { IfErr result (IsFault netlist.now unit.now assertion bytes.now) }
    ensures proved { result ≡ Ok CertAnswer.Passed → IsProved netlist.now unit.now assertion }
{
    let mut reading = Reading::new(bytes);
    let header = match read_header(asked_of(unit, assertion), &mut reading) {
        Ok(header) => header,
        Err(refusal) => return Ok(CertAnswer::Refused(refusal.reason, refusal.line)),
    };
    let Some(directive) = directive_of(unit, assertion) else {
        unreachable!()
    };
    let claim = Claim {
        netlist,
        unit,
        directive,
    };
    let answer = check_claim(alloc, claim, header, &mut reading)?;
    claim_holds(claim);
    Ok(answer)
}

/// Checks what stands behind the header, once it is told whether the limits are kept.
fn check_claim(
    alloc: Global,
    claim: Claim<'_>,
    header: Header,
    reading: &mut Reading<'_>,
) -> Result<CertAnswer, LimitFault>
    requires unit { AreOver claim.netlist.now.names claim.unit.now }
    requires directive { IsOver claim.netlist.now.names claim.directive.now }
    requires visits { header.visits ≤ 16 }
    requires least { 1 ≤ header.window }
    requires most { header.window ≤ 1000 }
    ensures answer { IfOk result (AnswersBehind claim.entry.netlist.now (violation_of claim.entry.unit.now claim.entry.directive.now) header reading.old) }
    ensures fits { OnOk result (FitsFrom claim.entry.netlist.now claim.entry.unit.now claim.entry.directive.now header reading.old) }
    ensures fault { IfErr result (IsFaultFrom claim.entry.netlist.now claim.entry.unit.now claim.entry.directive.now header reading.old) }
    ensures sound { OnOk result (IsSound (violation_of claim.entry.unit.now claim.entry.directive.now)) }
    ensures tests { OnOk result (TestsSignals claim.entry.netlist.now (violation_of claim.entry.unit.now claim.entry.directive.now)) }
{
    let assumed = assumed_size(alloc, claim.unit)?;
    check_sizes(
        alloc,
        claim.directive,
        assumed,
        claim.netlist,
        header.window,
    )?;
    let violation = violation(alloc, claim.unit, claim.directive)?;
    automaton_law(&violation);
    let answer = check_lines(alloc, claim.netlist, &violation, header, reading)?;
    Ok(answer)
}
