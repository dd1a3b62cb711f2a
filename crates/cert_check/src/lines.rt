// What stands behind the header of a certificate.
ghost use Rattle.std.specs.Prelude.{◌≤◌, IfOk, IfErr, OnOk};
ghost use Rattle.run_terms.specs.Automata.{TestsSignals};
ghost use Rattle.cert_check.specs.Claims.{AnswersBehind};
ghost use Rattle.cert_check.specs.Limits.{IsFormulaFault, IsLargeFrom, IsSmallFrom};

use crate::clausal::check_clausal;
use crate::formulas::check_windowed;
use alternating::Alternating;
use cert_lines::Reading;
use cert_theory::{CertAnswer, Form, Header};
use netlist::Netlist;
use psl_tree::LimitFault;
use std::alloc::Global;

/// Checks what is left of a certificate behind its header, by its form.
pub(crate) fn check_lines(
    alloc: Global,
    netlist: &Netlist,
    violation: &Alternating,
    header: Header,
    reading: &mut Reading<'_>,
) -> Result<CertAnswer, LimitFault>
    requires tests { TestsSignals netlist.now violation.now }
    requires visits { header.visits ≤ 16 }
    requires window { 1 ≤ header.window }
    ensures answer { IfOk result (AnswersBehind netlist.now violation.now header reading.old) }
    ensures fits { OnOk result (IsSmallFrom header.form netlist.now violation.now header reading.old) }
    ensures fault { IfErr result (IsFormulaFault (IsLargeFrom header.form netlist.now violation.now header reading.old)) }
{
    match header.form {
        Form::Windowed(_) => check_windowed(alloc, netlist, violation, header, reading),
        Form::Clausal => check_clausal(alloc, netlist, violation, header, reading),
    }
}
