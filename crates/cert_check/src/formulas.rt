// The lines of both sections of a certificate of a window, against their formulas.
ghost use Rattle.std.specs.Prelude.{◌≤◌, [], IfOk, IfErr, OnOk};
ghost use Rattle.cert_theory.specs.declared.header.Section.TheVariants as sections;
ghost use Rattle.clauses.specs.Literals.{clause_words};
ghost use Rattle.clauses.specs.declared.flat.TheConstants.{MOST_WORDS};
ghost use Rattle.run_terms.specs.Automata.{TestsSignals};
ghost use Rattle.cert_theory.specs.Phases.Phase.{InSection};
ghost use Rattle.cert_check.specs.Claims.{AnswersAt};
ghost use Rattle.cert_check.specs.Limits.{AreTooLarge, IsFormulaFault};

use crate::fault::of_formula;
use alternating::Alternating;
use cert_lines::{Reading, check_section};
use cert_theory::{CertAnswer, Header, Section};
use clauses::Cnf;
use joint::joint;
use netlist::Netlist;
use psl_tree::LimitFault;
use std::alloc::Global;

/// Checks what is left of a certificate behind its header. Both formulas are built before a line is looked at, so that it
/// is told whether one of them is too large; but only one is there at a time, so the induction's is built twice.
pub(crate) fn check_windowed(
    alloc: Global,
    netlist: &Netlist,
    violation: &Alternating,
    header: Header,
    reading: &mut Reading<'_>,
) -> Result<CertAnswer, LimitFault>
    requires tests { TestsSignals netlist.now violation.now }
    requires visits { header.visits ≤ 16 }
    requires window { 1 ≤ header.window }
    ensures answer { IfOk result (AnswersAt netlist.now violation.now (InSection header [] sections.Base []) reading.old) }
    ensures fits { OnOk result (AreTooLarge netlist.now violation.now header.visits header.window → ⊥) }
    ensures fault { IfErr result (IsFormulaFault (AreTooLarge netlist.now violation.now header.visits header.window)) }
{
    let joint = match joint(alloc, netlist, violation, header.visits) {
        Ok(joint) => joint,
        Err(fault) => return Err(of_formula(fault)),
    };
    let early = match joint.induction(alloc, header.window) {
        Ok(early) => early,
        Err(fault) => return Err(of_formula(fault)),
    };
    formula_is_small(&early);
    drop(early);

    let base = match joint.base(alloc, header.window) {
        Ok(base) => base,
        Err(fault) => return Err(of_formula(fault)),
    };
    formula_is_small(&base);
    if let Some(refusal) = check_section(alloc, header, Section::Base, &base, reading)? {
        return Ok(CertAnswer::Refused(refusal.reason, refusal.line));
    }
    drop(base);

    let induction = match joint.induction(alloc, header.window) {
        Ok(induction) => induction,
        Err(fault) => return Err(of_formula(fault)),
    };
    if let Some(refusal) = check_section(alloc, header, Section::Induction, &induction, reading)? {
        return Ok(CertAnswer::Refused(refusal.reason, refusal.line));
    }
    Ok(reading.end())
}

/// A formula that was built is not too large.
pub(crate) fn formula_is_small(formula: &Cnf)
    ensures { clause_words formula.now.clauses ≤ MOST_WORDS }
{
    let _words = formula.clauses.words();
}
