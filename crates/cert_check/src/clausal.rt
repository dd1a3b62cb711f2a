// The clauses of a certificate and the lines of their three sections, against their formulas.
ghost use Rattle.std.specs.Prelude.{◌≡◌, ◌≤◌, [], None, IfOk, IfErr, IfSome, OnOk, IsTrue};
ghost use Rattle.cert_theory.specs.Phases.Phase.{InClauses, InSection};
ghost use Rattle.cert_theory.specs.declared.header.Section.TheVariants as sections;
ghost use Rattle.clauses.specs.Literals.{clauses_within};
ghost use Rattle.joint_theory.specs.Bits.{joint_width};
ghost use Rattle.run_terms.specs.Automata.{TestsSignals};
ghost use Rattle.cert_lines.specs.Sections.{IsRefusedIn, StandsBehind};
ghost use Rattle.cert_check.specs.Claims.{AnswersAt, bad_query, initial_query, step_query};
ghost use Rattle.cert_check.specs.Limits.{AreClausesTooLarge, FewClauses, IsBadLarge, IsFormulaFault};
ghost use Rattle.cert_check.specs.Limits.{IsInitialLarge, IsStepLarge, ManyClauses};

use crate::fault::of_formula;
use crate::formulas::formula_is_small;
use alternating::Alternating;
use cert_lines::{Reading, Refusal, check_section, read_clauses};
use cert_theory::{CertAnswer, Header, Section};
use clauses::Clauses;
use joint::{Joint, joint};
use netlist::Netlist;
use psl_tree::LimitFault;
use std::alloc::Global;

/// Checks what is left of a certificate behind its header: the clauses first, and then, where none of their lines is
/// refused, whether what is built of them is too large, before a line of the sections is looked at.
pub(crate) fn check_clausal(
    alloc: Global,
    netlist: &Netlist,
    violation: &Alternating,
    header: Header,
    reading: &mut Reading<'_>,
) -> Result<CertAnswer, LimitFault>
    requires tests { TestsSignals netlist.now violation.now }
    requires visits { header.visits ≤ 16 }
    ensures answer { IfOk result (AnswersAt netlist.now violation.now (InClauses header []) reading.old) }
    ensures fits { OnOk result (FewClauses netlist.now violation.now header reading.old) }
    ensures fault { IfErr result (IsFormulaFault (ManyClauses netlist.now violation.now header reading.old)) }
{
    let width = state_width(netlist, violation, header.visits);
    let clauses = match read_clauses(alloc, width, reading)? {
        Ok(clauses) => clauses,
        Err(refusal) => return Ok(CertAnswer::Refused(refusal.reason, refusal.line)),
    };
    let answer = check_clauses(alloc, netlist, violation, &clauses, header, reading)?;
    Ok(answer)
}

/// How many bits a joint state has.
fn state_width(netlist: &Netlist, violation: &Alternating, visits: u32) -> u64
    ensures { result ≡ joint_width netlist.now violation.now visits }
{
    let signals = u64::from(netlist.signals());
    let obligations = u64::from(violation.len());
    1 + signals + signals + obligations + obligations + 1 + u64::from(visits)
}

/// Checks the three sections behind clauses.
fn check_clauses(
    alloc: Global,
    netlist: &Netlist,
    violation: &Alternating,
    clauses: &Clauses,
    header: Header,
    reading: &mut Reading<'_>,
) -> Result<CertAnswer, LimitFault>
    requires tests { TestsSignals netlist.now violation.now }
    requires visits { header.visits ≤ 16 }
    requires within { IsTrue (clauses_within (joint_width netlist.now violation.now header.visits) clauses.now) }
    ensures answer { IfOk result (AnswersAt netlist.now violation.now
        (InSection header clauses.now sections.Initial []) reading.old) }
    ensures fits { OnOk result (AreClausesTooLarge netlist.now violation.now header.visits clauses.now → ⊥) }
    ensures fault { IfErr result (IsFormulaFault (AreClausesTooLarge netlist.now violation.now header.visits clauses.now)) }
{
    let joint = match joint(alloc, netlist, violation, header.visits) {
        Ok(joint) => joint,
        Err(fault) => return Err(of_formula(fault)),
    };
    later_formulas_are_small(alloc, &joint, clauses)?;
    let answer = check_logs(alloc, &joint, clauses, header, reading)?;
    Ok(answer)
}

/// The formulas of the second and the third section are not too large. Each is built, and goes again: only one formula is
/// there at a time.
fn later_formulas_are_small(
    alloc: Global,
    joint: &Joint<'_>,
    clauses: &Clauses,
) -> Result<(), LimitFault>
    requires within { IsTrue (clauses_within (joint_width joint.now.design joint.now.automaton joint.now.visits) clauses.now) }
    ensures step { OnOk result (IsStepLarge joint.now.design joint.now.automaton joint.now.visits clauses.now → ⊥) }
    ensures bad { OnOk result (IsBadLarge joint.now.design joint.now.automaton joint.now.visits clauses.now → ⊥) }
    ensures fault { IfErr result (IsFormulaFault
        (AreClausesTooLarge joint.now.design joint.now.automaton joint.now.visits clauses.now)) }
{
    let step = match joint.query_step(alloc, clauses) {
        Ok(step) => step,
        Err(fault) => return Err(of_formula(fault)),
    };
    formula_is_small(&step);
    drop(step);
    let bad = match joint.query_bad(alloc, clauses) {
        Ok(bad) => bad,
        Err(fault) => return Err(of_formula(fault)),
    };
    formula_is_small(&bad);
    Ok(())
}

/// Checks the lines of the three sections. Before a line is looked at the first formula is built, the only one of which
/// it was not told whether it is too large.
fn check_logs(
    alloc: Global,
    joint: &Joint<'_>,
    clauses: &Clauses,
    header: Header,
    reading: &mut Reading<'_>,
) -> Result<CertAnswer, LimitFault>
    requires within { IsTrue (clauses_within (joint_width joint.now.design joint.now.automaton joint.now.visits) clauses.now) }
    requires visits { joint.now.visits ≡ header.visits }
    ensures answer { IfOk result (AnswersAt joint.now.design joint.now.automaton
        (InSection header clauses.now sections.Initial []) reading.old) }
    ensures initial { OnOk result (IsInitialLarge joint.now.design joint.now.automaton joint.now.visits clauses.now → ⊥) }
    ensures fault { IfErr result (IsFormulaFault
        (AreClausesTooLarge joint.now.design joint.now.automaton joint.now.visits clauses.now)) }
{
    if let Some(refusal) = check_initial(alloc, joint, clauses, header, reading)? {
        return Ok(CertAnswer::Refused(refusal.reason, refusal.line));
    }
    if let Some(refusal) = check_step(alloc, joint, clauses, header, reading)? {
        return Ok(CertAnswer::Refused(refusal.reason, refusal.line));
    }
    if let Some(refusal) = check_bad(alloc, joint, clauses, header, reading)? {
        return Ok(CertAnswer::Refused(refusal.reason, refusal.line));
    }
    Ok(reading.end())
}

/// Checks the lines of the first section: no initial state misses one of the clauses.
fn check_initial(
    alloc: Global,
    joint: &Joint<'_>,
    clauses: &Clauses,
    header: Header,
    reading: &mut Reading<'_>,
) -> Result<Option<Refusal>, LimitFault>
    requires within { IsTrue (clauses_within (joint_width joint.now.design joint.now.automaton joint.now.visits) clauses.now) }
    ensures stands { IfOk result (λ refusal. refusal ≡ None → StandsBehind header sections.Initial
        (initial_query joint.now.design joint.now.automaton joint.now.visits clauses.now) reading.old reading.new) }
    ensures refused { IfOk result (λ refusal. IfSome refusal (IsRefusedIn header sections.Initial
        (initial_query joint.now.design joint.now.automaton joint.now.visits clauses.now) reading.old)) }
    ensures small { OnOk result (IsInitialLarge joint.now.design joint.now.automaton joint.now.visits clauses.now → ⊥) }
    ensures fault { IfErr result (IsFormulaFault
        (AreClausesTooLarge joint.now.design joint.now.automaton joint.now.visits clauses.now)) }
{
    let initial = match joint.query_initial(alloc, clauses) {
        Ok(initial) => initial,
        Err(fault) => return Err(of_formula(fault)),
    };
    formula_is_small(&initial);
    let refusal = check_section(alloc, header, Section::Initial, &initial, reading)?;
    Ok(refusal)
}

/// Checks the lines of the second section: no state that meets all clauses has a neighbour that misses one.
fn check_step(
    alloc: Global,
    joint: &Joint<'_>,
    clauses: &Clauses,
    header: Header,
    reading: &mut Reading<'_>,
) -> Result<Option<Refusal>, LimitFault>
    requires within { IsTrue (clauses_within (joint_width joint.now.design joint.now.automaton joint.now.visits) clauses.now) }
    ensures stands { IfOk result (λ refusal. refusal ≡ None → StandsBehind header sections.Step
        (step_query joint.now.design joint.now.automaton joint.now.visits clauses.now) reading.old reading.new) }
    ensures refused { IfOk result (λ refusal. IfSome refusal (IsRefusedIn header sections.Step
        (step_query joint.now.design joint.now.automaton joint.now.visits clauses.now) reading.old)) }
    ensures fault { IfErr result (IsFormulaFault
        (AreClausesTooLarge joint.now.design joint.now.automaton joint.now.visits clauses.now)) }
{
    let step = match joint.query_step(alloc, clauses) {
        Ok(step) => step,
        Err(fault) => return Err(of_formula(fault)),
    };
    let refusal = check_section(alloc, header, Section::Step, &step, reading)?;
    Ok(refusal)
}

/// Checks the lines of the third section: no bad state meets all clauses.
fn check_bad(
    alloc: Global,
    joint: &Joint<'_>,
    clauses: &Clauses,
    header: Header,
    reading: &mut Reading<'_>,
) -> Result<Option<Refusal>, LimitFault>
    requires within { IsTrue (clauses_within (joint_width joint.now.design joint.now.automaton joint.now.visits) clauses.now) }
    ensures stands { IfOk result (λ refusal. refusal ≡ None → StandsBehind header sections.Bad
        (bad_query joint.now.design joint.now.automaton joint.now.visits clauses.now) reading.old reading.new) }
    ensures refused { IfOk result (λ refusal. IfSome refusal (IsRefusedIn header sections.Bad
        (bad_query joint.now.design joint.now.automaton joint.now.visits clauses.now) reading.old)) }
    ensures fault { IfErr result (IsFormulaFault
        (AreClausesTooLarge joint.now.design joint.now.automaton joint.now.visits clauses.now)) }
{
    let bad = match joint.query_bad(alloc, clauses) {
        Ok(bad) => bad,
        Err(fault) => return Err(of_formula(fault)),
    };
    let refusal = check_section(alloc, header, Section::Bad, &bad, reading)?;
    Ok(refusal)
}
