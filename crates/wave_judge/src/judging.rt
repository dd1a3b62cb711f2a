ghost use Rattle.std.specs.Prelude.{◌≡◌, All, IfOk, IfErr, OnOk};
ghost use Rattle.psl_tree.specs.Directives.{AreOver, AreSmall, IsOver, IsSmall};
ghost use Rattle.vcd_reader.specs.Sampled.{letters_of};
ghost use Rattle.wave_judge.specs.Faults.{IsJudgeable, IsJudgeFault, MayRefuse};
ghost use Rattle.wave_judge.specs.Judged.{IsVerdict, AreVerdicts};
ghost use Rattle.wave_judge.specs.Automaton.{Means};

use crate::packing::tested_atoms;
use crate::pass::Pass;
use crate::verdict::{Verdict, Verdicts};
use alternating::{Alternating, of};
use clock_rewrite::unclock;
use psl_base::{Items, NoMemory, Text};
use psl_tree::{Directive, LimitFault, Unit, UnitFault};
use std::alloc::Global;
use vcd_reader::Recording;

/// What the three views of a recording say of each directive (IEEE 1850, Annex B).
///
/// # Errors
///
/// `TooLarge` comes exactly at the first directive whose formula, with its clocks rewritten away, has a sequence of more
/// than 1,024 states (`Limit::Sere`) or counts more than 2,048 obligations (`Limit::Automaton`). `NoMemory` may come at any
/// time.
pub fn judge(alloc: Global, unit: &Unit, recording: &Recording) -> Result<Verdicts, UnitFault>
    requires in_range { AreOver recording.now.names unit.now }
    requires small { AreSmall unit.now }
    ensures verdicts { IfOk result (λ verdicts. AreVerdicts (letters_of recording.now) unit.now verdicts) }
    ensures judgeable { OnOk result (All IsJudgeable unit.now) }
    ensures fault { IfErr result (IsJudgeFault unit.now) }
{
    let mut verdicts = Items::new(alloc);
    for directive in unit.as_slice() {
        verdicts.push(judge_one(alloc, directive, recording)?)?;
    }
    Ok(verdicts)
}

/// What the three views of a recording say of one directive, whose atoms are in range of the recording's names.
///
/// # Errors
/// `TooLarge`, with the directive's number, comes exactly where `judge` is answered with it for a unit of this directive
/// alone. `NoMemory` may come at any time.
pub fn judge_one(
    alloc: Global,
    directive: &Directive,
    recording: &Recording,
) -> Result<Verdict, UnitFault>
    requires in_range { IsOver recording.now.names directive.now }
    requires small { IsSmall directive.now }
    ensures verdict { IfOk result (λ verdict. IsVerdict (letters_of recording.now) directive.now verdict) }
    ensures judgeable { OnOk result (IsJudgeable directive.now) }
    ensures fault { IfErr result (MayRefuse directive.now) }
{
    let automaton = automaton_of(alloc, directive)?;
    let atoms = tested_atoms(alloc, &directive.formula)?;
    let pass = Pass {
        automaton: &automaton,
        atoms: &atoms,
        recording,
    };
    let answers = pass.answers(alloc)?;
    Ok(Verdict {
        number: directive.number,
        kind: directive.kind,
        label: copy_of(alloc, &directive.label)?,
        weak: answers.weak,
        neutral: answers.neutral,
        strong: answers.strong,
    })
}

/// The automaton of a directive's formula, with its clocks rewritten away.
pub(crate) fn automaton_of(alloc: Global, directive: &Directive) -> Result<Alternating, UnitFault>
    ensures meaning { IfOk result (λ automaton. Means automaton directive.now) }
    ensures judgeable { OnOk result (IsJudgeable directive.now) }
    ensures fault { IfErr result (MayRefuse directive.now) }
{
    let plain = unclock(alloc, &directive.formula, None)?;
    match of(alloc, &plain) {
        Ok(automaton) => Ok(automaton),
        Err(LimitFault::TooLarge(limit)) => Err(UnitFault::TooLarge(directive.number, limit)),
        Err(LimitFault::NoMemory) => Err(UnitFault::NoMemory),
    }
}

fn copy_of(alloc: Global, label: &Option<Text>) -> Result<Option<Text>, NoMemory>
    ensures { IfOk result (λ new. new ≡ label.now) }
{
    match label {
        None => Ok(None),
        Some(label) => Ok(Some(label.copy(alloc)?)),
    }
}
