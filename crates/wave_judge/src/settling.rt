ghost use Rattle.std.specs.Prelude.{All, IfOk};
ghost use Rattle.psl_tree.specs.Directives.{AreOver, AreSmall, IsOver, IsSmall};
ghost use Rattle.psl_tree.specs.Trees.{formula_of};
ghost use Rattle.vcd_reader.specs.Sampled.{letters_of};
ghost use Rattle.wave_judge.specs.Faults.{IsJudgeable};
ghost use Rattle.wave_judge.specs.Judged.{IsVerdict, AreVerdicts};
ghost use Rattle.wave_judge.specs.Levels.{level_of};
ghost use Rattle.wave_judge.specs.Settled.{IsPoint, IsPointOf, ArePoints};
ghost use Rattle.wave_judge.specs.Sides.{IsSettled};

use crate::judging::automaton_of;
use crate::leveling::level;
use crate::packing::tested_atoms;
use crate::pass::Pass;
use crate::search::{Search, Side};
use crate::verdict::{Level, Points, Verdict, Verdicts};
use psl_base::{Items, NoMemory};
use psl_tree::{Directive, Unit, UnitFault};
use std::alloc::Global;
use vcd_reader::Recording;

/// For each directive of a unit that was judged how many first samples settle its verdict: the least count, 0 or more, at
/// which the directive fails, or holds strongly, whatever samples follow. None where its verdict is another. Each takes a
/// few times as long as the verdict.
///
/// # Errors
/// `NoMemory` where the allocator refuses memory.
pub fn points(
    alloc: Global,
    unit: &Unit,
    recording: &Recording,
    verdicts: &Verdicts,
) -> Result<Points, NoMemory>
    requires in_range { AreOver recording.now.names unit.now }
    requires small { AreSmall unit.now }
    requires judgeable { All IsJudgeable unit.now }
    requires verdicts { AreVerdicts (letters_of recording.now) unit.now verdicts.now }
    ensures { IfOk result (ArePoints (letters_of recording.now) unit.now verdicts.now) }
{
    let mut points = Items::new(alloc);
    for (place, directive) in unit.as_slice().iter().enumerate() {
        points.push(point_of(alloc, directive, recording, verdicts.at(place))?)?;
    }
    Ok(points)
}

// The same for one directive.
fn point_of(
    alloc: Global,
    directive: &Directive,
    recording: &Recording,
    verdict: &Verdict,
) -> Result<Option<u32>, NoMemory>
    requires in_range { IsOver recording.now.names directive.now }
    requires small { IsSmall directive.now }
    requires judgeable { IsJudgeable directive.now }
    requires verdict { IsVerdict (letters_of recording.now) directive.now verdict.now }
    ensures { IfOk result
        (IsPointOf (level_of verdict.now.weak verdict.now.neutral verdict.now.strong) (formula_of directive.now.formula) (letters_of recording.now)) }
{
    match level(verdict) {
        Level::Fails => Ok(Some(settled_at(alloc, directive, recording, Side::Against)?)),
        Level::HoldsStrongly => Ok(Some(settled_at(alloc, directive, recording, Side::For)?)),
        Level::Holds | Level::Pending => Ok(None),
    }
}

// How many first samples settle the verdict of a directive that all the samples settle.
fn settled_at(
    alloc: Global,
    directive: &Directive,
    recording: &Recording,
    side: Side,
) -> Result<u32, NoMemory>
    requires in_range { IsOver recording.now.names directive.now }
    requires small { IsSmall directive.now }
    requires judgeable { IsJudgeable directive.now }
    requires settled { IsSettled side (formula_of directive.now.formula) (letters_of recording.now) }
    ensures { IfOk result (IsPoint (IsSettled side (formula_of directive.now.formula)) (letters_of recording.now)) }
{
    let automaton = match automaton_of(alloc, directive) {
        Ok(automaton) => automaton,
        Err(UnitFault::NoMemory) => return Err(NoMemory),
        Err(UnitFault::TooLarge(_, _)) => unreachable!(),
    };
    let atoms = tested_atoms(alloc, &directive.formula)?;
    let pass = Pass {
        automaton: &automaton,
        atoms: &atoms,
        recording,
    };
    let search = Search { pass, side };
    let count = search.point(alloc)?;
    Ok(count)
}
