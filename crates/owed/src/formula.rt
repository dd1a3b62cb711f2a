ghost use Rattle.std.specs.Prelude.{◌≡◌, List, Option, None, Some, IfOk};
ghost use Rattle.owed.specs.Owed.{broken, claimed, joined, owed as owed_formula, plain_assumed, plain_owed, under, with_directive};
ghost use Rattle.owed.specs.Boxed.{formula_in};
ghost use Rattle.owed.specs.Laws.{IsInRangeOf};
ghost use Rattle.clock_rewrite.specs.Clock.{HasSameWords};
ghost use Rattle.psl_tree.specs.Clockless.{IsPlain};
ghost use Rattle.psl_tree.specs.Trees.{formula_of};

use crate::kinds::is_assumed;
use clock_rewrite::unclock;
use psl_base::{NoMemory, boxed};
use psl_tree::{Directive, Fl, Kind, Unit};
use std::alloc::Global;

/// What is owed of a directive of a text, with its clocks rewritten away: of an assertion its formula and of a cover its
/// negation where the text assumes nothing, and else that it is not so that all assumptions hold and this does not. The
/// same words satisfy it as what is owed with its clocks.
pub fn owed(alloc: Global, unit: &Unit, directive: &Directive) -> Result<Fl, NoMemory>
    ensures formula { IfOk result (λ formula. formula_of formula ≡ plain_owed unit.now directive.now) }
    ensures no_clock { IfOk result (λ formula. IsPlain (formula_of formula)) }
    ensures meaning { IfOk result (λ formula. HasSameWords (formula_of formula) (owed_formula unit.now directive.now) None) }
    ensures in_range { IfOk result (λ formula. IsInRangeOf unit.now directive.now (formula_of formula)) }
{
    let formula = boxed_owed(alloc, unit, directive)?;
    Ok(Box::into_inner(formula))
}

// The same in a box.
fn boxed_owed(alloc: Global, unit: &Unit, directive: &Directive) -> Result<Box<Fl>, NoMemory>
    ensures { IfOk result (λ formula. formula_of formula.value ≡ plain_owed unit.now directive.now) }
{
    let assumed = assumed(alloc, unit)?;
    let formula = boxed(alloc, unclock(alloc, &directive.formula, None)?)?;
    let owed = under(alloc, assumed, directive.kind, formula)?;
    Ok(owed)
}

// The conjunction of the assumptions with their clocks rewritten away.
fn assumed(alloc: Global, unit: &Unit) -> Result<Option<Box<Fl>>, NoMemory>
    ensures { IfOk result (λ assumed. formula_in assumed ≡ plain_assumed unit.now) }
{
    let mut assumed = None;
    for directive in unit.as_slice() {
        assumed = with_directive(alloc, assumed, directive)?;
    }
    Ok(assumed)
}

// What is assumed with one directive more.
fn with_directive(
    alloc: Global,
    others: Option<Box<Fl>>,
    directive: &Directive,
) -> Result<Option<Box<Fl>>, NoMemory>
    ensures { IfOk result (λ new. formula_in new ≡ with_directive (formula_in others) directive.now) }
{
    if !is_assumed(directive.kind) {
        return Ok(others);
    }
    let part = boxed(alloc, unclock(alloc, &directive.formula, None)?)?;
    let all = with_part(alloc, others, part)?;
    Ok(Some(all))
}

// A conjunction with one part more.
fn with_part(alloc: Global, others: Option<Box<Fl>>, part: Box<Fl>) -> Result<Box<Fl>, NoMemory>
    ensures { IfOk result (λ new. Some (formula_of new.value) ≡ joined (formula_in others) (formula_of part.value)) }
{
    match others {
        None => Ok(part),
        Some(others) => boxed(alloc, Fl::And(others, part)),
    }
}

// The claim of a directive of this kind, which has to hold where what is assumed does.
fn under(
    alloc: Global,
    assumed: Option<Box<Fl>>,
    kind: Kind,
    formula: Box<Fl>,
) -> Result<Box<Fl>, NoMemory>
    ensures { IfOk result (λ new. formula_of new.value ≡ under (formula_in assumed) kind (formula_of formula.value)) }
{
    let Some(assumed) = assumed else {
        return claimed(alloc, kind, formula);
    };
    let broken = broken(alloc, kind, formula)?;
    let witness = boxed(alloc, Fl::And(assumed, broken))?;
    boxed(alloc, Fl::Not(witness))
}

// What a directive of this kind claims of each run.
fn claimed(alloc: Global, kind: Kind, formula: Box<Fl>) -> Result<Box<Fl>, NoMemory>
    ensures { IfOk result (λ new. formula_of new.value ≡ claimed kind (formula_of formula.value)) }
{
    match kind {
        Kind::Assert | Kind::Assume => Ok(formula),
        Kind::Cover => boxed(alloc, Fl::Not(formula)),
    }
}

// What a run satisfies that breaks the claim.
fn broken(alloc: Global, kind: Kind, formula: Box<Fl>) -> Result<Box<Fl>, NoMemory>
    ensures { IfOk result (λ new. formula_of new.value ≡ broken kind (formula_of formula.value)) }
{
    match kind {
        Kind::Assert | Kind::Assume => boxed(alloc, Fl::Not(formula)),
        Kind::Cover => Ok(formula),
    }
}
