// What was asked by directives, and the directives that are made of it once the default clock is known.
ghost use Rattle.std.specs.Prelude.{◌≡◌, ◌≤◌, ◌∷◌, ◌++◌, [], suc, length, List, Option, IfErr, IfOk};
ghost use Rattle.psl_layer_theory.specs.Directives as spec;
ghost use Rattle.psl_tree.specs.Trees.{Boolean};
ghost use Rattle.psl_layer.specs.Asked.{Asks, AskAll, IsLonger};
ghost use Rattle.psl_layer.specs.Built.{GivesClock};

use crate::directives::Form;
use crate::scope::Clock;
use psl_base::{NoMemory, Place, Text};
use psl_layer_theory::LayerFault;
use psl_sugar::SugarFault;
use psl_tree::{Directive, Kind, MOST_CONSTRUCTORS, Unit};
use std::alloc::Global;

/// A directive that was read: all of it but its number, and the default clock of its list.
#[derive(Debug, Drop)]
pub(crate) struct Asked {
    pub kind: Kind,
    pub label: Option<Text>,
    /// The place of its word.
    pub place: Place,
    pub form: Form,
}

// An equal clock.
fn copy_of(alloc: Global, clock: &Clock) -> Result<Clock, NoMemory>
    ensures { IfOk result (λ new. new ≡ clock.now) }
{
    Ok(match clock {
        Some(Ok(clock)) => Some(Ok(clock.copy(alloc)?)),
        Some(Err(fault)) => Some(Err(*fault)),
        None => None,
    })
}

// The number of the next directive. Behind 2^32 - 1 directives there is none, and no fault stands for it: a tree may hold
// so many, since its type bounds no list. A file, which has at most 268,435,456 bytes, has fewer.
fn next_number(unit: &Unit) -> Result<u32, NoMemory>
    ensures number { IfOk result (λ number. number ≡ suc (length unit.now)) }
    ensures full { IfErr result (λ _. 4294967295 ≤ length unit.now) }
{
    let count = unit.len();
    if count < u32::MAX as usize {
        Ok(count as u32 + 1)
    } else {
        Err(NoMemory)
    }
}

// The directives of a text with one more, under the default clock of its list.
#[tactic(auto, using(crate::proofs::Longer::longer_one, crate::proofs::Longer::longer_large))]
fn with_asked(alloc: Global, unit: Unit, asked: Asked, clock: &Clock) -> Result<Unit, LayerFault>
    ensures { (wanted : Option Boolean) (one : spec.Asked) → GivesClock clock.now wanted → Asks wanted asked one → IsLonger unit (one ∷ []) result }
{
    let mut unit = unit;
    let Asked {
        kind,
        label,
        place,
        form,
    } = asked;
    let formula = match form.under(alloc, copy_of(alloc, clock)?) {
        Ok(formula) => formula,
        Err(SugarFault::TooLarge) => return Err(LayerFault::TooLarge(place)),
        Err(SugarFault::NoMemory) => return Err(LayerFault::NoMemory),
    };
    let size = u64::from(formula.size());
    prove!(size <= MOST_CONSTRUCTORS);
    let number = next_number(&unit)?;
    unit.push(Directive {
        number,
        kind,
        label,
        place,
        formula: formula.into_tree(),
    })?;
    Ok(unit)
}

// The directives of a text with those that were asked behind them, under the default clock of their list.
fn with_all_asked(
    alloc: Global,
    unit: Unit,
    asked: Vec<Asked>,
    clock: &Clock,
) -> Result<Unit, LayerFault>
    ensures { (wanted : Option Boolean) (all : List spec.Asked) → GivesClock clock.now wanted → AskAll wanted asked.items all → IsLonger unit all result }
{
    let mut unit = unit;
    let mut rest = asked.into_iter();
    while let Some(one) = rest.next() {
        unit = match with_asked(alloc, unit, one, clock) {
            Ok(longer) => longer,
            Err(fault) => return Err(fault),
        };
    }
    Ok(unit)
}

/// The directives of a text so far, if all of them fit, with those that were asked behind them.
pub(crate) fn with_list(
    alloc: Global,
    built: Result<Unit, LayerFault>,
    asked: Vec<Asked>,
    clock: &Clock,
) -> Result<Unit, LayerFault>
    ensures { (wanted : Option Boolean) (done all : List spec.Asked) → GivesClock clock.now wanted → AskAll wanted asked.items all →
        IsLonger [] done built → IsLonger [] (done ++ all) result }
{
    match built {
        Ok(unit) => with_all_asked(alloc, unit, asked, clock),
        Err(fault) => Err(fault),
    }
}
