// Whole texts.
ghost use Rattle.std.specs.Prelude.{◌≡◌, ◌++◌, [], List, IfOk, IfErr};
ghost use Rattle.psl_tree.specs.Directives.{AreOver, AreSmall};
ghost use Rattle.psl_layer_theory.specs.Answers.{IsUnit, IsLayerFault};
ghost use Rattle.psl_layer_theory.specs.Directives as spec;
ghost use Rattle.psl_layer_theory.specs.FirstFlaw as flaws;
ghost use Rattle.psl_layer_theory.specs.Flaws.{statements_flaws, units_flaws, tree_flaws};
ghost use Rattle.psl_layer_theory.specs.declared.fault.Flaw.{Flaw as spec_flaw};
ghost use Rattle.psl_tree.specs.Names.{AreAlike};
ghost use Rattle.psl_layer.specs.Outcomes.{IsOutcome};

use crate::asked::with_list;
use crate::order::earlier;
use crate::statements::read_statements;
use psl_base::{Items, NoMemory};
use psl_grammar::{Statement, UnitTree, VerificationUnit};
use psl_layer_theory::{Cause, Flaw, LayerFault};
use psl_names::{PathIndex, bus_names};
use psl_tree::{Names, Unit};
use std::alloc::Global;

/// What was found of a text so far. A fault of kinds and names anywhere goes before a formula that is too large, so both
/// are kept to the end.
#[derive(Drop)]
struct Outcome {
    /// The first fault of kinds and names, if there is one.
    flaw: Option<Flaw>,
    /// The directives, or the place of the first that is too large.
    built: Result<Unit, LayerFault>,
}

// Nothing of a text.
fn nothing(alloc: Global) -> Outcome
    ensures { IsOutcome [] [] result }
{
    Outcome {
        flaw: None,
        built: Ok(Items::new(alloc)),
    }
}

// What was found with a list of statements behind.
fn with_statements(
    alloc: Global,
    names: &PathIndex,
    outcome: Outcome,
    all: &[Statement],
) -> Result<Outcome, NoMemory>
    ensures { IfOk result (λ new. (found : List spec_flaw) (asked : List spec.Asked) → IsOutcome found asked outcome →
        IsOutcome (found ++ statements_flaws [] names.now all.now) (asked ++ spec.asked_in names.now all.now) new) }
{
    let reading = read_statements(alloc, names, all)?;
    let flaw = earlier(outcome.flaw, reading.flaw);
    let built = with_list(alloc, outcome.built, reading.asked, &reading.scope.clock);
    Ok(Outcome { flaw, built })
}

// What was found of verification units.
fn units_outcome(
    alloc: Global,
    names: &PathIndex,
    units: &[VerificationUnit],
) -> Result<Outcome, NoMemory>
    ensures { IfOk result (IsOutcome (units_flaws names.now units.now) (spec.asked_in_units names.now units.now)) }
{
    let mut outcome = nothing(alloc);
    for unit in units {
        outcome = with_statements(alloc, names, outcome, unit.statements.as_slice())?;
    }
    Ok(outcome)
}

// What was found of a text.
fn outcome_of(alloc: Global, tree: &UnitTree, names: &PathIndex) -> Result<Outcome, NoMemory>
    ensures { IfOk result (IsOutcome (tree_flaws names.now tree.now) (spec.kernel names.now tree.now)) }
{
    match tree {
        UnitTree::Units(units) => units_outcome(alloc, names, units.as_slice()),
        UnitTree::Statements(all) => {
            with_statements(alloc, names, nothing(alloc), all.as_slice())
        }
    }
}

// The fault that is named for a fault of kinds and names.
fn fault_of(flaw: Flaw) -> LayerFault
    ensures { result ≡ flaws.fault_of flaw }
{
    match flaw.cause {
        Cause::Kind => LayerFault::Kind(flaw.place),
        Cause::UnknownName => LayerFault::UnknownName(flaw.place),
        Cause::Ambiguous => LayerFault::Ambiguous(flaw.place),
        Cause::DeclaredTwice => LayerFault::DeclaredTwice(flaw.place),
        Cause::EmptyRange => LayerFault::EmptyRange(flaw.place),
        Cause::ConstantTooWide => LayerFault::ConstantTooWide(flaw.place),
    }
}

/// The directives of a text over the names of signals, numbered from 1, in the kernel. Where kinds and names are at fault
/// it is refused with the first fault of them, and else where a formula has more than 4,096 constructors at the word of
/// the first directive that has one. Where all names of one signal have the same number of indices, each atom is in
/// range: some name has its signal, and each name that has it has its bit.
pub fn resolve(alloc: Global, tree: &UnitTree, names: &Names) -> Result<Unit, LayerFault>
    ensures unit { IfOk result (IsUnit tree.now names.now) }
    ensures fault { IfErr result (IsLayerFault tree.now names.now) }
    ensures in_range { AreAlike names.now → IfOk result (λ unit. AreOver names.now unit) }
    ensures small { IfOk result (λ unit. AreSmall unit) }
{
    let buses = bus_names(alloc, names)?;
    let index = PathIndex::of(alloc, names, &buses)?;
    let outcome = outcome_of(alloc, tree, &index)?;
    match outcome.flaw {
        Some(flaw) => Err(fault_of(flaw)),
        None => outcome.built,
    }
}
