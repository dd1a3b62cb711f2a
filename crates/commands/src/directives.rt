ghost use Rattle.std.specs.Prelude.{◌∷◌, [], IfOk};
ghost use Rattle.psl_tree.specs.Directives.{AreOver, AreSmall};
ghost use Rattle.psl_tree.specs.Names.{AreAlike};
ghost use Rattle.commands.specs.Stages.{IsReading};
ghost use Rattle.commands.specs.Waves.{DirectivesReading};

use crate::faults::{fault_in, layer_diagnostic};
use crate::outcome::Fault;
use psl_grammar::UnitTree;
use psl_layer::resolve;
use psl_tree::{Names, Unit};
use std::alloc::Global;

/// The directives of a text over names.
pub fn directives(alloc: Global, tree: &UnitTree, names: &Names, unit: &str) -> Result<Unit, Fault>
    requires { AreAlike names.now }
    ensures reading { IsReading (unit.now ∷ []) (DirectivesReading unit.now tree.now names.now) result }
    ensures in_range { IfOk result (λ directives. AreOver names.now directives) }
    ensures small { IfOk result (λ directives. AreSmall directives) }
{
    match resolve(alloc, tree, names) {
        Ok(directives) => Ok(directives),
        Err(fault) => Err(fault_in(alloc, unit, layer_diagnostic(fault))),
    }
}
