ghost use Rattle.std.specs.Prelude.{◌≡◌, ◌≤◌, length, IfOk};
ghost use Rattle.alternating.specs.Limits.{HasLargeSequence};
ghost use Rattle.alternating_theory.specs.Laws.{NamesOf};
ghost use Rattle.owed.specs.Owed.{plain_owed};
ghost use Rattle.owed.specs.Violations.{AcceptsViolations, TestsNamesOf, violation_of};
ghost use Rattle.psl_tree.specs.Counts.{obligations_of};
ghost use Rattle.psl_tree.specs.declared.counts.TheConstants.{MOST_OBLIGATIONS};

use crate::formula::owed;
use alternating::{Alternating, of};
use psl_base::NoMemory;
use psl_tree::{Directive, LimitFault, Unit};
use std::alloc::Global;

/// The automaton of the words that violate what is owed of a directive of a text: of the words with a loop it accepts
/// just those that satisfy the negation. That it is not too large can be told by `owed_size` before.
pub fn violation(alloc: Global, unit: &Unit, directive: &Directive) -> Result<Alternating, NoMemory>
    requires sequences { HasLargeSequence (plain_owed unit.now directive.now) → ⊥ }
    requires obligations { obligations_of (plain_owed unit.now directive.now) ≤ MOST_OBLIGATIONS }
    ensures automaton { IfOk result (λ automaton. automaton ≡ violation_of unit.now directive.now) }
    ensures loops { IfOk result (λ automaton. AcceptsViolations automaton unit.now directive.now) }
    ensures names { IfOk result (λ automaton. NamesOf automaton) }
    ensures size { IfOk result (λ automaton. length automaton.obligations ≤ obligations_of (plain_owed unit.now directive.now)) }
    ensures in_range { IfOk result (λ automaton. TestsNamesOf unit.now directive.now automaton) }
{
    let formula = owed(alloc, unit, directive)?;
    match of(alloc, &formula) {
        Ok(automaton) => {
            let dual = automaton.dual(alloc)?;
            Ok(dual)
        }
        Err(LimitFault::NoMemory) => Err(NoMemory),
        Err(LimitFault::TooLarge(_)) => unreachable!(),
    }
}
