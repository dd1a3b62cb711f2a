ghost use Rattle.std.specs.Prelude.{◌≡◌, map, IfOk};
ghost use Rattle.psl_tree.specs.Trees.{Not};
ghost use Rattle.alternating_theory.specs.LoopLaws.{LoopsOf};
ghost use Rattle.alternating_theory.specs.Construction.{opposite_obligation};
ghost use Rattle.alternating_theory.specs.Dual.{opposite_automaton};
ghost use Rattle.alternating_theory.specs.Laws.{ValuesOf, NamesOf, SizeOf};
ghost use Rattle.alternating_theory.specs.Atoms.{KeepsAtoms};
ghost use Rattle.alternating.specs.Negations.{OfItsFormula};
ghost use Rattle.alternating.specs.Views.{obligations_of_code};

use crate::automaton::Alternating;
use crate::obligation::Obligation;
use psl_base::NoMemory;
use std::alloc::Global;

impl Alternating {
    /// The dual: each obligation's dual, with the same numbers. Of the automaton of a formula it is the
    /// automaton of the negation: it has on each finite word the value, and accepts the words with a
    /// loop, that this formula has; it is as long, and tests the same atoms.
    pub fn dual(&self, alloc: Global) -> Result<Alternating, NoMemory>
        ensures dual { IfOk result (λ dual. dual ≡ opposite_automaton self.now) }
        ensures values { IfOk result (λ dual. OfItsFormula self.now (λ formula. ValuesOf dual (Not formula))) }
        ensures loops { IfOk result (λ dual. OfItsFormula self.now (λ formula. LoopsOf dual (Not formula))) }
        ensures names { IfOk result (λ dual. OfItsFormula self.now (λ formula. NamesOf dual)) }
        ensures size { IfOk result (λ dual. OfItsFormula self.now (λ formula. SizeOf dual formula)) }
        ensures atoms { IfOk result (λ dual. OfItsFormula self.now (λ formula. KeepsAtoms dual formula)) }
    {
        let dual = self.opposite(alloc)?;
        Ok(dual)
    }

    // The dual of each obligation, and the same start.
    fn opposite(&self, alloc: Global) -> Result<Alternating, NoMemory>
        ensures { IfOk result (λ dual. dual ≡ opposite_automaton self.now) }
    {
        let obligations = opposites(alloc, self.obligations.as_slice())?;
        Ok(Alternating {
            start: self.start,
            obligations,
        })
    }
}

// The duals of obligations, in order.
fn opposites(alloc: Global, obligations: &[Obligation]) -> Result<Vec<Obligation>, NoMemory>
    ensures { IfOk result (λ new. obligations_of_code new.items ≡ map opposite_obligation (obligations_of_code obligations.now)) }
{
    let mut found = Vec::new(alloc);
    for obligation in obligations {
        let new = obligation.opposite(alloc)?;
        found.push(new)?;
    }
    Ok(found)
}
