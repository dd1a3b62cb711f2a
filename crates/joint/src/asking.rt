ghost use Rattle.std.specs.Prelude.{◌≡◌, ◌↔◌, true, false, IfOk, IfErr};
ghost use Rattle.gates_theory.specs.Sizes.{IsTooLarge};
ghost use Rattle.clauses.specs.declared.flat.CnfFault.{CnfFault};
ghost use Rattle.joint_theory.specs.Paths.{SomeOpen};
ghost use Rattle.joint_theory.specs.Queries as spec;
ghost use Rattle.joint_theory.specs.Queries.{base_variables, induction_variables};
ghost use Rattle.run_terms.specs.Formulas.{HasModel};

use crate::facts::circuit_is_sound;
use crate::joined::Joint;
use crate::queries::{base_of, induction_of};
use clauses::{Cnf, CnfFault};
use std::alloc::Global;

impl<'a> Joint<'a> {
    /// The formula that looks for a joint path from an initial state to a bad one, of at most so many states as the
    /// window. It has a model exactly where there is one.
    ///
    /// # Errors
    ///
    /// `TooLarge` only where there would be too many variables or words, and `NoMemory` if memory is refused.
    pub fn base(&self, alloc: Global, window: u32) -> Result<Cnf, CnfFault>
        ensures variables { IfOk result (λ cnf. cnf.variables
            ≡ base_variables self.now.design self.now.automaton self.now.visits window) }
        ensures clauses { IfOk result (λ cnf. cnf.clauses
            ≡ spec.base self.now.design self.now.automaton self.now.visits window) }
        ensures models { IfOk result (λ cnf. HasModel cnf.variables cnf.clauses
            ↔ SomeOpen self.now.design self.now.automaton self.now.visits window true) }
        ensures large { IfErr result (λ fault. fault ≡ CnfFault.TooLarge → IsTooLarge
            (base_variables self.now.design self.now.automaton self.now.visits window)
            (spec.base self.now.design self.now.automaton self.now.visits window)) }
    {
        circuit_is_sound(self.product, &self.circuit);
        base_of(alloc, self.product, &self.circuit, window)
    }

    /// The formula that looks for so many different joint states as the window that are not bad, each of which may follow
    /// the one before it, and then a bad one. It has a model exactly where there are such states.
    ///
    /// # Errors
    ///
    /// `TooLarge` only where there would be too many variables or words, and `NoMemory` if memory is refused.
    pub fn induction(&self, alloc: Global, window: u32) -> Result<Cnf, CnfFault>
        ensures variables { IfOk result (λ cnf. cnf.variables
            ≡ induction_variables self.now.design self.now.automaton self.now.visits window) }
        ensures clauses { IfOk result (λ cnf. cnf.clauses
            ≡ spec.induction self.now.design self.now.automaton self.now.visits window) }
        ensures models { IfOk result (λ cnf. HasModel cnf.variables cnf.clauses
            ↔ SomeOpen self.now.design self.now.automaton self.now.visits window false) }
        ensures large { IfErr result (λ fault. fault ≡ CnfFault.TooLarge → IsTooLarge
            (induction_variables self.now.design self.now.automaton self.now.visits window)
            (spec.induction self.now.design self.now.automaton self.now.visits window)) }
    {
        circuit_is_sound(self.product, &self.circuit);
        induction_of(alloc, self.product, &self.circuit, window)
    }
}
