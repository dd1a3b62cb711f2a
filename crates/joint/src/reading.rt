ghost use Rattle.std.specs.Prelude.{◌≡◌, length, IfOk};
ghost use Rattle.clauses.specs.Models.{IsModel};
ghost use Rattle.joint_theory.specs.Paths.{IsOpen};
ghost use Rattle.joint_theory.specs.Queries.{path_of, query, query_variables};
ghost use Rattle.run_terms.specs.Formulas.{values_of};

use crate::joined::Joint;
use crate::path::read_path as path_of_model;
use joint_theory::JointPath;
use psl_base::{Bits, NoMemory};
use run_gates::automaton_law;
use std::alloc::Global;

impl<'a> Joint<'a> {
    /// The open path that a model of `base` stands for where `initial` is true, and else one of `induction`.
    pub fn read_path(
        &self,
        alloc: Global,
        window: u32,
        initial: bool,
        model: &Bits,
    ) -> Result<JointPath, NoMemory>
        requires values { length model.now
            ≡ query_variables self.now.design self.now.automaton self.now.visits window initial }
        requires model { IsModel (values_of model.now)
            (query self.now.design self.now.automaton self.now.visits window initial) }
        ensures is { IfOk result (λ path. path
            ≡ path_of self.now.design self.now.automaton self.now.visits window initial (values_of model.now)) }
        ensures open { IfOk result (λ path.
            IsOpen self.now.design self.now.automaton self.now.visits window initial path) }
    {
        automaton_law(self.product.violation);
        let size = self.circuit.gates.len();
        let path = path_of_model(alloc, self.product, size, window, initial, model)?;
        Ok(path)
    }
}
