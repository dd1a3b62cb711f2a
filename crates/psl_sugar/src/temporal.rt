// Operators before a property that need no count.
ghost use Rattle.psl_tree.specs.Sugar.{eventually, always};
ghost use Rattle.psl_sugar.specs.Budget.{GivesFormula};
ghost use Rattle.psl_sugar.specs.Properties.{never, next};

use crate::{MeasuredBool, MeasuredFl, Strength, SugarFault};
use std::alloc::Global;

impl MeasuredFl {
    /// `eventually! f`, for an `f` that is no sequence: `true U f`.
    pub fn eventually(self, alloc: Global) -> Result<MeasuredFl, SugarFault>
        ensures { GivesFormula result (eventually self) }
    {
        MeasuredFl::now(MeasuredBool::constant(true))?.strong_until(alloc, self)
    }

    /// `always f`: not eventually not `f`.
    pub fn always(self, alloc: Global) -> Result<MeasuredFl, SugarFault>
        ensures { GivesFormula result (always self) }
    {
        self.not(alloc)?.eventually(alloc)?.not(alloc)
    }

    /// `never f`, for an `f` that is no sequence: always not `f`.
    pub fn never(self, alloc: Global) -> Result<MeasuredFl, SugarFault>
        ensures { GivesFormula result (never self) }
    {
        self.not(alloc)?.always(alloc)
    }

    /// `next! f`, `next f`.
    pub fn next(self, alloc: Global, strength: Strength) -> Result<MeasuredFl, SugarFault>
        ensures { GivesFormula result (next strength self) }
    {
        match strength {
            Strength::Strong => self.next_letter(alloc),
            Strength::Weak => self.not(alloc)?.next_letter(alloc)?.not(alloc),
        }
    }
}
