// Aborts.
ghost use Rattle.psl_sugar.specs.Properties.{abort_row};
ghost use Rattle.psl_sugar.specs.Rows.{FormulaTestRow};

use crate::{MeasuredBool, MeasuredFl, SugarFault};
use std::alloc::Global;

/// An operator between a property and a Boolean that ends it (IEEE 1850, clause 6.2).
#[derive(Clone, Copy, Debug, PartialEq, Eq)]
pub enum AbortOperator {
    /// `abort`, `async_abort`
    Asynchronous,
    /// `sync_abort`
    Synchronous,
}

impl MeasuredFl {
    /// An abort of a property by a Boolean, as far as these were built.
    pub fn aborted(
        alloc: Global,
        operator: AbortOperator,
        part: Result<MeasuredFl, SugarFault>,
        test: Result<MeasuredBool, SugarFault>,
    ) -> Result<MeasuredFl, SugarFault>
        ensures { FormulaTestRow (abort_row operator) part test result }
    {
        match operator {
            AbortOperator::Asynchronous => part?.abort(alloc, test?),
            AbortOperator::Synchronous => part?.sync_abort(alloc, test?),
        }
    }
}
