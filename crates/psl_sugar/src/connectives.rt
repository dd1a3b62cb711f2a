// Operators that Booleans and properties have alike.
ghost use Rattle.psl_tree.specs.Sugar.{disjunction, implication};
ghost use Rattle.psl_sugar.specs.Booleans.{boolean_implication, boolean_iff};
ghost use Rattle.psl_sugar.specs.Budget.{GivesBoolean, GivesFormula};
ghost use Rattle.psl_sugar.specs.Connectives.{boolean_row, formula_row};
ghost use Rattle.psl_sugar.specs.Properties.{iff};
ghost use Rattle.psl_sugar.specs.Rows.{BooleansRow, FormulasRow};

use crate::{MeasuredBool, MeasuredFl, SugarFault};
use std::alloc::Global;

/// An operator that Booleans and properties have alike (IEEE 1850, clauses 5 and 6.2).
#[derive(Clone, Copy, Debug, PartialEq, Eq)]
pub enum Connective {
    /// `&&`
    Conjunction,
    /// `||`
    Disjunction,
    /// `->`
    Implication,
    /// `<->`
    Equivalence,
}

impl MeasuredBool {
    /// A connective between two Booleans, as far as these were built.
    pub fn connected(
        alloc: Global,
        connective: Connective,
        left: Result<MeasuredBool, SugarFault>,
        right: Result<MeasuredBool, SugarFault>,
    ) -> Result<MeasuredBool, SugarFault>
        ensures { BooleansRow (boolean_row connective) left right result }
    {
        let left = left?;
        let right = right?;
        match connective {
            Connective::Conjunction => left.and(alloc, right),
            Connective::Disjunction => left.or(alloc, right),
            Connective::Implication => left.implication(alloc, right),
            Connective::Equivalence => left.iff(alloc, right),
        }
    }

    /// `b -> c`: `!b || c`.
    pub fn implication(self, alloc: Global, right: MeasuredBool) -> Result<MeasuredBool, SugarFault>
        ensures { GivesBoolean result (boolean_implication self right) }
    {
        self.not(alloc)?.or(alloc, right)
    }

    /// `b <-> c`: `(!b || c) && (!c || b)`.
    pub fn iff(self, alloc: Global, right: MeasuredBool) -> Result<MeasuredBool, SugarFault>
        ensures { GivesBoolean result (boolean_iff self right) }
    {
        let forth = self.copy(alloc)?.implication(alloc, right.copy(alloc)?)?;
        let back = right.implication(alloc, self)?;
        forth.and(alloc, back)
    }
}

impl MeasuredFl {
    /// A connective between two properties, as far as these were built.
    pub fn connected(
        alloc: Global,
        connective: Connective,
        left: Result<MeasuredFl, SugarFault>,
        right: Result<MeasuredFl, SugarFault>,
    ) -> Result<MeasuredFl, SugarFault>
        ensures { FormulasRow (formula_row connective) left right result }
    {
        match connective {
            Connective::Conjunction => left?.and(alloc, right?),
            Connective::Disjunction => left?.disjunction(alloc, right?),
            Connective::Implication => left?.implication(alloc, right?),
            Connective::Equivalence => left?.iff(alloc, right?),
        }
    }

    /// `f || g`: `not (not f && not g)`.
    pub fn disjunction(self, alloc: Global, right: MeasuredFl) -> Result<MeasuredFl, SugarFault>
        ensures { GivesFormula result (disjunction self right) }
    {
        let left = self.not(alloc)?;
        let right = right.not(alloc)?;
        left.and(alloc, right)?.not(alloc)
    }

    /// `f -> g`: `(not f) || g`.
    pub fn implication(self, alloc: Global, right: MeasuredFl) -> Result<MeasuredFl, SugarFault>
        ensures { GivesFormula result (implication self right) }
    {
        self.not(alloc)?.disjunction(alloc, right)
    }

    /// `f <-> g`: `(f -> g) && (g -> f)`.
    pub fn iff(self, alloc: Global, right: MeasuredFl) -> Result<MeasuredFl, SugarFault>
        ensures { GivesFormula result (iff self right) }
    {
        let forth = self.copy(alloc)?.implication(alloc, right.copy(alloc)?)?;
        let back = right.implication(alloc, self)?;
        forth.and(alloc, back)
    }
}
