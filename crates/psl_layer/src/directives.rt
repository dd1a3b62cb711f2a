// Directives, and their formulas under the default clock of their list.
ghost use Rattle.std.specs.Prelude.{false, Option, IfOk};
ghost use Rattle.psl_layer_theory.specs.Directives as spec;
ghost use Rattle.psl_tree.specs.Trees.{Boolean, Formula};
ghost use Rattle.psl_tree.specs.declared.directive.Kind.TheVariants as kinds;
ghost use Rattle.psl_layer.specs.Asked.{GivesForm, UnderRow};
ghost use Rattle.psl_layer.specs.Built.{GivesClock};
ghost use Rattle.psl_sugar.specs.Budget.{GivesFormula};
ghost use Rattle.psl_layer.specs.CheckedBy.{IsChecked};
ghost use Rattle.psl_layer.specs.Scopes.{Stands, named_in};

use crate::elaborated::{Checked, Elaborated};
use crate::expressions::Context;
use crate::meaning::Meaning;
use crate::nodes::checked_clock;
use crate::operators::clocked;
use crate::scope::Clock;
use psl_base::NoMemory;
use psl_grammar::Expression;
use psl_sugar::{MeasuredFl, SugarFault};
use psl_tree::Kind;
use std::alloc::Global;

/// What a directive asks, as far as it is known without the default clock of its list: this may stand behind it.
#[derive(Debug, Drop)]
pub(crate) enum Form {
    /// This formula: it has a clock of its own.
    Settled(Result<MeasuredFl, SugarFault>),
    /// `assert` or `assume` of this.
    Asserted(Meaning),
    /// `cover` of this.
    Covered(Meaning),
}

/// What is known of a directive's property, and what is asked of it.
#[derive(Debug, Drop)]
pub(crate) struct Directed {
    pub checked: Checked,
    pub form: Form,
}

// A property under the default clock, if there is one.
fn under_clock(alloc: Global, clock: Clock, part: Meaning) -> Result<MeasuredFl, SugarFault>
    ensures { UnderRow spec.under_clock clock part result }
{
    match clock {
        None => part.into_formula(),
        Some(clock) => clocked(alloc, part, clock).into_formula(),
    }
}

// The formula of `cover` under the default clock, if there is one.
fn covered_under(alloc: Global, clock: Clock, part: Meaning) -> Result<MeasuredFl, SugarFault>
    ensures { UnderRow spec.covered_under clock part result }
{
    let sequence = part.into_sequence()?;
    match clock {
        None => MeasuredFl::covered(alloc, sequence),
        Some(clock) => MeasuredFl::covered_at(alloc, sequence, clock?),
    }
}

impl Form {
    /// The formula under the default clock, if there is one.
    pub(crate) fn under(self, alloc: Global, clock: Clock) -> Result<MeasuredFl, SugarFault>
        ensures { (wanted : Option Boolean) (formula : Formula) → GivesClock clock wanted → GivesForm wanted self formula → GivesFormula result formula }
    {
        match self {
            Form::Settled(formula) => formula,
            Form::Asserted(part) => under_clock(alloc, clock, part),
            Form::Covered(part) => covered_under(alloc, clock, part),
        }
    }
}

impl<'s, 'd, 'n> Context<'s, 'd, 'n> {
    // `assert` and `assume`: the default clock is put on a property that has none of its own.
    fn asserted(&self, property: &Expression) -> Result<Directed, NoMemory>
        requires { Stands self.now.scope.now self.now.names.now }
        ensures checked { IfOk result (λ new. IsChecked self.now.scope.now.before.now self.now.names.now false property.now new.checked) }
        ensures form { IfOk result (λ new. (wanted : Option Boolean) → GivesForm wanted new.form
            (spec.directive_formula (named_in self.now.names.now self.now.scope.now.before.now) self.now.names.now wanted kinds.Assert property.now)) }
    {
        let Elaborated { checked, sense } = Box::into_inner(self.elaborate(false, property)?);
        let meaning = sense.into_meaning(self.alloc);
        if let Expression::Clocked(..) = property {
            let form = Form::Settled(meaning.into_formula());
            return Ok(Directed { checked, form });
        }
        let form = Form::Asserted(meaning);
        Ok(Directed { checked, form })
    }

    // `cover`: the clock of a property that has one of its own is put on the whole.
    #[tactic(auto, using(crate::proofs::Firsts::of_both))]
    fn covered(&self, property: &Expression) -> Result<Directed, NoMemory>
        requires { Stands self.now.scope.now self.now.names.now }
        ensures checked { IfOk result (λ new. IsChecked self.now.scope.now.before.now self.now.names.now false property.now new.checked) }
        ensures form { IfOk result (λ new. (wanted : Option Boolean) → GivesForm wanted new.form
            (spec.directive_formula (named_in self.now.names.now self.now.scope.now.before.now) self.now.names.now wanted kinds.Cover property.now)) }
    {
        if let Expression::Clocked(x, _, own) = property {
            let x = Box::into_inner(self.elaborate(false, x)?);
            let own = Box::into_inner(self.elaborate(false, own)?);
            let checked = checked_clock(false, x.checked, own.checked);
            let clock = own.sense.into_meaning(self.alloc).into_boolean();
            let part = x.sense.into_meaning(self.alloc);
            let form = Form::Settled(covered_under(self.alloc, Some(clock), part));
            return Ok(Directed { checked, form });
        }
        let Elaborated { checked, sense } = Box::into_inner(self.elaborate(false, property)?);
        let form = Form::Covered(sense.into_meaning(self.alloc));
        Ok(Directed { checked, form })
    }

    /// A directive's property, and what is asked of it.
    pub(crate) fn directive(&self, kind: Kind, property: &Expression) -> Result<Directed, NoMemory>
        requires { Stands self.now.scope.now self.now.names.now }
        ensures checked { IfOk result (λ new. IsChecked self.now.scope.now.before.now self.now.names.now false property.now new.checked) }
        ensures form { IfOk result (λ new. (wanted : Option Boolean) → GivesForm wanted new.form
            (spec.directive_formula (named_in self.now.names.now self.now.scope.now.before.now) self.now.names.now wanted kind property.now)) }
    {
        match kind {
            Kind::Cover => self.covered(property),
            Kind::Assert | Kind::Assume => self.asserted(property),
        }
    }
}
