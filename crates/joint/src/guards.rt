// Under which test an obligation is asked for.
ghost use Rattle.std.specs.Prelude.{◌≡◌, ◌<◌, IsTrue};
ghost use Rattle.alternating.specs.Views.{positive_of};
ghost use Rattle.clauses.specs.Literals.{is_literal};
ghost use Rattle.gates_theory.specs.Terms.Term.{Literal, Negation, Conjunction};
ghost use Rattle.joint.specs.Guards.{guard_of};
ghost use Rattle.joint_theory.specs.Guards as spec;
ghost use Rattle.joint_theory.specs.Guards.{AtomsOfGuard};
ghost use Rattle.joint_theory.specs.Relation.{asking_term};
ghost use Rattle.psl_tree.specs.Trees.{boolean_of};
ghost use Rattle.run_gates.specs.Building.{Builds};

use crate::product::Product;
use alternating::Positive;
use clauses::CnfFault;
use psl_tree::Bool;
use run_gates::{Builder, add_boolean, negated};

/// What an obligation is asked for under: always, or where a test holds, or where it does not.
#[derive(Clone, Copy)]
pub(crate) enum Guard<'a> {
    Always,
    If(&'a Bool),
    IfNot(&'a Bool),
}

// Beside a test in a conjunction; beside a constant that says nothing, what stood before.
fn if_test<'a>(guard: Guard<'a>, test: &'a Bool) -> Guard<'a>
    ensures { guard_of result ≡ spec.if_test (guard_of guard.entry) (boolean_of test.now) }
{
    match test {
        Bool::Const(true) => guard,
        Bool::Const(false) => Guard::If(test),
        Bool::Test(_) | Bool::Not(_) | Bool::And(_, _) | Bool::Or(_, _) => Guard::If(test),
    }
}

// The same in a disjunction.
fn unless_test<'a>(guard: Guard<'a>, test: &'a Bool) -> Guard<'a>
    ensures { guard_of result ≡ spec.unless_test (guard_of guard.entry) (boolean_of test.now) }
{
    match test {
        Bool::Const(false) => guard,
        Bool::Const(true) => Guard::IfNot(test),
        Bool::Test(_) | Bool::Not(_) | Bool::And(_, _) | Bool::Or(_, _) => Guard::IfNot(test),
    }
}

/// What stands beside another combination in a conjunction.
pub(crate) fn and_guard<'a>(guard: Guard<'a>, sibling: &'a Positive) -> Guard<'a>
    ensures { guard_of result ≡ spec.and_guard (guard_of guard.entry) (positive_of sibling.now) }
{
    match sibling {
        Positive::Holds(test) => if_test(guard, test),
        Positive::Const(_) | Positive::Owed(_) | Positive::And(_, _) | Positive::Or(_, _) => {
            Guard::Always
        }
    }
}

/// And in a disjunction.
pub(crate) fn or_guard<'a>(guard: Guard<'a>, sibling: &'a Positive) -> Guard<'a>
    ensures { guard_of result ≡ spec.or_guard (guard_of guard.entry) (positive_of sibling.now) }
{
    match sibling {
        Positive::Holds(test) => unless_test(guard, test),
        Positive::Const(_) | Positive::Owed(_) | Positive::And(_, _) | Positive::Or(_, _) => {
            Guard::Always
        }
    }
}

// It is asked for under a guard by what a literal says is owed or pending.
fn add_asking(
    gates: &mut Builder,
    product: Product<'_>,
    asker: i32,
    guard: Guard<'_>,
) -> Result<i32, CnfFault>
    requires asker { IsTrue (is_literal asker) }
    requires atoms { AtomsOfGuard (λ atom. atom.signal < product.netlist.now.signals) (guard_of guard) }
    ensures { Builds gates.old gates.new (asking_term product.entry.netlist.now asker (guard_of guard.entry)) result }
{
    match guard {
        Guard::Always => Ok(asker),
        Guard::If(test) => {
            let holds = add_boolean(gates, product.position(), test)?;
            gates.and(asker, holds)
        }
        Guard::IfNot(test) => {
            let holds = add_boolean(gates, product.position(), test)?;
            gates.and(asker, negated(holds))
        }
    }
}

/// What a literal says, and it is not asked for under a guard.
pub(crate) fn add_unless(
    gates: &mut Builder,
    product: Product<'_>,
    all: i32,
    asker: i32,
    guard: Guard<'_>,
) -> Result<i32, CnfFault>
    requires asker { IsTrue (is_literal asker) }
    requires atoms { AtomsOfGuard (λ atom. atom.signal < product.netlist.now.signals) (guard_of guard) }
    ensures { Builds gates.old gates.new
        (Conjunction (Literal all) (Negation (asking_term product.entry.netlist.now asker (guard_of guard.entry)))) result }
{
    let asks = add_asking(gates, product, asker, guard)?;
    gates.and(all, negated(asks))
}
