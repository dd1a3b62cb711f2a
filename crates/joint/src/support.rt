// Nothing is owed or pending next that nothing asks for.
ghost use Rattle.std.specs.Prelude.{◌≡◌, ◌<◌, All, IfErr, IfOk, IsTrue, true};
ghost use Rattle.alternating.specs.Views.{positive_of};
ghost use Rattle.alternating_theory.specs.Atoms.{AtomsOfObligations, AtomsOfPositive};
ghost use Rattle.clauses.specs.declared.flat.CnfFault.{CnfFault};
ghost use Rattle.clauses.specs.Literals.{is_literal};
ghost use Rattle.gates_theory.specs.Terms.Term.{Literal, Negation};
ghost use Rattle.joint.specs.Asked.{asked_rows};
ghost use Rattle.joint.specs.Guards.{asker_bit, guard_of};
ghost use Rattle.joint_theory.specs.Bits.{count_of};
ghost use Rattle.joint_theory.specs.Guards.{guards, AtomsOfGuard};
ghost use Rattle.joint_theory.specs.Relation as spec;
ghost use Rattle.run_gates.specs.Building.{Builds, BuildsAll};

use crate::askers::{AskedRows, askers_of, rows_of};
use crate::each::{Asking, add_each};
use crate::guards::{Guard, add_unless, and_guard, or_guard};
use crate::product::Product;
use alternating::Positive;
use clauses::CnfFault;
use psl_base::{NoMemory, Numbers};
use run_gates::{Builder, Held, negated};
use std::alloc::Global;

// What a literal says, and under none of its guards does a combination ask for the obligation of a number, where another
// literal says that it is owed or pending.
fn add_unless_asked(
    gates: &mut Builder,
    product: Product<'_>,
    all: i32,
    asker: i32,
    guard: Guard<'_>,
    delta: &Positive,
    number: u32,
) -> Result<i32, CnfFault>
    requires all { IsTrue (is_literal all) }
    requires asker { IsTrue (is_literal asker) }
    requires guard { AtomsOfGuard (λ atom. atom.signal < product.netlist.now.signals) (guard_of guard) }
    requires delta { AtomsOfPositive (λ atom. atom.signal < product.netlist.now.signals) (positive_of delta.now) }
    ensures { Builds gates.old gates.new (spec.unless_asking product.entry.netlist.now asker (Literal all)
        (guards (guard_of guard.entry) (positive_of delta.now) number)) result }
{
    match delta {
        Positive::Const(_) | Positive::Holds(_) => Ok(all),
        Positive::Owed(other) => {
            if *other == number {
                add_unless(gates, product, all, asker, guard)
            } else {
                Ok(all)
            }
        }
        Positive::And(left, right) => {
            let (first, second) = (and_guard(guard, right), and_guard(guard, left));
            let all = add_unless_asked(gates, product, all, asker, first, left, number)?;
            add_unless_asked(gates, product, all, asker, second, right, number)
        }
        Positive::Or(left, right) => {
            let (first, second) = (or_guard(guard, right), or_guard(guard, left));
            let all = add_unless_asked(gates, product, all, asker, first, left, number)?;
            add_unless_asked(gates, product, all, asker, second, right, number)
        }
    }
}

// Whether an obligation is owed, or is pending.
fn asker_of(product: Product<'_>, pending: bool, number: u32) -> i32
    requires { number < count_of product.violation.now }
    ensures is { result ≡ asker_bit product.entry.netlist.now product.entry.violation.now pending number }
    ensures literal { IsTrue (is_literal result) }
{
    if pending {
        product.pending(0, number)
    } else {
        product.owed(0, number)
    }
}

// What a literal says, and none of some obligations that are owed, or pending, asks for the one of a number.
fn add_unasked(
    gates: &mut Builder,
    product: Product<'_>,
    pending: bool,
    first: i32,
    askers: &[u32],
    number: u32,
) -> Result<i32, CnfFault>
    requires first { IsTrue (is_literal first) }
    requires askers { All (λ other. other < count_of product.violation.now) askers.now }
    requires atoms { AtomsOfObligations (λ atom. atom.signal < product.netlist.now.signals) product.violation.now.obligations }
    ensures { Builds gates.old gates.new (spec.unasked product.entry.netlist.now product.entry.violation.now
        (asker_bit product.entry.netlist.now product.entry.violation.now pending) number (Literal first) askers.now) result }
{
    let mut all = first;
    for i in 0..askers.len() {
        let other = askers[i];
        let asker = asker_of(product, pending, other);
        let delta = product.violation.delta(other);
        all = add_unless_asked(gates, product, all, asker, Guard::Always, delta, number)?;
    }
    Ok(all)
}

// An obligation is pending next, and something was pending.
fn add_still(gates: &mut Builder, product: Product<'_>, number: u32) -> Result<i32, CnfFault>
    requires { number < count_of product.violation.now }
    ensures { Builds gates.old gates.new (spec.pending_still
        product.entry.netlist.now product.entry.violation.now product.entry.width number) result }
{
    let pending = product.pending(product.width, number);
    gates.and(pending, negated(product.emptied()))
}

// So it is, and none of some obligations that were pending asks for it.
fn add_unasked_still(
    gates: &mut Builder,
    product: Product<'_>,
    askers: &[u32],
    number: u32,
) -> Result<i32, CnfFault>
    requires below { number < count_of product.violation.now }
    requires askers { All (λ other. other < count_of product.violation.now) askers.now }
    requires atoms { AtomsOfObligations (λ atom. atom.signal < product.netlist.now.signals) product.violation.now.obligations }
    ensures { Builds gates.old gates.new (spec.unasked product.entry.netlist.now product.entry.violation.now
        (asker_bit product.entry.netlist.now product.entry.violation.now true) number (spec.pending_still
        product.entry.netlist.now product.entry.violation.now product.entry.width number) askers.now) result }
{
    let still = add_still(gates, product, number)?;
    add_unasked(gates, product, true, still, askers, number)
}

// The obligations whose deltas name the one of a number.
fn named_by(
    alloc: Global,
    product: Product<'_>,
    rows: &AskedRows,
    number: u32,
) -> Result<Numbers, CnfFault>
    requires rows { rows.now ≡ asked_rows product.violation.now }
    requires below { number < count_of product.violation.now }
    ensures is { IfOk result (λ numbers. numbers ≡ spec.askers product.entry.violation.now number) }
    ensures below { IfOk result (All (λ other. other < count_of product.entry.violation.now)) }
    ensures err { IfErr result (λ fault. fault ≡ CnfFault.NoMemory) }
{
    match askers_of(alloc, product.violation, rows, number) {
        Ok(askers) => Ok(askers),
        Err(NoMemory) => Err(CnfFault::NoMemory),
    }
}

// An obligation is owed next only where one that is owed asks for it.
#[derive(Clone, Copy)]
struct OwedAsked<'a> {
    alloc: Global,
    product: Product<'a>,
    rows: &'a AskedRows,
}

impl<'a> Asking for OwedAsked<'a> {
    ghost count = { λ this. count_of this.product.violation.now };

    ghost allows = { λ this. (this.rows.now ≡ asked_rows this.product.violation.now)
        × AtomsOfObligations (λ atom. atom.signal < this.product.netlist.now.signals) this.product.violation.now.obligations };

    ghost term = { λ this number. Negation
        (spec.unasked_owed this.product.netlist.now this.product.violation.now this.product.width number) };

    fn add_asked(&self, gates: &mut Builder, number: u32) -> Result<i32, CnfFault> {
        let product = self.product;
        let askers = named_by(self.alloc, product, self.rows, number)?;
        let owed = product.owed(product.width, number);
        let unasked = add_unasked(gates, product, false, owed, askers.as_slice(), number)?;
        Ok(negated(unasked))
    }
}

// While something is pending, an obligation is pending next only where one that is pending asks for it.
#[derive(Clone, Copy)]
struct PendingAsked<'a> {
    alloc: Global,
    product: Product<'a>,
    rows: &'a AskedRows,
}

impl<'a> Asking for PendingAsked<'a> {
    ghost count = { λ this. count_of this.product.violation.now };

    ghost allows = { λ this. (this.rows.now ≡ asked_rows this.product.violation.now)
        × AtomsOfObligations (λ atom. atom.signal < this.product.netlist.now.signals) this.product.violation.now.obligations };

    ghost term = { λ this number. Negation
        (spec.unasked_pending this.product.netlist.now this.product.violation.now this.product.width number) };

    fn add_asked(&self, gates: &mut Builder, number: u32) -> Result<i32, CnfFault> {
        let product = self.product;
        let askers = named_by(self.alloc, product, self.rows, number)?;
        let unasked = add_unasked_still(gates, product, askers.as_slice(), number)?;
        Ok(negated(unasked))
    }
}

/// Nothing is owed or pending behind a joint state that nothing asks for.
pub(crate) fn add_support(
    alloc: Global,
    gates: &mut Builder,
    held: &mut Held,
    product: Product<'_>,
) -> Result<(), CnfFault>
    requires { AtomsOfObligations (λ atom. atom.signal < product.netlist.now.signals) product.violation.now.obligations }
    ensures { BuildsAll gates.old gates.new held.old held.new
        (spec.support_terms product.entry.netlist.now product.entry.violation.now product.entry.width) result }
{
    let (rows, obligations) = (&asked(alloc, product)?, product.obligations());
    add_each(
        gates,
        held,
        &OwedAsked {
            alloc,
            product,
            rows,
        },
        obligations,
    )?;
    add_each(
        gates,
        held,
        &PendingAsked {
            alloc,
            product,
            rows,
        },
        obligations,
    )
}

// For each obligation, whether it asks for each one.
fn asked(alloc: Global, product: Product<'_>) -> Result<AskedRows, CnfFault>
    ensures is { IfOk result (λ rows. rows ≡ asked_rows product.entry.violation.now) }
    ensures err { IfErr result (λ fault. fault ≡ CnfFault.NoMemory) }
{
    match rows_of(alloc, product.violation) {
        Ok(rows) => Ok(rows),
        Err(NoMemory) => Err(CnfFault::NoMemory),
    }
}
