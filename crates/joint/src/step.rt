// What a joint state asks of the one that follows it.
ghost use Rattle.std.specs.Prelude.{◌≡◌, suc, ◌<◌, ◌≤◌, ⊤, ◌∷◌, [], IsTrue, All, IfOk};
ghost use Rattle.alternating_theory.specs.Atoms.{AtomsOfObligations};
ghost use Rattle.gates_theory.specs.Terms.Term.{Literal};
ghost use Rattle.clauses.specs.Literals.{is_literal};
ghost use Rattle.joint_theory.specs.Bits.{count_of, owed_bit};
ghost use Rattle.joint_theory.specs.Relation as spec;
ghost use Rattle.joint_theory.specs.Relation.{none_literals};
ghost use Rattle.joint_theory.specs.Sliced.{asked_terms};
ghost use Rattle.run_gates.specs.Building.{Builds, BuildsAll};

use crate::each::{Asking, add_each};
use crate::literals::{add_implied, add_one, add_same};
use crate::product::Product;
use crate::support::add_support;
use clauses::CnfFault;
use gates_theory::Literals;
use psl_base::NoMemory;
use run_gates::{Builder, Held, Owing, add_all, add_moves, add_positive, negated, netlist_law};
use std::alloc::Global;

// An obligation that is owed next.
#[derive(Clone, Copy)]
struct OwedNext<'a> {
    product: Product<'a>,
}

impl<'a> Owing for OwedNext<'a> {
    ghost count = { λ this. count_of this.product.violation.now };

    ghost term = { λ this number. Literal (owed_bit this.product.netlist.now this.product.width number) };

    fn add_owed(&self, _gates: &mut Builder, number: u32) -> Result<i32, CnfFault> {
        Ok(self.product.owed(self.product.width, number))
    }
}

// An obligation that may meet next what is pending.
#[derive(Clone, Copy)]
struct PutOff<'a> {
    product: Product<'a>,
}

impl<'a> PutOff<'a> {
    // It is owed next and accepting, or pending next.
    fn literal(self, number: u32) -> i32
        requires { number < count_of self.product.violation.now }
        ensures is { result ≡ spec.put_off_literal self.entry.product.netlist.now self.entry.product.violation.now self.entry.product.width number }
        ensures literal { IsTrue (is_literal result) }
    {
        let product = self.product;
        if product.violation.accepting(number) {
            product.owed(product.width, number)
        } else {
            product.pending(product.width, number)
        }
    }
}

impl<'a> Owing for PutOff<'a> {
    ghost count = { λ this. count_of this.product.violation.now };

    ghost term = { λ this number. Literal
        (spec.put_off_literal this.product.netlist.now this.product.violation.now this.product.width number) };

    fn add_owed(&self, _gates: &mut Builder, number: u32) -> Result<i32, CnfFault> {
        Ok(self.literal(number))
    }
}

// What is owed is met.
#[derive(Clone, Copy)]
struct OwedMet<'a> {
    product: Product<'a>,
}

impl<'a> Asking for OwedMet<'a> {
    ghost count = { λ this. count_of this.product.violation.now };

    ghost allows = { λ this. AtomsOfObligations (λ atom. atom.signal < this.product.netlist.now.signals)
        this.product.violation.now.obligations };

    ghost term = { λ this number. spec.owed_term this.product.netlist.now this.product.violation.now this.product.width number };

    fn add_asked(&self, gates: &mut Builder, number: u32) -> Result<i32, CnfFault> {
        let product = self.product;
        let asked = product.violation.delta(number);
        let met = add_positive(gates, product.position(), &OwedNext { product }, asked)?;
        add_implied(gates, product.owed(0, number), met)
    }
}

// What is pending is met.
#[derive(Clone, Copy)]
struct PendingMet<'a> {
    product: Product<'a>,
}

impl<'a> Asking for PendingMet<'a> {
    ghost count = { λ this. count_of this.product.violation.now };

    ghost allows = { λ this. AtomsOfObligations (λ atom. atom.signal < this.product.netlist.now.signals)
        this.product.violation.now.obligations };

    ghost term = { λ this number. spec.put_off_term this.product.netlist.now this.product.violation.now this.product.width number };

    fn add_asked(&self, gates: &mut Builder, number: u32) -> Result<i32, CnfFault> {
        let product = self.product;
        let asked = product.violation.delta(number);
        let met = add_positive(gates, product.position(), &PutOff { product }, asked)?;
        add_implied(gates, product.pending(0, number), met)
    }
}

// Where nothing is pending, all that is owed next may meet what is pending.
#[derive(Clone, Copy)]
struct Anew<'a> {
    product: Product<'a>,
}

impl<'a> Asking for Anew<'a> {
    ghost count = { λ this. count_of this.product.violation.now };

    ghost allows = { λ this. ⊤ };

    ghost term = { λ this number. spec.anew_term this.product.netlist.now this.product.violation.now this.product.width number };

    fn add_asked(&self, gates: &mut Builder, number: u32) -> Result<i32, CnfFault> {
        let product = self.product;
        let next = PutOff { product }.literal(number);
        let pending = add_implied(gates, product.owed(product.width, number), next)?;
        add_implied(gates, product.emptied(), pending)
    }
}

// The next count is more than a number.
#[derive(Clone, Copy)]
struct Counted<'a> {
    product: Product<'a>,
}

impl<'a> Counted<'a> {
    // Nothing is pending, and the count is more than the number before, if there is one.
    fn add_risen(self, gates: &mut Builder, number: u32) -> Result<i32, CnfFault>
        requires { number ≤ self.product.visits }
        ensures { Builds gates.old gates.new
            (spec.risen_term self.entry.product.netlist.now self.entry.product.violation.now self.entry.product.width number) result }
    {
        let product = self.product;
        if number == 0 {
            Ok(product.emptied())
        } else {
            gates.and(product.emptied(), product.counted(0, number - 1))
        }
    }
}

impl<'a> Asking for Counted<'a> {
    ghost count = { λ this. suc this.product.visits };

    ghost allows = { λ this. ⊤ };

    ghost term = { λ this number. spec.count_term this.product.netlist.now this.product.violation.now this.product.width number };

    fn add_asked(&self, gates: &mut Builder, number: u32) -> Result<i32, CnfFault> {
        let product = self.product;
        let risen = self.add_risen(gates, number)?;
        let counts = add_one(gates, product.counted(0, number), risen)?;
        add_same(gates, product.counted(product.width, number), counts)
    }
}

/// The literals that nothing is pending.
fn none_pending(alloc: Global, product: Product<'_>) -> Result<Literals, NoMemory>
    ensures is { IfOk result (λ new. new ≡ none_literals product.entry.netlist.now product.entry.violation.now) }
    ensures literals { IfOk result (λ new. All (λ literal. IsTrue (is_literal literal)) new) }
{
    let mut literals = Literals::new(alloc);
    for number in 0..product.obligations() {
        literals.push(negated(product.pending(0, number)))?;
    }
    Ok(literals)
}

/// The choice says whether nothing is pending.
fn add_emptied(alloc: Global, gates: &mut Builder, product: Product<'_>) -> Result<i32, CnfFault>
    ensures { Builds gates.old gates.new
        (spec.emptied_term product.entry.netlist.now product.entry.violation.now product.entry.width) result }
{
    let literals = match none_pending(alloc, product) {
        Ok(literals) => literals,
        Err(NoMemory) => return Err(CnfFault::NoMemory),
    };
    let none = add_all(gates, literals.as_slice())?;
    add_same(gates, product.emptied(), none)
}

/// Holds that the choice says so.
fn hold_emptied(
    alloc: Global,
    gates: &mut Builder,
    held: &mut Held,
    product: Product<'_>,
) -> Result<(), CnfFault>
    ensures { BuildsAll gates.old gates.new held.old held.new
        (spec.emptied_term product.entry.netlist.now product.entry.violation.now product.entry.width ∷ []) result }
{
    let emptied = add_emptied(alloc, gates, product)?;
    held.hold(gates, emptied)
}

/// What is owed and pending is met.
pub(crate) fn add_asked_terms(
    gates: &mut Builder,
    held: &mut Held,
    product: Product<'_>,
) -> Result<(), CnfFault>
    requires { AtomsOfObligations (λ atom. atom.signal < product.netlist.now.signals) product.violation.now.obligations }
    ensures { BuildsAll gates.old gates.new held.old held.new
        (asked_terms product.entry.netlist.now product.entry.violation.now product.entry.width) result }
{
    let obligations = product.obligations();
    add_each(gates, held, &OwedMet { product }, obligations)?;
    add_each(gates, held, &PendingMet { product }, obligations)
}

/// The valuation behind that of a joint state follows it, and what is owed and pending is met.
fn add_met(gates: &mut Builder, held: &mut Held, product: Product<'_>) -> Result<(), CnfFault>
    requires { AtomsOfObligations (λ atom. atom.signal < product.netlist.now.signals) product.violation.now.obligations }
    ensures { BuildsAll gates.old gates.new held.old held.new
        (spec.met_terms product.entry.netlist.now product.entry.violation.now product.entry.width) result }
{
    let (netlist, obligations) = (product.netlist, product.obligations());
    netlist_law(netlist);
    add_moves(
        gates,
        held,
        product.position(),
        product.width,
        netlist.latches().as_slice(),
    )?;
    add_each(gates, held, &OwedMet { product }, obligations)?;
    add_each(gates, held, &PendingMet { product }, obligations)
}

/// Where nothing is pending, it begins anew.
pub(crate) fn add_breakpoint(
    alloc: Global,
    gates: &mut Builder,
    held: &mut Held,
    product: Product<'_>,
) -> Result<(), CnfFault>
    ensures { BuildsAll gates.old gates.new held.old held.new
        (spec.breakpoint_terms product.entry.netlist.now product.entry.violation.now product.entry.visits product.entry.width)
        result }
{
    hold_emptied(alloc, gates, held, product)?;
    add_each(gates, held, &Anew { product }, product.obligations())?;
    add_each(gates, held, &Counted { product }, product.visits + 1)
}

/// The bits behind those of a joint state are those of one that may follow it.
pub(crate) fn add_step(
    alloc: Global,
    gates: &mut Builder,
    held: &mut Held,
    product: Product<'_>,
) -> Result<(), CnfFault>
    requires { AtomsOfObligations (λ atom. atom.signal < product.netlist.now.signals) product.violation.now.obligations }
    ensures { BuildsAll gates.old gates.new held.old held.new
        (spec.step_terms product.entry.netlist.now product.entry.violation.now product.entry.visits product.entry.width)
        result }
{
    add_met(gates, held, product)?;
    add_breakpoint(alloc, gates, held, product)?;
    add_support(alloc, gates, held, product)
}
