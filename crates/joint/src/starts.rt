// How a joint path begins.
ghost use Rattle.std.specs.Prelude.{◌≡◌, ◌++◌, ◌<◌, ◌≤◌, ◌∷◌, [], map, neg_ℤ, suc, IfOk, OnOk, IsTrue};
ghost use Rattle.std.specs.List.{range_with_len};
ghost use Rattle.clauses.specs.Literals.{is_literal};
ghost use Rattle.joint_theory.specs.Bits.{count_bit, count_of, numbers_of, owed_bit, pending_bit};
ghost use Rattle.joint_theory.specs.Queries as spec;
ghost use Rattle.joint_theory.specs.States.{is_listed, not_accepting};

use crate::product::Product;
use gates_theory::Literals;
use psl_base::NoMemory;
use run_gates::{first_literals, negated, netlist_law};
use std::alloc::Global;

// A literal or its negation.
fn with_sign(sign: bool, literal: i32) -> i32
    requires { IsTrue (is_literal literal) }
    ensures { result ≡ spec.with_sign sign literal }
{
    if sign { literal } else { negated(literal) }
}

// Whether an obligation is the start.
fn is_start(product: Product<'_>, number: u32) -> bool
    ensures { result ≡ is_listed (product.entry.violation.now.start ∷ []) number }
{
    product.violation.start() == number
}

// Whether an obligation is pending in an initial state: the start is, unless it is accepting.
fn is_put_off(product: Product<'_>, number: u32) -> bool
    ensures { result ≡ is_listed (not_accepting product.entry.violation.now
        (product.entry.violation.now.start ∷ [])) number }
{
    let start = product.violation.start();
    if product.violation.accepting(start) {
        false
    } else {
        start == number
    }
}

// The start alone is owed.
fn push_owed(literals: &mut Literals, product: Product<'_>) -> Result<(), NoMemory>
    ensures { OnOk result (literals.new ≡ literals.old
        ++ spec.start_owed product.entry.netlist.now product.entry.violation.now) }
{
    for number in 0..product.obligations() {
        literals.push(with_sign(is_start(product, number), product.owed(0, number)))?;
    }
    Ok(())
}

// The start is pending, unless it is accepting.
fn push_pending(literals: &mut Literals, product: Product<'_>) -> Result<(), NoMemory>
    ensures { OnOk result (literals.new ≡ literals.old
        ++ spec.start_pending product.entry.netlist.now product.entry.violation.now) }
{
    for number in 0..product.obligations() {
        literals.push(with_sign(is_put_off(product, number), product.pending(0, number)))?;
    }
    Ok(())
}

// Nothing has been counted.
fn push_counts(literals: &mut Literals, product: Product<'_>) -> Result<(), NoMemory>
    ensures { OnOk result (literals.new ≡ literals.old
        ++ spec.start_counts product.entry.netlist.now product.entry.violation.now product.entry.visits) }
{
    for number in 0..product.visits + 1 {
        literals.push(negated(product.counted(0, number)))?;
    }
    Ok(())
}

/// The literals that are true of the bits of an initial state.
pub(crate) fn start_literals(alloc: Global, product: Product<'_>) -> Result<Literals, NoMemory>
    ensures { IfOk result (λ new. new
        ≡ spec.start_literals product.entry.netlist.now product.entry.violation.now product.entry.visits) }
{
    let netlist = product.netlist;
    netlist_law(netlist);
    let mut literals = first_literals(alloc, product.position(), netlist.latches().as_slice())?;
    push_owed(&mut literals, product)?;
    push_pending(&mut literals, product)?;
    push_counts(&mut literals, product)?;
    Ok(literals)
}
