// Places that differ.
ghost use Rattle.std.specs.Prelude.{◌≡◌, length, IfOk, OnOk};
ghost use Rattle.prover_bmc.specs.Later.{IsLater};

use crate::debts::debt_if;
use crate::solver::NodeSolver;
use clauses::{Clauses, CnfFault};
use gates_builder::Builder;
use gates_theory::Literals;
use std::alloc::Global;

/// A clause that two lists of literals have different values somewhere. For each place in them there is a variable, and
/// where it is true, the literals there differ.
pub(crate) fn add_apart(
    alloc: Global,
    builder: &mut Builder,
    solver: &mut NodeSolver,
    left: &[i32],
    right: &[i32],
) -> Result<(), CnfFault>
    ensures { OnOk result (IsLater builder.old builder.new) }
{
    let count = left.len().min(right.len());
    let some = add_free(alloc, builder, count)?;
    solver.take(alloc, builder, &Clauses::new(alloc))?;
    for place in 0..count {
        let (differ, one, other) = (*some.at(place), left[place], right[place]);
        let alike = differ.wrapping_neg();
        solver.add(alloc, &[alike, one, other])?;
        solver.add(alloc, &[alike, one.wrapping_neg(), other.wrapping_neg()])?;
    }
    solver.add(alloc, some.as_slice())
}

// So many free literals.
fn add_free(alloc: Global, builder: &mut Builder, count: usize) -> Result<Literals, CnfFault>
    ensures later { OnOk result (IsLater builder.old builder.new) }
    ensures size { IfOk result (λ literals. length literals ≡ count) }
{
    let mut literals = Literals::new(alloc);
    for _number in 0..count {
        literals.push(debt_if(builder, true, 0, 0)?)?;
    }
    Ok(literals)
}
