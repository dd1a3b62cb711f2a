// Which obligations ask for which at the next place.
ghost use Rattle.std.specs.Prelude.{◌≡◌, ◌||◌, ◌<◌, ◌≤◌, ℕ, false, length, replicate, slice_index_or, All, IfOk};
ghost use Rattle.alternating.specs.Views.{positive_of};
ghost use Rattle.alternating_theory.specs.Positive.{owes, OwesWithin};
ghost use Rattle.joint.specs.Asked.{asked_row, asked_rows};
ghost use Rattle.joint_theory.specs.Bits.{count_of};
ghost use Rattle.joint_theory.specs.Relation.{askers};

use alternating::{Alternating, Positive};
use psl_base::{Bits, Items, NoMemory, Numbers};
use std::alloc::Global;

/// For each obligation, whether it asks for each one, by their numbers.
pub(crate) type AskedRows = Items<Bits>;

// Marks all that a combination owes.
fn mark(marks: &mut Bits, delta: &Positive)
    requires { OwesWithin 0 (length marks.old) (positive_of delta.now) }
    ensures len { length marks.new ≡ length marks.old }
    ensures marks { (number : ℕ) → number < length marks.old → slice_index_or marks.new number false
        ≡ (slice_index_or marks.old number false || owes (positive_of delta.now) number) }
{
    match delta {
        Positive::Const(_) | Positive::Holds(_) => {}
        Positive::Owed(number) => marks.set(*number as usize, true),
        Positive::And(left, right) | Positive::Or(left, right) => {
            mark(marks, left);
            mark(marks, right);
        }
    }
}

// So many marks that are false.
fn unmarked(alloc: Global, count: usize) -> Result<Bits, NoMemory>
    ensures { IfOk result (λ marks. marks ≡ replicate count false) }
{
    Ok(Bits::from_vec(vec![in alloc; false; count]?))
}

// Whether an obligation asks for each one.
fn row_of(alloc: Global, violation: &Alternating, number: u32) -> Result<Bits, NoMemory>
    requires { number < count_of violation.now }
    ensures { IfOk result (λ row. row ≡ asked_row violation.now number) }
{
    let mut marks = unmarked(alloc, violation.len() as usize)?;
    mark(&mut marks, violation.delta(number));
    Ok(marks)
}

/// For each obligation, whether it asks for each one.
pub(crate) fn rows_of(alloc: Global, violation: &Alternating) -> Result<AskedRows, NoMemory>
    ensures { IfOk result (λ rows. rows ≡ asked_rows violation.now) }
{
    let mut rows = AskedRows::new(alloc);
    for number in 0..violation.len() {
        rows.push(row_of(alloc, violation, number)?)?;
    }
    Ok(rows)
}

/// The obligations that ask for one, in order.
pub(crate) fn askers_of(
    alloc: Global,
    violation: &Alternating,
    rows: &AskedRows,
    number: u32,
) -> Result<Numbers, NoMemory>
    requires rows { rows.now ≡ asked_rows violation.now }
    requires below { number < count_of violation.now }
    ensures is { IfOk result (λ numbers. numbers ≡ askers violation.now number) }
    ensures below { IfOk result (All (λ other. other < count_of violation.now)) }
{
    let mut numbers = Numbers::new(alloc);
    for other in 0..violation.len() {
        if *rows.at(other as usize).at(number as usize) {
            numbers.push(other)?;
        }
    }
    Ok(numbers)
}
