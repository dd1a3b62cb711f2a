// What a model chooses.
ghost use Rattle.std.specs.Prelude.{◌≡◌, ℕ, length, All, IfOk};
ghost use Rattle.netlist.specs.Design.{Design};
ghost use Rattle.prover_bmc.specs.Hints.{AreChoices, AreChosen};

use gates_theory::Literals;
use prover_held::Choices;
use psl_base::{Bits, Items, NoMemory};
use std::alloc::Global;

// The value of a literal, where variables from 1 on have values; past the last of these it is false.
fn value_of(values: &Bits, literal: i32) -> bool {
    let variable = literal.unsigned_abs() as usize;
    if variable == 0 || variable > values.len() {
        return false;
    }
    *values.at(variable - 1) == (literal > 0)
}

// The values of literals.
pub(crate) fn values_of(alloc: Global, values: &Bits, literals: &[i32]) -> Result<Bits, NoMemory>
    ensures { IfOk result (λ bits. length bits ≡ length literals.now) }
{
    let mut bits = Bits::new(alloc);
    for literal in literals {
        bits.push(value_of(values, *literal))?;
    }
    Ok(bits)
}

// The values of the literals of each frame.
pub(crate) fn all_values_of(
    alloc: Global,
    values: &Bits,
    frames: &[Literals],
) -> Result<Items<Bits>, NoMemory>
    ensures size { IfOk result (λ all. length all ≡ length frames.now) }
    ensures each { (count : ℕ) → All (λ literals. length literals ≡ count) frames.now
        → IfOk result (All (λ bits. length bits ≡ count)) }
{
    let mut all = Items::new(alloc);
    for frame in frames {
        all.push(values_of(alloc, values, frame.as_slice())?)?;
    }
    Ok(all)
}

/// The choices of a model, by the literals of latches in the first frame and of inputs in each frame.
pub(crate) fn choices_of(
    alloc: Global,
    values: &Bits,
    latches: &Literals,
    inputs: &Items<Literals>,
) -> Result<Choices, NoMemory>
    ensures { (design : Design) → AreChosen design latches.now inputs.now → IfOk result (AreChoices design) }
{
    Ok(Choices {
        latches: values_of(alloc, values, latches.as_slice())?,
        inputs: all_values_of(alloc, values, inputs.as_slice())?,
    })
}
