// The joint state that values stand for.
ghost use Rattle.std.specs.Prelude.{◌≡◌, ℕ, ◌+◌, ◌≤◌, ◌<◌, ◌-◌, ◌^◌, suc, length, IfOk};
ghost use Rattle.joint_theory.specs.Bits.{joint_width, state_in};
ghost use Rattle.run_terms.specs.Formulas.{values_of};
ghost use Rattle.run_terms.specs.Positions.{before_of};

use crate::bits::{read_bits, read_count, read_numbers};
use crate::product::Product;
use joint_theory::JointState;
use psl_base::{Bits, NoMemory};
use std::alloc::Global;

/// The valuation before, if there is one.
fn read_before(
    alloc: Global,
    values: &[bool],
    base: usize,
    signals: u32,
) -> Result<Option<Bits>, NoMemory>
    requires { base + 1 + signals ≤ length values.now }
    ensures { IfOk result (λ before. before ≡ before_of signals 0 (λ variable. values_of values.now (base + variable))) }
{
    if values[base] {
        Ok(Some(read_bits(alloc, values, base + 1, signals)?))
    } else {
        Ok(None)
    }
}

/// The joint state whose bits begin at a place of values.
pub(crate) fn read_state(
    alloc: Global,
    product: Product<'_>,
    values: &[bool],
    base: usize,
) -> Result<JointState, NoMemory>
    requires fits { base + joint_width product.netlist.now product.violation.now product.visits ≤ length values.now }
    ensures { IfOk result (λ state. state
        ≡ state_in product.entry.netlist.now product.entry.violation.now product.entry.visits 0 (λ variable. values_of values.now (base + variable))) }
{
    let (signals, obligations) = (product.netlist.signals(), product.violation.len());
    let valuation = base + 1 + signals as usize;
    let owed = valuation + signals as usize;
    let pending = owed + obligations as usize;
    Ok(JointState {
        before: read_before(alloc, values, base, signals)?,
        valuation: read_bits(alloc, values, valuation, signals)?,
        owed: read_numbers(alloc, values, owed, obligations)?,
        pending: read_numbers(alloc, values, pending, obligations)?,
        count: read_count(values, pending + obligations as usize, product.visits + 1),
    })
}
