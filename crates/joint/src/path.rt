// The joint path that a model stands for.
ghost use Rattle.std.specs.Prelude.{◌≡◌, ℕ, ◌+◌, ◌*◌, ◌≤◌, ◌<◌, ◌-◌, ◌^◌, suc, length, IfOk};
ghost use Rattle.clauses.specs.Models.{IsModel};
ghost use Rattle.joint_theory.specs.Bits.{joint_width};
ghost use Rattle.joint.specs.Slices.{count_in, first_true};
ghost use Rattle.joint_theory.specs.Paths.{IsOpen};
ghost use Rattle.joint_theory.specs.Queries.{joint_size, path_in, path_of, query, query_variables};
ghost use Rattle.run_terms.specs.Automata.{IsSound, TestsSignals};
ghost use Rattle.run_terms.specs.Formulas.{values_of};

use crate::model_state::read_state;
use crate::product::Product;
use joint_theory::{JointPath, JointStates, query_law};
use netlist::soundness_law;
use psl_base::{Bits, NoMemory};
use std::alloc::Global;

/// The states at the first so many positions, each of which has so many variables.
fn read_states(
    alloc: Global,
    product: Product<'_>,
    size: usize,
    values: &[bool],
    count: usize,
) -> Result<JointPath, NoMemory>
    requires size { size ≡ joint_size product.netlist.now product.violation.now product.visits }
    requires wide { joint_width product.netlist.now product.violation.now product.visits ≤ size }
    requires fits { count * size ≤ length values.now }
    ensures { IfOk result (λ path. path ≡ path_in product.entry.netlist.now product.entry.violation.now product.entry.visits count (values_of values.now)) }
{
    let mut states = JointStates::new(alloc);
    for position in 0..count {
        states.push(read_state(alloc, product, values, position * size)?)?;
    }
    Ok(JointPath { states })
}

/// The first of so many positions at which the state is bad, or their number if there is none. Whether it is stands at a
/// place among the values of a position.
fn first_bad(values: &[bool], size: usize, place: usize, window: usize) -> usize
    requires place { place < size }
    requires fits { window * size ≤ length values.now }
    ensures is { result ≡ first_true values.now size place window 0 }
    ensures few { result ≤ window }
{
    for position in 0..window {
        if values[position * size + place] {
            return position;
        }
    }
    window
}

/// The path that a model of a query for open paths of a kind stands for: one of the initial kind ends with the first bad
/// state, and one of the other kind has one state more than the window.
pub(crate) fn read_path(
    alloc: Global,
    product: Product<'_>,
    size: usize,
    window: u32,
    initial: bool,
    model: &Bits,
) -> Result<JointPath, NoMemory>
    requires tests { TestsSignals product.netlist.now product.violation.now }
    requires sound { IsSound product.violation.now }
    requires size { size ≡ joint_size product.netlist.now product.violation.now product.visits }
    requires values { length model.now
        ≡ query_variables product.netlist.now product.violation.now product.visits window initial }
    requires model { IsModel (values_of model.now)
        (query product.netlist.now product.violation.now product.visits window initial) }
    ensures is { IfOk result (λ path. path
        ≡ path_of product.entry.netlist.now product.entry.violation.now product.entry.visits window initial (values_of model.now)) }
    ensures open { IfOk result (λ path.
        IsOpen product.entry.netlist.now product.entry.violation.now product.entry.visits window initial path) }
{
    query_law();
    soundness_law(product.netlist);
    let values = model.as_slice();
    let count = count(product, size, values, window, initial);
    read_states(alloc, product, size, values, count)
}

/// How many states the path has.
fn count(product: Product<'_>, size: usize, values: &[bool], window: u32, initial: bool) -> usize
    requires wide { joint_width product.netlist.now product.violation.now product.visits ≤ size }
    requires fits { window * size ≤ length values.now }
    ensures { result ≡ count_in values.now size
        (joint_width product.entry.netlist.now product.entry.violation.now product.entry.visits - 1) window initial }
{
    if initial {
        let bad = product.width as usize - 1;
        first_bad(values, size, bad, window as usize) + 1
    } else {
        window as usize + 1
    }
}
