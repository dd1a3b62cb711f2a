// Whether a joint path is open: states that are pairwise different and not bad, and then a bad one.
ghost use Rattle.std.specs.Prelude.{◌≡◌, ◌-◌, ◌<◌, ◌≤◌, ℕ, length, slice_get, IsTrue};
ghost use Rattle.prover_open.specs.Open.{AreDifferent, AreNotBad, EndsBadly};

use joint_theory::{JointPath, JointState};
use psl_base::Bits;

/// Whether the states before the last one are pairwise different and not bad, and the last one is bad, where no visit
/// is counted.
pub(crate) fn ends_badly(path: &JointPath) -> bool
    requires { 0 < length path.now.states }
    ensures { IsTrue result → EndsBadly (length path.now.states - 1) path.now }
{
    let states = path.states.as_slice();
    let window = states.len() - 1;
    states[window].count > 0 && none_bad(states, window) && all_differ(states, window)
}

// Whether none of the first so many states is bad.
fn none_bad(states: &[JointState], window: usize) -> bool
    requires { window ≤ length states.now }
    ensures { IsTrue result → AreNotBad window states.now }
{
    let mut none = true;
    for place in 0..window {
        none = none && states[place].count == 0;
    }
    none
}

// Whether the first so many states are pairwise different.
fn all_differ(states: &[JointState], window: usize) -> bool
    requires { window ≤ length states.now }
    ensures { IsTrue result → AreDifferent window states.now }
{
    let mut different = true;
    for later in 0..window {
        different = different && is_new(states, later);
    }
    different
}

// Whether a state differs from all before it.
fn is_new(states: &[JointState], later: usize) -> bool
    requires { later < length states.now }
    ensures { IsTrue result → (place : ℕ) → place < later
        → slice_get states.now place ≡ slice_get states.now later → ⊥ }
{
    let mut new = true;
    for place in 0..later {
        new = new && differ(&states[place], &states[later]);
    }
    new
}

// Whether two states differ in their valuations, or in what is owed or pending.
fn differ(first: &JointState, second: &JointState) -> bool
    ensures { IsTrue result → first.now ≡ second.now → ⊥ }
{
    owe_otherwise(first, second) || !are_same(&first.valuation, &second.valuation)
}

// Whether two lists of bits are the same.
fn are_same(bits: &Bits, others: &Bits) -> bool
    ensures { bits.now ≡ others.now → IsTrue result }
{
    bits.as_slice() == others.as_slice()
}

// Whether two states differ in what is owed or pending.
fn owe_otherwise(first: &JointState, second: &JointState) -> bool
    ensures { IsTrue result → first.now ≡ second.now → ⊥ }
{
    first.owed.as_slice() != second.owed.as_slice()
        || first.pending.as_slice() != second.pending.as_slice()
}
