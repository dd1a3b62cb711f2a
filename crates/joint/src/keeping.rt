// What is held for some numbers, where it is kept.
ghost use Rattle.std.specs.Prelude.{◌≡◌, ℕ, ◌<◌, ◌≤◌, [], ◌∷◌, List, flat_map, IsTrue};
ghost use Rattle.std.specs.List.{range_with_len};
ghost use Rattle.gates_theory.specs.Terms.{Term};
ghost use Rattle.gates_theory.specs.Terms.Term.{Literal, Equality};
ghost use Rattle.clauses.specs.Literals.{is_literal};
ghost use Rattle.joint_theory.specs.Sliced.{kept_by};
ghost use Rattle.run_gates.specs.Building.{BuildsAll};
ghost use Rattle.run_terms.specs.Tables.{guarded};

use crate::literals::{add_implied, add_same};
use clauses::CnfFault;
use psl_base::Bits;
use run_gates::{Builder, Held};

/// What holds terms for each of some numbers: one for a number that is kept, and none for another.
pub(crate) trait Keeping {
    /// How many numbers there are.
    ghost count: { Self → ℕ };

    /// The terms that are held for a number.
    ghost terms: { Self → ℕ → List Term };

    /// What has to hold, so that they can be added.
    ghost allows: { Self → Type 0 };

    /// Adds the gates of a number's terms, and holds them.
    fn add_kept(&self, gates: &mut Builder, held: &mut Held, number: usize) -> Result<(), CnfFault>
        requires allowed { allows self.now }
        requires below { number < count self.now }
        ensures { BuildsAll gates.old gates.new held.old held.new (terms self.now number) result };
}

/// Holds the terms for each of the first so many numbers.
pub(crate) fn add_all_kept<K: Keeping>(
    gates: &mut Builder,
    held: &mut Held,
    keeping: &K,
    count: usize,
) -> Result<(), CnfFault>
    requires allowed { K.allows keeping.now }
    requires few { count ≤ K.count keeping.now }
    ensures { BuildsAll gates.old gates.new held.old held.new (flat_map (K.terms keeping.now) (range_with_len 0 count)) result }
{
    for number in 0..count {
        keeping.add_kept(gates, held, number)?;
    }
    Ok(())
}

/// Whether truth values, one for each signal, keep a signal. It keeps none behind them.
pub(crate) fn is_kept(kept: &Bits, signal: u32) -> bool
    ensures { result ≡ kept_by kept.now signal }
{
    let place = signal as usize;
    place < kept.len() && *kept.at(place)
}

/// Holds that where a literal is true, so is another.
pub(crate) fn hold_implied(
    gates: &mut Builder,
    held: &mut Held,
    guard: i32,
    other: i32,
) -> Result<(), CnfFault>
    requires guard { IsTrue (is_literal guard) }
    requires other { IsTrue (is_literal other) }
    ensures { BuildsAll gates.old gates.new held.old held.new (guarded guard (Literal other) ∷ []) result }
{
    let implied = add_implied(gates, guard, other)?;
    held.hold(gates, implied)
}

/// Holds that two literals have one value.
pub(crate) fn hold_same(
    gates: &mut Builder,
    held: &mut Held,
    first: i32,
    second: i32,
) -> Result<(), CnfFault>
    requires first { IsTrue (is_literal first) }
    requires second { IsTrue (is_literal second) }
    ensures { BuildsAll gates.old gates.new held.old held.new (Equality (Literal first) (Literal second) ∷ []) result }
{
    let same = add_same(gates, first, second)?;
    held.hold(gates, same)
}
