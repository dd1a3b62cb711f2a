// One term for each of some numbers.
ghost use Rattle.std.specs.Prelude.{ℕ, ◌<◌, ◌≤◌, map};
ghost use Rattle.std.specs.List.{range_with_len};
ghost use Rattle.gates_theory.specs.Terms.{Term};
ghost use Rattle.run_gates.specs.Building.{Builds, BuildsAll};

use clauses::CnfFault;
use run_gates::{Builder, Held};

/// What asks something for each of some numbers.
pub(crate) trait Asking {
    /// How many numbers there are.
    ghost count: { Self → ℕ };

    /// What is asked for a number, as a term.
    ghost term: { Self → ℕ → Term };

    /// What has to hold, so that it can be asked.
    ghost allows: { Self → Type 0 };

    /// Adds the gates of a number's term.
    fn add_asked(&self, gates: &mut Builder, number: u32) -> Result<i32, CnfFault>
        requires allowed { allows self.now }
        requires below { number < count self.now }
        ensures { Builds gates.old gates.new (term self.now number) result };
}

/// Holds what is asked for each of the first so many numbers.
pub(crate) fn add_each<A: Asking>(
    gates: &mut Builder,
    held: &mut Held,
    asking: &A,
    count: u32,
) -> Result<(), CnfFault>
    requires allowed { A.allows asking.now }
    requires few { count ≤ A.count asking.now }
    ensures { BuildsAll gates.old gates.new held.old held.new (map (A.term asking.now) (range_with_len 0 count)) result }
{
    for number in 0..count {
        let asked = asking.add_asked(gates, number)?;
        held.hold(gates, asked)?;
    }
    Ok(())
}
