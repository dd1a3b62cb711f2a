// Positive combinations on the letter of a position and the obligations of the next one.
ghost use Rattle.std.specs.Prelude.{◌≡◌, ℕ, ◌+◌, ◌<◌, ◌≤◌};
ghost use Rattle.alternating_theory.specs.Atoms.{AtomsOfPositive};
ghost use Rattle.alternating.specs.Views.{positive_of};
ghost use Rattle.alternating_theory.specs.Positive.{OwesWithin};
ghost use Rattle.gates_theory.specs.Terms.{Term};
ghost use Rattle.clauses.specs.declared.flat.TheConstants.{MOST_VARIABLES};
ghost use Rattle.run_gates.specs.Building.{Builds};
ghost use Rattle.run_terms.specs.Combinations.{positive_term};
ghost use Rattle.run_terms.specs.Positions.{position_width};

use crate::booleans::add_constant;
use crate::{Builder, Position, add_boolean};
use alternating::Positive;
use clauses::CnfFault;

/// What says of each obligation whether the next position has it.
pub trait Owing {
    /// How many obligations there are.
    ghost count: { Self → ℕ };

    /// The term that says so of an obligation, by its number.
    ghost term: { Self → ℕ → Term };

    /// Adds the gates of an obligation's term.
    fn add_owed(&self, gates: &mut Builder, number: u32) -> Result<i32, CnfFault>
        requires { number < count self.now }
        ensures { Builds gates.old gates.new (term self.now number) result };
}

/// Whether the letter of a position meets a combination with what the next position has. Its atoms are of the netlist's
/// signals.
pub fn add_positive<O: Owing>(
    gates: &mut Builder,
    position: Position,
    owing: &O,
    positive: &Positive,
) -> Result<i32, CnfFault>
    requires fits { position.base + position_width position.signals ≤ MOST_VARIABLES }
    requires below { AtomsOfPositive (λ atom. atom.signal < position.signals) (positive_of positive.now) }
    requires owed { OwesWithin 0 (O.count owing.now) (positive_of positive.now) }
    ensures { Builds gates.old gates.new
        (positive_term position.signals position.base (O.term owing.now) (positive_of positive.now)) result }
{
    match positive {
        Positive::Const(value) => add_constant(gates, *value),
        Positive::Holds(test) => add_boolean(gates, position, test),
        Positive::Owed(number) => owing.add_owed(gates, *number),
        Positive::And(left, right) => {
            let left = add_positive(gates, position, owing, left)?;
            let right = add_positive(gates, position, owing, right)?;
            gates.and(left, right)
        }
        Positive::Or(left, right) => {
            let left = add_positive(gates, position, owing, left)?;
            let right = add_positive(gates, position, owing, right)?;
            gates.either(left, right)
        }
    }
}
