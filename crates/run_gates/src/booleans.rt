// Booleans on the letter of a position.
ghost use Rattle.std.specs.Prelude.{◌≡◌, ◌+◌, ◌<◌, ◌≤◌, length, IfOk, IfErr, OnOk, IsTrue};
ghost use Rattle.clauses.specs.declared.flat.TheConstants.{MOST_VARIABLES};
ghost use Rattle.psl_tree.specs.Atoms.{AtomsOfBoolean};
ghost use Rattle.psl_tree.specs.Trees.{boolean_of};
ghost use Rattle.run_gates.specs.Building.{Builds};
ghost use Rattle.run_terms.specs.Booleans.{boolean_term, constant, edge_term};
ghost use Rattle.run_terms.specs.Positions.{position_width};

use crate::builder::negated;
use crate::{Builder, Position};
use clauses::CnfFault;
use psl_tree::{Bool, Edge};

/// A constant.
pub fn add_constant(gates: &mut Builder, value: bool) -> Result<i32, CnfFault>
    ensures { Builds gates.old gates.new (constant value) result }
{
    let never = gates.and(1, -1)?;
    if value { Ok(negated(never)) } else { Ok(never) }
}

/// What an edge of a signal's bit asks.
pub fn add_edge(
    gates: &mut Builder,
    position: Position,
    edge: Edge,
    signal: u32,
) -> Result<i32, CnfFault>
    requires fits { position.base + position_width position.signals ≤ MOST_VARIABLES }
    requires below { signal < position.signals }
    ensures { Builds gates.old gates.new (edge_term position.signals position.base edge signal) result }
{
    match edge {
        Edge::Value => Ok(position.current(signal)),
        Edge::Rise => {
            let rose = gates.and(negated(position.earlier(signal)), position.current(signal))?;
            gates.and(position.had(), rose)
        }
        Edge::Fall => {
            let fell = gates.and(position.earlier(signal), negated(position.current(signal)))?;
            gates.and(position.had(), fell)
        }
    }
}

/// A Boolean on the letter of a position. Its atoms are of the netlist's signals.
pub fn add_boolean(gates: &mut Builder, position: Position, test: &Bool) -> Result<i32, CnfFault>
    requires fits { position.base + position_width position.signals ≤ MOST_VARIABLES }
    requires below { AtomsOfBoolean (λ atom. atom.signal < position.signals) (boolean_of test.now) }
    ensures { Builds gates.old gates.new (boolean_term position.signals position.base (boolean_of test.now)) result }
{
    match test {
        Bool::Const(value) => add_constant(gates, *value),
        Bool::Test(atom) => add_edge(gates, position, atom.edge, atom.signal),
        Bool::Not(part) => Ok(negated(add_boolean(gates, position, part)?)),
        Bool::And(left, right) => {
            let left = add_boolean(gates, position, left)?;
            let right = add_boolean(gates, position, right)?;
            gates.and(left, right)
        }
        Bool::Or(left, right) => {
            let left = add_boolean(gates, position, left)?;
            let right = add_boolean(gates, position, right)?;
            gates.either(left, right)
        }
    }
}
