// Booleans on the letter of a frame.
ghost use Rattle.std.specs.Prelude.{IfSome};
ghost use Rattle.std.specs.Option.{option_map};
ghost use Rattle.psl_tree.specs.Trees as trees;
ghost use Rattle.gates_builder.specs.Adding.{Adds, AreOf};
ghost use Rattle.gates_letters.specs.Booleans.{boolean_built, constant_built, edge_built};

use crate::literals::literal_at;
use clauses::CnfFault;
use gates_builder::{Builder, negated};
use psl_tree::{Bool, Edge};

/// A constant. It takes no node.
pub fn constant_of(builder: &mut Builder, value: bool) -> Result<i32, CnfFault>
    ensures { Adds builder.old builder.new (constant_built builder.old.given value builder.old.nodes) result }
{
    if value {
        Ok(builder.yes())
    } else {
        Ok(builder.no())
    }
}

// What an edge of a signal asks.
fn edge_of(
    builder: &mut Builder,
    before: Option<&[i32]>,
    now: &[i32],
    edge: Edge,
    signal: u32,
) -> Result<i32, CnfFault>
    requires before { IfSome before (λ literals. AreOf builder.old literals.now) }
    requires now { AreOf builder.old now.now }
    ensures { Adds builder.old builder.new (edge_built builder.old.given
        (option_map (λ literals. literals.now) before.entry) now.now edge signal builder.old.nodes) result }
{
    let current = literal_at(builder, now, signal);
    let Some(before) = before else {
        return match edge {
            Edge::Value => Ok(current),
            Edge::Rise | Edge::Fall => Ok(builder.no()),
        };
    };
    let earlier = literal_at(builder, before, signal);
    match edge {
        Edge::Value => Ok(current),
        Edge::Rise => builder.and(negated(earlier), current),
        Edge::Fall => builder.and(earlier, negated(current)),
    }
}

/// A Boolean on the letter of a frame. The frame and the one before, if there is one, give a literal for each signal; a
/// signal without one is 0.
///
/// # Errors
///
/// `TooLarge` only where there would be too many variables, and `NoMemory` if memory is refused.
pub fn boolean_of(
    builder: &mut Builder,
    before: Option<&[i32]>,
    now: &[i32],
    test: &Bool,
) -> Result<i32, CnfFault>
    requires before { IfSome before (λ literals. AreOf builder.old literals.now) }
    requires now { AreOf builder.old now.now }
    ensures { Adds builder.old builder.new (boolean_built builder.old.given
        (option_map (λ literals. literals.now) before.entry) now.now (trees.boolean_of test.now) builder.old.nodes) result }
{
    match test {
        Bool::Const(value) => constant_of(builder, *value),
        Bool::Test(atom) => edge_of(builder, before, now, atom.edge, atom.signal),
        Bool::Not(part) => Ok(negated(boolean_of(builder, before, now, part)?)),
        Bool::And(left, right) => {
            let left = boolean_of(builder, before, now, left)?;
            let right = boolean_of(builder, before, now, right)?;
            builder.and(left, right)
        }
        Bool::Or(left, right) => {
            let left = boolean_of(builder, before, now, left)?;
            let right = boolean_of(builder, before, now, right)?;
            builder.or(left, right)
        }
    }
}
