// The terms of a netlist, whose literals are held.
ghost use Rattle.std.specs.Prelude.{◌≡◌, ◌+◌, ◌<◌, ◌≤◌, map, All};
ghost use Rattle.clauses.specs.declared.flat.TheConstants.{MOST_VARIABLES};
ghost use Rattle.run_gates.specs.Building.{BuildsAll};
ghost use Rattle.run_gates.specs.Marks.{IsSoundLatch, IsSoundTable};
ghost use Rattle.run_terms.specs.Moves.{latch_term, move_terms, shift_terms};
ghost use Rattle.run_terms.specs.Positions.{position_width};
ghost use Rattle.run_terms.specs.Tables.{before_terms, valuation_terms};

use crate::tables::{add_guarded, add_table};
use crate::{Builder, Held, Position};
use clauses::CnfFault;
use netlist::{Latch, Table};

/// The tables agree with the valuation of a position.
pub fn add_tables(
    gates: &mut Builder,
    held: &mut Held,
    position: Position,
    tables: &[Table],
) -> Result<(), CnfFault>
    requires fits { position.base + position_width position.signals ≤ MOST_VARIABLES }
    requires sound { All (IsSoundTable position.signals) tables.now }
    ensures { BuildsAll gates.old gates.new held.old held.new
        (valuation_terms position.signals position.base tables.now) result }
{
    let offset = position.base + 1 + position.signals;
    for i in 0..tables.len() {
        let agrees = add_table(gates, offset, &tables[i])?;
        held.hold(gates, agrees)?;
    }
    Ok(())
}

/// The tables agree with the valuation before a position, if there is one.
pub fn add_tables_before(
    gates: &mut Builder,
    held: &mut Held,
    position: Position,
    tables: &[Table],
) -> Result<(), CnfFault>
    requires fits { position.base + position_width position.signals ≤ MOST_VARIABLES }
    requires sound { All (IsSoundTable position.signals) tables.now }
    ensures { BuildsAll gates.old gates.new held.old held.new (before_terms position.base tables.now) result }
{
    let offset = position.base + 1;
    for i in 0..tables.len() {
        let agrees = add_guarded(gates, position.had(), offset, &tables[i])?;
        held.hold(gates, agrees)?;
    }
    Ok(())
}

/// The valuation before the next position, whose bits follow so many variables, is the one here.
fn add_shift(
    gates: &mut Builder,
    held: &mut Held,
    position: Position,
    next: Position,
) -> Result<(), CnfFault>
    requires same { next.signals ≡ position.signals }
    requires fits { position.base + position_width position.signals ≤ MOST_VARIABLES }
    requires also { next.base + position_width position.signals ≤ MOST_VARIABLES }
    ensures { BuildsAll gates.old gates.new held.old held.new
        (shift_terms position.signals position.base next.base) result }
{
    for signal in 0..position.signals {
        let stays = gates.equal(next.earlier(signal), position.current(signal))?;
        held.hold(gates, stays)?;
    }
    Ok(())
}

/// The output of each latch has at the next position the value that its input has here.
fn add_latches(
    gates: &mut Builder,
    held: &mut Held,
    position: Position,
    next: Position,
    latches: &[Latch],
) -> Result<(), CnfFault>
    requires same { next.signals ≡ position.signals }
    requires fits { position.base + position_width position.signals ≤ MOST_VARIABLES }
    requires also { next.base + position_width position.signals ≤ MOST_VARIABLES }
    requires sound { All (IsSoundLatch position.signals) latches.now }
    ensures { BuildsAll gates.old gates.new held.old held.new
        (map (latch_term position.signals position.base next.base) latches.now) result }
{
    for i in 0..latches.len() {
        let latch = latches[i];
        let moves = gates.equal(next.current(latch.output), position.current(latch.input))?;
        held.hold(gates, moves)?;
    }
    Ok(())
}

/// The next position, whose bits follow so many variables, follows this one.
pub fn add_moves(
    gates: &mut Builder,
    held: &mut Held,
    position: Position,
    next: u32,
    latches: &[Latch],
) -> Result<(), CnfFault>
    requires fits { position.base + position_width position.signals ≤ MOST_VARIABLES }
    requires also { next + position_width position.signals ≤ MOST_VARIABLES }
    requires sound { All (IsSoundLatch position.signals) latches.now }
    ensures { BuildsAll gates.old gates.new held.old held.new
        (move_terms position.signals position.base next latches.now) result }
{
    let next = Position {
        signals: position.signals,
        base: next,
    };
    held.hold(gates, next.had())?;
    add_shift(gates, held, position, next)?;
    add_latches(gates, held, position, next, latches)
}
