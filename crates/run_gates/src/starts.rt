// How the first position begins.
ghost use Rattle.std.specs.Prelude.{◌≡◌, ◌+◌, ◌≤◌, ◌++◌, All, IfOk, OnOk};
ghost use Rattle.clauses.specs.declared.flat.TheConstants.{MOST_VARIABLES};
ghost use Rattle.run_gates.specs.Marks.{IsSoundLatch};
ghost use Rattle.run_terms.specs.Moves as spec;
ghost use Rattle.run_terms.specs.Moves.{init_literals};
ghost use Rattle.run_terms.specs.Positions.{current, position_width};

use crate::Position;
use crate::builder::negated;
use gates_theory::Literals;
use netlist::{Init, Latch};
use psl_base::NoMemory;
use std::alloc::Global;

/// The literals that are true at a first position: there is no valuation before, and the latches have their first
/// values.
pub fn first_literals(
    alloc: Global,
    position: Position,
    latches: &[Latch],
) -> Result<Literals, NoMemory>
    requires fits { position.base + position_width position.signals ≤ MOST_VARIABLES }
    requires sound { All (IsSoundLatch position.signals) latches.now }
    ensures { IfOk result (λ new. new ≡ spec.first_literals position.signals position.base latches.now) }
{
    let mut literals = Literals::new(alloc);
    literals.push(negated(position.had()))?;
    for i in 0..latches.len() {
        push_init(&mut literals, position, latches[i])?;
    }
    Ok(literals)
}

/// Adds the literal that says that a latch has its first value, if it has only one.
fn push_init(literals: &mut Literals, position: Position, latch: Latch) -> Result<(), NoMemory>
    requires fits { position.base + position_width position.signals ≤ MOST_VARIABLES }
    requires sound { IsSoundLatch position.signals latch }
    ensures { OnOk result (literals.new ≡ literals.old
        ++ init_literals latch.init (current position.signals position.base latch.output)) }
{
    let output = position.current(latch.output);
    match latch.init {
        Init::Zero => literals.push(negated(output)),
        Init::One => literals.push(output),
        Init::Free => Ok(()),
    }
}
