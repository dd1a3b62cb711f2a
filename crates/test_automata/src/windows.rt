// What no clause says: that the calls succeed with ample memory.
ghost use Rattle.std.specs.Prelude.{◌≡◌, length, IfOk};
ghost use Rattle.gates_theory.specs.Circuits.{IsSound};

use clauses::CnfFault;
use gates_theory::{Circuit, Gate, Gates, Literals};
use psl_base::NoMemory;
use run_formulas::{base, induction};
use std::alloc::Global;
use std::test::Fail;

// A state bit, an input that is true, and their conjunction, whose negation is the next state.
fn example(alloc: Global) -> Result<Circuit, NoMemory>
    ensures sound { IfOk result IsSound }
    ensures size { IfOk result (λ circuit. length circuit.gates ≡ 3) }
{
    let gates = [Gate::Free, Gate::Free, Gate::And(1, 2)];
    Ok(Circuit {
        gates: Gates::from_slice(alloc, &gates)?,
        now: Literals::from_slice(alloc, &[1])?,
        next: Literals::from_slice(alloc, &[-3])?,
        hold: Literals::from_slice(alloc, &[2])?,
    })
}

// How many variables and words the first formula of a window has.
fn base_sizes(alloc: Global, window: u32) -> Result<(u32, usize), CnfFault> {
    let circuit = example(alloc)?;
    let formula = base(alloc, &circuit, &[-1], 1, window)?;
    Ok((formula.variables, formula.clauses.words()))
}

// How many the second has.
fn induction_sizes(alloc: Global, window: u32) -> Result<(u32, usize), CnfFault> {
    let circuit = example(alloc)?;
    let formula = induction(alloc, &circuit, 1, window)?;
    Ok((formula.variables, formula.clauses.words()))
}

#[test]
fn a_window_has_formulas(rt: HostRuntime) -> Result<(), Fail> {
    assert_eq!(rt; base_sizes(rt.alloc(), 2)?, (6, 35));
    assert_eq!(rt; base_sizes(rt.alloc(), 0)?, (0, 1));
    assert_eq!(rt; induction_sizes(rt.alloc(), 2)?, (10, 64));
    Ok(())
}
