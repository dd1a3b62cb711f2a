// What no clause says: that the calls succeed with ample memory.
ghost use Rattle.std.specs.Prelude.{IfOk};
ghost use Rattle.gates_theory.specs.Circuits.{IsSound};

use clauses::CnfFault;
use gates::{distinct, fits, unroll};
use gates_theory::{Circuit, Gate, Gates, Literals};
use psl_base::NoMemory;
use std::alloc::Global;
use std::test::Fail;

// A state bit, an input that is true but at the last position, and their conjunction, whose negation is the next state.
fn example(alloc: Global) -> Result<Circuit, NoMemory>
    ensures { IfOk result IsSound }
{
    let gates = [Gate::Free, Gate::Free, Gate::And(1, 2)];
    Ok(Circuit {
        gates: Gates::from_slice(alloc, &gates)?,
        now: Literals::from_slice(alloc, &[1])?,
        next: Literals::from_slice(alloc, &[-3])?,
        hold: Literals::from_slice(alloc, &[2])?,
    })
}

// How many variables, clauses and words the formula of two steps has.
fn unrolled(alloc: Global) -> Result<(u32, usize, usize), CnfFault> {
    let circuit = example(alloc)?;
    let formula = unroll(alloc, &circuit, 2)?;
    Ok((
        formula.variables,
        formula.clauses.len(),
        formula.clauses.words(),
    ))
}

#[test]
fn a_circuit_is_unrolled(rt: HostRuntime) -> Result<(), Fail> {
    assert_eq!(rt; unrolled(rt.alloc())?, (6, 9, 28));
    Ok(())
}

// How many variables and words the formula of three steps has whose states are different.
fn different(alloc: Global) -> Result<(u32, usize), CnfFault> {
    let circuit = example(alloc)?;
    let mut formula = unroll(alloc, &circuit, 3)?;
    if formula.variables == 9 {
        distinct(alloc, &circuit, 3, &mut formula)?;
    }
    Ok((formula.variables, formula.clauses.words()))
}

#[test]
fn states_are_different(rt: HostRuntime) -> Result<(), Fail> {
    assert_eq!(rt; different(rt.alloc())?, (12, 76));
    Ok(())
}

// The fault of too many steps.
fn fault_of_most(alloc: Global) -> Result<Option<CnfFault>, NoMemory> {
    let circuit = example(alloc)?;
    Ok(unroll(alloc, &circuit, u32::MAX).err())
}

#[test]
fn what_is_too_large_is_refused(rt: HostRuntime) -> Result<(), Fail> {
    assert!(rt; fault_of_most(rt.alloc())? == Some(CnfFault::TooLarge));
    assert!(rt; fits(1_000, 40) && !fits(1_000, 41));
    Ok(())
}
