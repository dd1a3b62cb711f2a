// What the questions over a slice of the signals are asked of, made once for all of them.
ghost use Rattle.std.specs.Prelude.{IfOk, IfSome};
ghost use Rattle.reach.specs.Sliced.{IsSliced};

use clauses::{Cnf, CnfFault};
use gates_theory::Circuit;
use joint::{Joint, Slice};
use psl_base::NoMemory;
use reach_solver::{Literals, text_of};
use std::alloc::Global;

/// A slice of the signals, the formula of a state and a neighbour over it, and the circuit that tells neighbours.
#[derive(Debug)]
pub(crate) struct Sliced {
    pub slice: Slice,
    pub pair: Cnf,
    /// The clauses of the formula as one list.
    pub text: Literals,
    pub circuit: Circuit,
}

// Written out, so that a caller's proof sees one call where a value is dropped.
impl Drop for Sliced {
    fn drop(self) {
        let Sliced {
            slice: _,
            pair: _,
            text: _,
            circuit: _,
        } = self;
    }
}

/// What holds of two neighbours over the signals that the automaton asks about. There is nothing where the formula or the
/// circuit is too large.
pub(crate) fn sliced_of(alloc: Global, joint: &Joint) -> Result<Option<Sliced>, NoMemory>
    ensures { IfOk result (λ found. IfSome found (IsSliced joint.now)) }
{
    let slice = joint.slice(alloc)?;
    let pair = match joint.sliced_pair(alloc, &slice) {
        Ok(pair) => pair,
        Err(CnfFault::TooLarge) => return Ok(None),
        Err(CnfFault::NoMemory) => return Err(NoMemory),
    };
    let circuit = match joint.pair_circuit(alloc) {
        Ok(circuit) => circuit,
        Err(CnfFault::TooLarge) => return Ok(None),
        Err(CnfFault::NoMemory) => return Err(NoMemory),
    };
    let text = text_of(alloc, &pair)?;
    Ok(Some(Sliced {
        slice,
        pair,
        text,
        circuit,
    }))
}
