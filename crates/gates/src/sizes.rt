// How large the lists of clauses are, told before they are built.
ghost use Rattle.std.specs.Prelude.{◌≡◌, ◌+◌, ◌-◌, ◌*◌, ◌<◌, ◌≤◌, ◌^◌, ◌++◌, length, count_by, IfOk, IfErr, OnOk};
ghost use Rattle.clauses.specs.declared.flat.CnfFault.{CnfFault};
ghost use Rattle.gates_theory.specs.Circuits.{IsSound};
ghost use Rattle.gates_theory.specs.Distinct.{distinct, pairs as pairs_below};
ghost use Rattle.gates_theory.specs.Sizes as spec;
ghost use Rattle.gates_theory.specs.Sizes.{is_conjunction, IsTooLarge};
ghost use Rattle.gates_theory.specs.Unrolled.{unrolled};
ghost use Rattle.gates.specs.Adding.{AreFew};

use clauses::{Cnf, CnfFault, MOST_VARIABLES, MOST_WORDS};
use gates_theory::{Circuit, Gate};

/// How many gates are conjunctions.
fn conjunctions(gates: &[Gate]) -> usize
    ensures { result ≡ count_by is_conjunction gates.now }
{
    let mut count = 0;
    for gate in gates {
        if is_and(*gate) {
            count += 1;
        }
    }
    count
}

fn is_and(gate: Gate) -> bool
    ensures { result ≡ is_conjunction gate }
{
    match gate {
        Gate::Free => false,
        Gate::And(_, _) => true,
    }
}

/// So many times a size.
fn times(count: u32, size: usize) -> u128
    ensures is { result ≡ count * size }
    ensures few { result < 2 ^ 96 }
{
    u128::from(count) * size as u128
}

/// The words of a circuit at so many positions.
fn unrolled_words(circuit: &Circuit, positions: u32) -> u128
    ensures { result ≡ spec.unrolled_words circuit.entry.now positions }
{
    let moves = positions.saturating_sub(1);
    10 * times(positions, conjunctions(circuit.gates.as_slice()))
        + (2 * times(moves, circuit.hold.len()) + 6 * times(moves, circuit.now.len()))
}

/// The variables of a circuit at so many positions, where it is not too large.
pub fn unrolled_variables(circuit: &Circuit, positions: u32) -> Result<u32, CnfFault>
    requires { IsSound circuit.now }
    ensures ok { IfOk result (λ variables. variables ≡ spec.unrolled_variables circuit.entry.now positions) }
    ensures fits { OnOk result (AreFew (spec.unrolled_variables circuit.entry.now positions)
        (unrolled circuit.entry.now positions)) }
    ensures err { IfErr result (λ fault. fault ≡ CnfFault.TooLarge) }
    ensures large { IfErr result (λ fault. IsTooLarge (spec.unrolled_variables circuit.entry.now positions)
        (unrolled circuit.entry.now positions)) }
{
    let variables = times(positions, circuit.gates.len());
    if variables > u128::from(MOST_VARIABLES) {
        return Err(CnfFault::TooLarge);
    }
    if unrolled_words(circuit, positions) > MOST_WORDS as u128 {
        return Err(CnfFault::TooLarge);
    }
    Ok(variables as u32)
}

/// How many pairs there are of numbers below a bound.
pub fn pairs(count: u32) -> u64
    ensures { result ≡ pairs_below count }
{
    u64::from(count) * u64::from(count.saturating_sub(1)) / 2
}

/// The variables that are in use once the states at the first so many positions are different, where the formula is
/// then not too large.
pub fn distinct_variables(circuit: &Circuit, positions: u32, cnf: &Cnf) -> Result<u32, CnfFault>
    requires sound { IsSound circuit.now }
    requires few { positions * length circuit.now.gates ≤ cnf.now.variables }
    ensures ok { IfOk result (λ variables. variables
        ≡ spec.distinct_variables circuit.entry.now cnf.now.variables positions) }
    ensures fits { OnOk result (AreFew (spec.distinct_variables circuit.entry.now cnf.now.variables positions)
        (cnf.now.clauses ++ distinct circuit.entry.now cnf.now.variables positions)) }
    ensures err { IfErr result (λ fault. fault ≡ CnfFault.TooLarge) }
    ensures large { IfErr result (λ fault.
        IsTooLarge (spec.distinct_variables circuit.entry.now cnf.now.variables positions)
        (cnf.now.clauses ++ distinct circuit.entry.now cnf.now.variables positions)) }
{
    let count = u128::from(pairs(positions));
    let bits = count * circuit.now.len() as u128;
    if bits > u128::from(MOST_VARIABLES - cnf.variables) {
        return Err(CnfFault::TooLarge);
    }
    if 9 * bits + count + cnf.clauses.words() as u128 > MOST_WORDS as u128 {
        return Err(CnfFault::TooLarge);
    }
    Ok(cnf.variables + bits as u32)
}
