// The signals that an automaton tests.
ghost use Rattle.std.specs.Prelude.{◌<◌, All, IfOk, OnOk};

use alternating::{Alternating, Positive};
use psl_base::NoMemory;
use psl_tree::Bool;
use std::alloc::Global;

// Lists a signal, if it is one of so many.
fn list_signal(tested: &mut Vec<u32>, signals: u32, signal: u32) -> Result<(), NoMemory>
    requires { All (λ signal. signal < signals) tested.old.items }
    ensures { OnOk result (All (λ signal. signal < signals) tested.new.items) }
{
    if signal < signals {
        tested.push(signal)?;
    }
    Ok(())
}

// Lists the signals that a Boolean tests, of so many.
fn list_boolean(tested: &mut Vec<u32>, signals: u32, test: &Bool) -> Result<(), NoMemory>
    requires { All (λ signal. signal < signals) tested.old.items }
    ensures { OnOk result (All (λ signal. signal < signals) tested.new.items) }
{
    match test {
        Bool::Const(_) => Ok(()),
        Bool::Test(atom) => list_signal(tested, signals, atom.signal),
        Bool::Not(part) => list_boolean(tested, signals, part),
        Bool::And(left, right) | Bool::Or(left, right) => {
            list_boolean(tested, signals, left)?;
            list_boolean(tested, signals, right)
        }
    }
}

// Lists the signals that a combination tests, of so many.
fn list(tested: &mut Vec<u32>, signals: u32, positive: &Positive) -> Result<(), NoMemory>
    requires { All (λ signal. signal < signals) tested.old.items }
    ensures { OnOk result (All (λ signal. signal < signals) tested.new.items) }
{
    match positive {
        Positive::Const(_) | Positive::Owed(_) => Ok(()),
        Positive::Holds(test) => list_boolean(tested, signals, test),
        Positive::And(left, right) | Positive::Or(left, right) => {
            list(tested, signals, left)?;
            list(tested, signals, right)
        }
    }
}

/// The signals that an automaton tests, of so many; one that is tested twice is listed twice.
pub(crate) fn tested(
    alloc: Global,
    automaton: &Alternating,
    signals: u32,
) -> Result<Vec<u32>, NoMemory>
    ensures { IfOk result (λ tested. All (λ signal. signal < signals) tested.items) }
{
    let mut tested = Vec::new(alloc);
    for number in 0..automaton.len() {
        list(&mut tested, signals, automaton.delta(number))?;
    }
    Ok(tested)
}
