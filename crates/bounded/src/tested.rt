// The signals that an automaton tests.
ghost use Rattle.std.specs.Prelude.{◌≡◌, ◌++◌, IfOk, OnOk};
ghost use Rattle.alternating.specs.Views.{positive_of};
ghost use Rattle.psl_tree.specs.Trees as trees;
ghost use Rattle.bounded.specs.Tested.{signals_of as signals_tested, signals_of_boolean, signals_of_positive};

use alternating::{Alternating, Positive};
use netlist::Signals;
use psl_base::NoMemory;
use psl_tree::Bool;
use std::alloc::Global;

// Lists the signals of a Boolean's atoms, from left to right.
fn list_boolean(tested: &mut Signals, test: &Bool) -> Result<(), NoMemory>
    ensures { OnOk result (tested.new ≡ tested.old ++ signals_of_boolean (trees.boolean_of test.now)) }
{
    match test {
        Bool::Const(_) => Ok(()),
        Bool::Test(atom) => tested.push(atom.signal),
        Bool::Not(part) => list_boolean(tested, part),
        Bool::And(left, right) | Bool::Or(left, right) => {
            list_boolean(tested, left)?;
            list_boolean(tested, right)
        }
    }
}

// Lists those of a combination.
fn list_positive(tested: &mut Signals, positive: &Positive) -> Result<(), NoMemory>
    ensures { OnOk result (tested.new ≡ tested.old ++ signals_of_positive (positive_of positive.now)) }
{
    match positive {
        Positive::Const(_) | Positive::Owed(_) => Ok(()),
        Positive::Holds(test) => list_boolean(tested, test),
        Positive::And(left, right) | Positive::Or(left, right) => {
            list_positive(tested, left)?;
            list_positive(tested, right)
        }
    }
}

/// The signals of an automaton's atoms, one obligation after the other; one that is tested twice is listed twice.
pub(crate) fn signals_of(alloc: Global, automaton: &Alternating) -> Result<Signals, NoMemory>
    ensures { IfOk result (λ tested. tested ≡ signals_tested automaton.now) }
{
    let mut tested = Signals::new(alloc);
    for number in 0..automaton.len() {
        list_positive(&mut tested, automaton.delta(number))?;
    }
    Ok(tested)
}
