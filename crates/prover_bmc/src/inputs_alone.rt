// Whether combinations test the values of inputs, and nothing else.
ghost use Rattle.std.specs.Prelude.{◌≡◌, length, IfOk};

use alternating::{Alternating, Positive};
use netlist::Netlist;
use psl_base::{Bits, NoMemory};
use psl_tree::{Atom, Bool, Edge};
use std::alloc::Global;

// Of each signal whether it is an input.
fn inputs_of(alloc: Global, netlist: &Netlist) -> Result<Vec<bool>, NoMemory> {
    let mut are = vec![in alloc; false; netlist.signals() as usize]?;
    for input in netlist.inputs().as_slice() {
        if (*input as usize) < are.len() {
            are[*input as usize] = true;
        }
    }
    Ok(are)
}

// Whether an atom is the value of an input.
fn is_of_input(inputs: &[bool], atom: &Atom) -> bool {
    match (atom.edge, inputs.get(atom.signal as usize)) {
        (Edge::Value, Some(is_input)) => *is_input,
        _ => false,
    }
}

fn boolean_tests_inputs(inputs: &[bool], test: &Bool) -> bool {
    match test {
        Bool::Const(_) => true,
        Bool::Test(atom) => is_of_input(inputs, atom),
        Bool::Not(part) => boolean_tests_inputs(inputs, part),
        Bool::And(left, right) | Bool::Or(left, right) => {
            boolean_tests_inputs(inputs, left) && boolean_tests_inputs(inputs, right)
        }
    }
}

fn tests_inputs(inputs: &[bool], positive: &Positive) -> bool {
    match positive {
        Positive::Const(_) | Positive::Owed(_) => true,
        Positive::Holds(test) => boolean_tests_inputs(inputs, test),
        Positive::And(left, right) | Positive::Or(left, right) => {
            tests_inputs(inputs, left) && tests_inputs(inputs, right)
        }
    }
}

/// Of each obligation whether it can last while the inputs are held: it is accepting, and its delta tests the values
/// of inputs alone.
pub(crate) fn lasting(
    alloc: Global,
    netlist: &Netlist,
    automaton: &Alternating,
) -> Result<Bits, NoMemory>
    ensures { IfOk result (λ lasting. length lasting ≡ length automaton.now.obligations) }
{
    let inputs = inputs_of(alloc, netlist)?;
    let mut lasting = Bits::new(alloc);
    for number in 0..automaton.len() {
        let lasts = automaton.accepting(number) && tests_inputs(&inputs, automaton.delta(number));
        lasting.push(lasts)?;
    }
    Ok(lasting)
}
