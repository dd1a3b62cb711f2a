// Which combinations test the values of inputs alone.
ghost use Rattle.std.specs.Prelude.{◌≡◌, IfOk};
ghost use Rattle.alternating.specs.Views.{positive_of};
ghost use Rattle.netlist.specs.Valuations.{bit};
ghost use Rattle.psl_tree.specs.Trees.{boolean_of};
ghost use Rattle.prover_held.specs.Judged.{boolean_marked, is_value, positive_marked, AreMarks};

use crate::bits::no_bits;
use alternating::Positive;
use netlist::{Netlist, soundness_law};
use psl_base::{Bits, NoMemory};
use psl_tree::{Bool, Edge};
use std::alloc::Global;

/// A mark for each signal that is an input.
pub(crate) fn input_marks(alloc: Global, netlist: &Netlist) -> Result<Bits, NoMemory>
    ensures { IfOk result (AreMarks netlist.now) }
{
    soundness_law(netlist);
    let mut marks = no_bits(alloc, netlist.signals())?;
    for signal in netlist.inputs().as_slice() {
        marks.set(*signal as usize, true);
    }
    Ok(marks)
}

// Whether a signal has a mark.
fn is_marked(marks: &[bool], signal: u32) -> bool
    ensures { result ≡ bit marks.now signal }
{
    match marks.get(signal as usize) {
        Some(mark) => *mark,
        None => false,
    }
}

fn is_value(edge: Edge) -> bool
    ensures { result ≡ is_value edge }
{
    match edge {
        Edge::Value => true,
        Edge::Rise | Edge::Fall => false,
    }
}

// Whether a Boolean tests the values of marked signals alone.
fn boolean_marked(marks: &[bool], test: &Bool) -> bool
    ensures { result ≡ boolean_marked marks.now (boolean_of test.now) }
{
    match test {
        Bool::Const(_) => true,
        Bool::Test(atom) => is_value(atom.edge) && is_marked(marks, atom.signal),
        Bool::Not(part) => boolean_marked(marks, part),
        Bool::And(left, right) | Bool::Or(left, right) => {
            boolean_marked(marks, left) && boolean_marked(marks, right)
        }
    }
}

/// Whether a combination tests the values of marked signals alone.
pub(crate) fn positive_marked(marks: &[bool], positive: &Positive) -> bool
    ensures { result ≡ positive_marked marks.now (positive_of positive.now) }
{
    match positive {
        Positive::Const(_) | Positive::Owed(_) => true,
        Positive::Holds(test) => boolean_marked(marks, test),
        Positive::And(left, right) | Positive::Or(left, right) => {
            positive_marked(marks, left) && positive_marked(marks, right)
        }
    }
}
