ghost use Rattle.std.specs.Prelude.{◌≡◌, ℕ, List, length, IsTrue, IfSome, IfOk, OnOk};
ghost use Rattle.psl_tree.specs.Trees.{boolean_of};
ghost use Rattle.psl_tree.specs.declared.boolean.Bool as code_boolean;
ghost use Rattle.alternating_theory.specs.Positive.{OwesWithin, And, Or};
ghost use Rattle.alternating.specs.Views.{positive_of};
ghost use Rattle.alternating_blocks.specs.Plan.{bare, bare_positive, combination_of, NodeWithin, IsPlan, IsGrown, IsNumber};

use alternating::{Alternating, Positive};
use psl_base::{NoMemory, boxed};
use psl_tree::Bool;
use std::alloc::Global;

/// A combination whose Booleans stand apart, so that each different one is looked at once a block: `Holds` has the
/// number of one, `Owed` that of an obligation. `Both` and `Either` are a Boolean and, or or, an obligation in one
/// node: a sequence's state asks one such pair for each of its edges.
pub(crate) enum Node {
    Const(bool),
    Holds(usize),
    Owed(u32),
    Both(usize, u32),
    Either(usize, u32),
    And(Box<Node>, Box<Node>),
    Or(Box<Node>, Box<Node>),
}

// A loop along the right parts, since a derived drop takes stack for each level, and a combination
// has one for each edge of a sequence's state.
impl Drop for Node {
    fn drop(mut self) {
        loop {
            match self {
                Node::Const(_) | Node::Holds(_) | Node::Owed(_) => return,
                Node::Both(_, _) | Node::Either(_, _) => return,
                Node::And(_left, right) | Node::Or(_left, right) => self = Box::into_inner(right),
            }
        }
    }
}

/// What the obligations of an automaton ask.
#[derive(Drop)]
pub(crate) struct Plan {
    /// The different Booleans.
    pub(crate) tests: Vec<Bool>,
    /// Of each obligation what it asks.
    pub(crate) deltas: Vec<Node>,
}

impl Plan {
    pub(crate) fn new(alloc: Global, automaton: &Alternating) -> Result<Plan, NoMemory>
        ensures { IfOk result (IsPlan automaton.now) }
    {
        let mut tests = Vec::new(alloc);
        let mut deltas = Vec::new(alloc);
        for number in 0..automaton.len() {
            let delta = automaton.delta(number);
            let node = planned(alloc, automaton.len(), delta, &mut tests)?;
            deltas.push(node)?;
        }
        Ok(Plan { tests, deltas })
    }
}

// The combination with its Booleans bare and numbered, of which the new ones are added.
fn planned(
    alloc: Global,
    count: u32,
    combination: &Positive,
    tests: &mut Vec<Bool>,
) -> Result<Node, NoMemory>
    requires { OwesWithin 0 count (positive_of combination.now) }
    ensures same { IfOk result (λ node. combination_of tests.new.items node ≡ bare_positive (positive_of combination.now)) }
    ensures within { IfOk result (λ node. NodeWithin count (length tests.new.items) node) }
    ensures grown { OnOk result (IsGrown tests.old.items tests.new.items) }
{
    match combination {
        Positive::Const(value) => Ok(Node::Const(*value)),
        Positive::Holds(test) => Ok(Node::Holds(number_of(alloc, bare(test), tests)?)),
        Positive::Owed(number) => Ok(Node::Owed(*number)),
        Positive::And(left, right) => {
            let first = planned(alloc, count, left, tests)?;
            let second = planned(alloc, count, right, tests)?;
            all_of(alloc, first, second)
        }
        Positive::Or(left, right) => {
            let first = planned(alloc, count, left, tests)?;
            let second = planned(alloc, count, right, tests)?;
            one_of(alloc, first, second)
        }
    }
}

fn all_of(alloc: Global, left: Node, right: Node) -> Result<Node, NoMemory>
    ensures same { IfOk result (λ node. (tests : List code_boolean.Bool) → combination_of tests node ≡ And (combination_of tests left) (combination_of tests right)) }
    ensures within { IfOk result (λ node. (count tests : ℕ) → NodeWithin count tests left → NodeWithin count tests right → NodeWithin count tests node) }
{
    if let (Node::Holds(test), Node::Owed(number)) = (&left, &right) {
        return Ok(Node::Both(*test, *number));
    }
    let left = boxed(alloc, left)?;
    Ok(Node::And(left, boxed(alloc, right)?))
}

fn one_of(alloc: Global, left: Node, right: Node) -> Result<Node, NoMemory>
    ensures same { IfOk result (λ node. (tests : List code_boolean.Bool) → combination_of tests node ≡ Or (combination_of tests left) (combination_of tests right)) }
    ensures within { IfOk result (λ node. (count tests : ℕ) → NodeWithin count tests left → NodeWithin count tests right → NodeWithin count tests node) }
{
    if let (Node::Holds(test), Node::Owed(number)) = (&left, &right) {
        return Ok(Node::Either(*test, *number));
    }
    let left = boxed(alloc, left)?;
    Ok(Node::Or(left, boxed(alloc, right)?))
}

// The Boolean without two negations one behind the other, of which the dual of a dual makes long rows.
fn bare(test: &Bool) -> &Bool
    ensures { boolean_of result.now ≡ bare (boolean_of test.now) }
{
    let Bool::Not(part) = test else {
        return test;
    };
    let Bool::Not(inner) = &**part else {
        return test;
    };
    bare(inner)
}

// The number of a Boolean, which is added where there is no equal one.
fn number_of(alloc: Global, test: &Bool, tests: &mut Vec<Bool>) -> Result<usize, NoMemory>
    ensures number { IfOk result (λ number. IsNumber tests.new.items number (boolean_of test.now)) }
    ensures grown { OnOk result (IsGrown tests.old.items tests.new.items) }
{
    if let Some(number) = found(test, tests.as_slice()) {
        return Ok(number);
    }
    let number = tests.len();
    tests.push(test.copy(alloc)?)?;
    Ok(number)
}

fn found(test: &Bool, tests: &[Bool]) -> Option<usize>
    ensures { IfSome result (λ number. IsNumber tests.now number (boolean_of test.now)) }
{
    for (number, known) in tests.iter().enumerate() {
        if same_boolean(known, test) {
            return Some(number);
        }
    }
    None
}

fn same_boolean(left: &Bool, right: &Bool) -> bool
    ensures { IsTrue result → boolean_of left.now ≡ boolean_of right.now }
{
    match (left, right) {
        (Bool::Const(value), Bool::Const(other)) => *value == *other,
        (Bool::Test(atom), Bool::Test(other)) => *atom == *other,
        (Bool::Not(part), Bool::Not(other)) => same_boolean(part, other),
        (Bool::And(first, second), Bool::And(other, last)) => {
            same_boolean(first, other) && same_boolean(second, last)
        }
        (Bool::Or(first, second), Bool::Or(other, last)) => {
            same_boolean(first, other) && same_boolean(second, last)
        }
        _ => false,
    }
}
