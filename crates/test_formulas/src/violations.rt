// Formulas, and their automata.
ghost use Rattle.std.specs.Prelude.{IfOk};
ghost use Rattle.psl_tree.specs.Clockless.{IsPlain};
ghost use Rattle.psl_tree.specs.Trees.{formula_of};
ghost use Rattle.run_terms.specs.Automata.{TestsSignals};

use alternating::{Alternating, of};
use netlist::Netlist;
use psl_base::{NoMemory, boxed};
use psl_tree::{Atom, Bool, Edge, Fl, LimitFault, are_in_range};
use std::alloc::Global;
use std::test::Fail;

/// What is asked of a letter.
#[derive(Clone, Copy)]
pub(crate) enum Test {
    /// A signal is 1.
    High(u32),
    /// A signal falls.
    Falls(u32),
    /// Two signals are 1.
    Both(u32, u32),
}

/// What the words satisfy that are looked for.
#[derive(Clone, Copy)]
pub(crate) enum Violation {
    /// The test holds at some place.
    Eventually(Test),
    /// At each place.
    Always(Test),
    /// At some place from each place on.
    AlwaysEventually(Test),
    /// At each place from some place on.
    EventuallyAlways(Test),
}

fn atom(signal: u32, edge: Edge) -> Bool {
    Bool::Test(Atom {
        signal,
        bit: 0,
        edge,
    })
}

fn boolean(alloc: Global, test: Test) -> Result<Bool, NoMemory> {
    match test {
        Test::High(signal) => Ok(atom(signal, Edge::Value)),
        Test::Falls(signal) => Ok(atom(signal, Edge::Fall)),
        Test::Both(left, right) => {
            let left = boxed(alloc, atom(left, Edge::Value))?;
            Ok(Bool::And(left, boxed(alloc, atom(right, Edge::Value))?))
        }
    }
}

fn not(alloc: Global, part: Fl) -> Result<Fl, NoMemory>
    requires { IsPlain (formula_of part) }
    ensures { IfOk result (λ new. IsPlain (formula_of new)) }
{
    Ok(Fl::Not(boxed(alloc, part)?))
}

fn eventually(alloc: Global, part: Fl) -> Result<Fl, NoMemory>
    requires { IsPlain (formula_of part) }
    ensures { IfOk result (λ new. IsPlain (formula_of new)) }
{
    let left = boxed(alloc, Fl::Now(Bool::Const(true)))?;
    Ok(Fl::Until(left, boxed(alloc, part)?))
}

fn always(alloc: Global, part: Fl) -> Result<Fl, NoMemory>
    requires { IsPlain (formula_of part) }
    ensures { IfOk result (λ new. IsPlain (formula_of new)) }
{
    let never = eventually(alloc, not(alloc, part)?)?;
    not(alloc, never)
}

fn formula(alloc: Global, violation: Violation) -> Result<Fl, NoMemory>
    ensures { IfOk result (λ new. IsPlain (formula_of new)) }
{
    match violation {
        Violation::Eventually(test) => eventually(alloc, Fl::Now(boolean(alloc, test)?)),
        Violation::Always(test) => always(alloc, Fl::Now(boolean(alloc, test)?)),
        Violation::AlwaysEventually(test) => {
            let part = eventually(alloc, Fl::Now(boolean(alloc, test)?))?;
            always(alloc, part)
        }
        Violation::EventuallyAlways(test) => {
            let part = always(alloc, Fl::Now(boolean(alloc, test)?))?;
            eventually(alloc, part)
        }
    }
}

/// The automaton of what is looked for, where it tests signals of the netlist.
pub(crate) fn automaton(
    alloc: Global,
    netlist: &Netlist,
    violation: Violation,
) -> Result<Alternating, Fail>
    ensures { IfOk result (TestsSignals netlist.now) }
{
    let formula = formula(alloc, violation)?;
    if !are_in_range(netlist.names(), &formula) {
        return Err("not of the netlist".into());
    }
    match of(alloc, &formula) {
        Ok(automaton) => Ok(automaton),
        Err(LimitFault::NoMemory) => Err(NoMemory.into()),
        Err(_) => Err("too large".into()),
    }
}
