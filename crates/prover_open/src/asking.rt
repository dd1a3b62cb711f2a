// Which obligations are asked for on a letter.
ghost use Rattle.std.specs.Prelude.{◌≡◌, ◌<◌, ◌||◌, ℕ, false, ◌==◌, if◌then◌else◌, length, All, IfOk};
ghost use Rattle.std.specs.List.{list_any};
ghost use Rattle.alternating.specs.Views.{positive_of};
ghost use Rattle.alternating_theory.specs.Atoms.{AtomsOfPositive};
ghost use Rattle.alternating_theory.specs.Positive.{OwesWithin};
ghost use Rattle.joint_theory.specs.Guards.{allows, and_guard, guards, if_test, or_guard, unless_test, Guard};
ghost use Rattle.joint_theory.specs.States.{is_asked};
ghost use Rattle.netlist.specs.Valuations.{bit};
ghost use Rattle.prover_held.specs.Judged.{HaveSignals};
ghost use Rattle.prover_held.specs.Lasting.{letter_in};
ghost use Rattle.psl_tree.specs.Atoms.{AtomsOfBoolean};
ghost use Rattle.psl_tree.specs.Names.{AtomInRange};
ghost use Rattle.psl_tree.specs.Trees.{boolean_of};
ghost use Rattle.run_terms.specs.Automata.{TestsSignals};

use crate::reading::Reading;
use alternating::Positive;
use netlist::{Netlist, Valuations};
use prover_held::{holds, no_bits};
use psl_base::{Bits, NoMemory};
use psl_tree::Bool;
use std::alloc::Global;

// Whether the letter at a place allows the guard of what stands beside a test in a conjunction, where it allows or
// does not allow the guard that stood before.
fn if_allowed(
    netlist: &Netlist,
    path: &Valuations,
    place: usize,
    allowed: bool,
    test: &Bool,
) -> bool
    requires path { HaveSignals netlist.now path.now }
    requires place { place < length path.now }
    requires atoms { AtomsOfBoolean (AtomInRange netlist.now.names) (boolean_of test.now) }
    ensures { (guard : Guard) → allows (letter_in netlist.now path.now place) guard ≡ allowed
        → result ≡ allows (letter_in netlist.now path.now place) (if_test guard (boolean_of test.now)) }
{
    match test {
        Bool::Const(true) => allowed,
        _ => holds(netlist, path, place, test),
    }
}

// The same in a disjunction.
fn unless_allowed(
    netlist: &Netlist,
    path: &Valuations,
    place: usize,
    allowed: bool,
    test: &Bool,
) -> bool
    requires path { HaveSignals netlist.now path.now }
    requires place { place < length path.now }
    requires atoms { AtomsOfBoolean (AtomInRange netlist.now.names) (boolean_of test.now) }
    ensures { (guard : Guard) → allows (letter_in netlist.now path.now place) guard ≡ allowed
        → result ≡ allows (letter_in netlist.now path.now place) (unless_test guard (boolean_of test.now)) }
{
    match test {
        Bool::Const(false) => allowed,
        _ => !holds(netlist, path, place, test),
    }
}

// Whether the letter at a place allows the guard of what stands beside a combination in a conjunction.
fn and_allowed(
    netlist: &Netlist,
    path: &Valuations,
    place: usize,
    allowed: bool,
    sibling: &Positive,
) -> bool
    requires path { HaveSignals netlist.now path.now }
    requires place { place < length path.now }
    requires atoms { AtomsOfPositive (AtomInRange netlist.now.names) (positive_of sibling.now) }
    ensures { (guard : Guard) → allows (letter_in netlist.now path.now place) guard ≡ allowed
        → result ≡ allows (letter_in netlist.now path.now place) (and_guard guard (positive_of sibling.now)) }
{
    match sibling {
        Positive::Holds(test) => if_allowed(netlist, path, place, allowed, test),
        Positive::Const(_) | Positive::Owed(_) => true,
        Positive::And(_, _) | Positive::Or(_, _) => true,
    }
}

// The same in a disjunction.
fn or_allowed(
    netlist: &Netlist,
    path: &Valuations,
    place: usize,
    allowed: bool,
    sibling: &Positive,
) -> bool
    requires path { HaveSignals netlist.now path.now }
    requires place { place < length path.now }
    requires atoms { AtomsOfPositive (AtomInRange netlist.now.names) (positive_of sibling.now) }
    ensures { (guard : Guard) → allows (letter_in netlist.now path.now place) guard ≡ allowed
        → result ≡ allows (letter_in netlist.now path.now place) (or_guard guard (positive_of sibling.now)) }
{
    match sibling {
        Positive::Holds(test) => unless_allowed(netlist, path, place, allowed, test),
        Positive::Const(_) | Positive::Owed(_) => true,
        Positive::And(_, _) | Positive::Or(_, _) => true,
    }
}

// Sets the bits of the obligations that a combination asks for on the letter at a place, where this letter allows or
// does not allow the guard that the combination stands under.
fn mark_asked(
    netlist: &Netlist,
    path: &Valuations,
    place: usize,
    positive: &Positive,
    allowed: bool,
    into: &mut Bits,
)
    requires path { HaveSignals netlist.now path.now }
    requires place { place < length path.now }
    requires atoms { AtomsOfPositive (AtomInRange netlist.now.names) (positive_of positive.now) }
    requires owed { OwesWithin 0 (length into.old) (positive_of positive.now) }
    ensures long { length into.new ≡ length into.old }
    ensures each { (guard : Guard) (number : ℕ) → allows (letter_in netlist.now path.now place) guard ≡ allowed
        → bit into.new number ≡ (bit into.old number || list_any (allows (letter_in netlist.now path.now place))
        (guards guard (positive_of positive.now) number)) }
{
    match positive {
        Positive::Const(_) | Positive::Holds(_) => {}
        Positive::Owed(number) => mark_if(allowed, *number, into),
        Positive::And(left, right) => {
            let first = and_allowed(netlist, path, place, allowed, right);
            let second = and_allowed(netlist, path, place, allowed, left);
            mark_asked(netlist, path, place, left, first, into);
            mark_asked(netlist, path, place, right, second, into);
        }
        Positive::Or(left, right) => {
            let first = or_allowed(netlist, path, place, allowed, right);
            let second = or_allowed(netlist, path, place, allowed, left);
            mark_asked(netlist, path, place, left, first, into);
            mark_asked(netlist, path, place, right, second, into);
        }
    }
}

// Sets a bit, if it is to be set.
fn mark_if(wanted: bool, number: u32, into: &mut Bits)
    requires { number < length into.old }
    ensures long { length into.new ≡ length into.old }
    ensures each { (other : ℕ) → bit into.new other
        ≡ (bit into.old other || (if number == other then wanted else false)) }
{
    if wanted {
        into.set(number as usize, true);
    }
}

/// Which obligations some obligations ask for on the letter at a place of a path, as a value for each obligation.
pub(crate) fn asked_by(
    alloc: Global,
    reading: Reading<'_>,
    place: usize,
    numbers: &[u32],
) -> Result<Bits, NoMemory>
    requires tests { TestsSignals reading.netlist.now reading.automaton.now }
    requires path { HaveSignals reading.netlist.now reading.path.now }
    requires place { place < length reading.path.now }
    requires numbers { All (λ number. number < length reading.automaton.now.obligations) numbers.now }
    ensures long { IfOk result (λ asked. length asked ≡ length reading.entry.automaton.now.obligations) }
    ensures each { IfOk result (λ asked. (number : ℕ) → bit asked number
        ≡ is_asked reading.entry.automaton.now (letter_in reading.entry.netlist.now reading.entry.path.now place)
        numbers.now number) }
{
    let mut asked = no_bits(alloc, reading.automaton.len())?;
    for number in numbers {
        let delta = reading.automaton.delta(*number);
        mark_asked(
            reading.netlist,
            reading.path,
            place,
            delta,
            true,
            &mut asked,
        );
    }
    Ok(asked)
}
