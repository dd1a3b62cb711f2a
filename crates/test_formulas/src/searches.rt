// Searches for a run.
ghost use Rattle.std.specs.Prelude.{◌≡◌};
ghost use Rattle.run_terms.specs.Automata.{TestsSignals};
ghost use Rattle.bounded.specs.Searches.{search_clauses, search_variables};

use crate::models::model;
use crate::netlists::{KEPT, TOGGLE, netlist};
use crate::violations::{Test, Violation, automaton};
use alternating::Alternating;
use bounded::{read_run, search_formula};
use clauses::Cnf;
use netlist::{Netlist, Run, Valuations};
use psl_base::{NoMemory, add_bytes};
use std::alloc::Global;
use std::test::Fail;

// A search for a run of so many valuations; how many variables and words its formula has; and the run that a model
// gives, each valuation in digits, with those of the loop behind a bar, or `none` where the formula has no model.
#[derive(Clone, Copy)]
struct Row<'a> {
    netlist: &'a str,
    violation: Violation,
    size: u32,
    variables: u32,
    words: usize,
    run: &'a str,
}

// The working. A place has b bits: of each obligation one, and w more for the digits of its number if it is not
// accepting. With n valuations there are n + 2 places, and 1 + F + (n + 2) * b + n + A variables: the true one, F
// free nodes of frames, the bits of places, one for each place where the loop may begin, and A conjunctions.
//
// Words: 2 of the true variable, 10 for each conjunction that is asked for, 2 for the start and n + 1 that the loop
// begins somewhere, 8 * n for each latch and 8 * n * b of what closes the loop, and 3 for each of m obligations at
// each of the first n + 1 places. They stand in this order, what closes the loop as one number.
//
// TOGGLE has a latch, and all its literals are constant: q is 0, 1, 0, and so on. KEPT has a latch too, which is one
// free node for all frames; it never falls, since it is one literal. The delta of `eventually! b` is: b, or true and
// the same owed next. Of `always b`: b, and false or the same owed next. Beside these obligations there is the start,
// a copy of the outer one that nothing owes. So m is 2 with one operator, and 3 with two; w is 2.
//
// What is owed next is one literal if one of both obligations is accepting. Else their numbers are compared. That
// takes 7 conjunctions, of which 6 are asked for: nothing is exceeded before the lowest digit, so one conjunction of
// this digit is left, of two that are made. At the last place numbers have to fall, which takes 8, all asked for.
// They are made, but not asked for, where `eventually! b` has a true b. A constant in a conjunction or disjunction
// takes none.
const ROWS: [Row<'static>; 9] = [
    // No run has one valuation. b 6, A 2 * (7 + 8). Words: 2 + 280 + 4 + 56 + 12.
    Row {
        netlist: TOGGLE,
        violation: Violation::Eventually(Test::Falls(0)),
        size: 1,
        variables: 50,
        words: 354,
        run: "none",
    },
    // An edge at the loop's start: q falls just where the loop begins again, at the last place. A 2 * (7 + 7 + 8).
    // Words: 2 + 240 + 5 + 112 + 18.
    Row {
        netlist: TOGGLE,
        violation: Violation::Eventually(Test::Falls(0)),
        size: 2,
        variables: 71,
        words: 377,
        run: "| 01 10",
    },
    // A loop of one valuation has no edge. F 1, A 2 * (7 + 8). Words: 2 + 280 + 4 + 56 + 12.
    Row {
        netlist: KEPT,
        violation: Violation::Eventually(Test::Falls(0)),
        size: 1,
        variables: 51,
        words: 354,
        run: "none",
    },
    // A loop of one valuation: both obligations are accepting, b 2, and ask the same conjunction, one for each of the
    // two places. Words: 2 + 20 + 4 + 24 + 12.
    Row {
        netlist: KEPT,
        violation: Violation::Always(Test::High(0)),
        size: 1,
        variables: 11,
        words: 62,
        run: "| 1",
    },
    // What is owed is met at the loop's first place. b 6, A 2 * (7 + 7 + 7 + 8); q is 1 at the places 1 and 3. Words:
    // 2 + 240 + 6 + 168 + 24.
    Row {
        netlist: TOGGLE,
        violation: Violation::Eventually(Test::High(0)),
        size: 3,
        variables: 92,
        words: 440,
        run: " 01| 10 01",
    },
    // What is owed is never met, and no number falls for ever. A 2 * (7 + 7 + 8). Words: 2 + 400 + 5 + 112 + 18.
    Row {
        netlist: TOGGLE,
        violation: Violation::Eventually(Test::Both(0, 1)),
        size: 2,
        variables: 71,
        words: 537,
        run: "none",
    },
    // What is owed at the last place is met only at the next one, where the loop has begun again, so its number
    // falls. The outer obligation and its copy are accepting, so b 5. The inner one takes 7 + 7 + 8, asked for at the
    // places 0 and 2; the others ask one conjunction together where q is 0, at the same places. Words: 2 + 160 + 5 +
    // 96 + 27.
    Row {
        netlist: TOGGLE,
        violation: Violation::AlwaysEventually(Test::High(0)),
        size: 2,
        variables: 47,
        words: 290,
        run: "| 01 10",
    },
    // What is owed at each place is never met: A 7 + 7 + 8 and 3. Words: 2 + 230 + 5 + 96 + 27.
    Row {
        netlist: TOGGLE,
        violation: Violation::AlwaysEventually(Test::Both(0, 1)),
        size: 2,
        variables: 48,
        words: 360,
        run: "none",
    },
    // At last q would have to stay 1. The inner obligation alone is accepting, so b 7, and takes no conjunction. The
    // outer one and its copy take 7 + 7 + 8 each, and one more at the place 1, where q is 1. Words: 2 + 420 + 5 + 128
    // + 27.
    Row {
        netlist: TOGGLE,
        violation: Violation::EventuallyAlways(Test::High(0)),
        size: 2,
        variables: 77,
        words: 582,
        run: "none",
    },
];

// Adds valuations in digits.
fn add_valuations(text: &mut Vec<u8>, valuations: &Valuations) -> Result<(), NoMemory> {
    for valuation in valuations.as_slice() {
        add_bytes(text, b" ")?;
        for bit in valuation.as_slice() {
            add_bytes(text, if *bit { b"1" } else { b"0" })?;
        }
    }
    Ok(())
}

// A run in digits.
fn digits(alloc: Global, run: &Run) -> Result<Vec<u8>, NoMemory> {
    let mut text = Vec::new(alloc);
    add_valuations(&mut text, &run.stem)?;
    add_bytes(&mut text, b"|")?;
    add_valuations(&mut text, &run.loop_part)?;
    Ok(text)
}

// What is found of a search.
#[derive(Drop)]
struct Found {
    variables: u32,
    words: usize,
    run: Vec<u8>,
}

// The run that a model of the formula gives, in digits, or `none`.
fn run_digits(
    alloc: Global,
    netlist: &Netlist,
    violation: &Alternating,
    size: u32,
    formula: &Cnf,
) -> Result<Vec<u8>, Fail>
    requires tests { TestsSignals netlist.now violation.now }
    requires variables { formula.now.variables ≡ search_variables netlist.now violation.now size }
    requires clauses { formula.now.clauses ≡ search_clauses netlist.now violation.now size }
{
    let Some(values) = model(alloc, formula)? else {
        return Ok(Vec::from_slice(alloc, b"none")?);
    };
    let run = read_run(alloc, netlist, violation, size, &values)?;
    Ok(digits(alloc, &run)?)
}

fn of_automaton(
    alloc: Global,
    netlist: &Netlist,
    violation: &Alternating,
    size: u32,
) -> Result<Found, Fail>
    requires { TestsSignals netlist.now violation.now }
{
    let formula = search_formula(alloc, netlist, violation, size)?;
    let run = run_digits(alloc, netlist, violation, size, &formula)?;
    Ok(Found {
        variables: formula.variables,
        words: formula.clauses.words(),
        run,
    })
}

fn answered(alloc: Global, row: &Row<'_>) -> Result<Found, Fail> {
    let netlist = netlist(alloc, row.netlist)?;
    let violation = automaton(alloc, &netlist, row.violation)?;
    of_automaton(alloc, &netlist, &violation, row.size)
}

#[test]
fn searches_are_as_worked_out(rt: HostRuntime) -> Result<(), Fail> {
    for row in &ROWS {
        let found = answered(rt.alloc(), row)?;
        assert_eq!(rt; found.variables, row.variables);
        assert_eq!(rt; found.words, row.words);
        assert_eq!(rt; found.run.as_slice(), row.run.as_bytes());
    }
    Ok(())
}
