// The queries of a window over joint states.
ghost use Rattle.std.specs.Prelude.{◌≡◌, IfOk};
ghost use Rattle.joint_theory.specs.Queries as spec;

use crate::models::model;
use crate::netlists::{THREE, TOGGLE, netlist};
use crate::violations::{Test, Violation, automaton};
use clauses::{Cnf, CnfFault};
use joint::{Joint, joint};
use joint_theory::JointPath;
use psl_base::{NoMemory, add_bytes, add_number};
use std::alloc::Global;
use std::test::Fail;

// A query for an open path at a window, from an initial state or of the other kind; how many variables and words its
// formula has; and the path that a model gives, the valuation of each state in digits and its count behind a stroke,
// or `none` where the formula has no model.
#[derive(Clone, Copy)]
struct Row<'a> {
    netlist: &'a str,
    violation: Violation,
    visits: u32,
    window: u32,
    is_initial: bool,
    variables: u32,
    words: usize,
    path: &'a str,
}

const EVER_2: Violation = Violation::Eventually(Test::High(1));

const EVER_3: Violation = Violation::Eventually(Test::Both(0, 1));

// The working. With s signals, m obligations and v visits a state has W = 1 + 2 * s + 2 * m + v + 1 bits. The terms
// take T gates, and H of them are held. A position has g = 2 * W + 1 + T gates.
//
// T of a state: each table, and once more and 1 for the valuation before; 1 for each signal, each obligation that is
// not accepting, and each visit. T of a step, each of whose terms takes 1 more, as it counts where the state is not
// bad: 3 for each signal and latch, as in a search, and a term that there is a valuation before; twice for each
// obligation 1 and what its delta takes, with nothing for what is owed next; m + 2 that nothing is pending; 2 for
// each obligation, where it begins anew; 4 for the first bit of the count, and 5 for each further one; and that nothing
// is owed or pending that nothing asks for: 1 for each obligation, twice for each time that one asks for another 1, and
// 1 and what the test takes where it does so under a guard, and 2 * m terms.
//
// Words: p * 10 * T of gates at p positions, (p - 1) * (2 * H + 6 * W) of steps, and 2 * H at the last position. In
// `base` p is the window: 2 for each first literal, which are that nothing is before, the latches' first values, 2 *
// m that the start alone is owed and pending, and v + 1 that nothing was counted; and p + 1 that a state is bad. In
// `induction` p is one more than the window n: 2 * n + 2 that the last state alone is bad, and 9 * W + 1 for each of
// n * (n - 1) / 2 pairs, for which there are W further variables. They stand in this order.
//
// THREE has s = 4, two tables of 4 gates and two latches. Beside the obligation there is the start, its copy, which
// nothing owes: m is 2, and each asks for the obligation, where the test does not hold, which takes delta - 3. With v =
// 0: W 14; of a state 8 + 10 + 4 + 2 = 24 by 10 terms; of a step 12 + 6 + 4 * (1 + delta) + 4 + 4 + 4 + 2 + 4 *
// (delta - 1), and 19 for as many terms, so T = 75 + 8 * delta, H 29.
const ROWS: [Row<'static>; 10] = [
    // Without a position there is no state: the empty clause.
    Row {
        netlist: THREE,
        violation: EVER_2,
        visits: 0,
        window: 0,
        is_initial: true,
        variables: 0,
        words: 1,
        path: "none",
    },
    // delta 3, T 99, g 128. Words: 3960 + 426 + 58, 16, 5.
    Row {
        netlist: THREE,
        violation: EVER_2,
        visits: 0,
        window: 4,
        is_initial: true,
        variables: 512,
        words: 4465,
        path: "none",
    },
    // At 2 what is pending is met; nothing is then, which is counted one state later. Words: 4950 + 568 + 58, 16, 6.
    Row {
        netlist: THREE,
        violation: EVER_2,
        visits: 0,
        window: 5,
        is_initial: true,
        variables: 640,
        words: 5598,
        path: " 0010/0 1001/0 0100/0 0010/0 1001/1",
    },
    // v 1: W 15; 1 more gate and term of a state, and 6 and a term of a step; T 106, H 31, g 137. Words: 5300 + 608 +
    // 62, 18, 6.
    Row {
        netlist: THREE,
        violation: EVER_2,
        visits: 1,
        window: 5,
        is_initial: true,
        variables: 685,
        words: 5994,
        path: "none",
    },
    // Words: 6360 + 760 + 62, 18, 7.
    Row {
        netlist: THREE,
        violation: EVER_2,
        visits: 1,
        window: 6,
        is_initial: true,
        variables: 822,
        words: 7207,
        path: " 0010/0 1001/0 0100/0 0010/0 1001/1 0100/2",
    },
    // The counter is never 3. delta 4, T 107, g 136. Words: 3210 + 284 + 58, 16, 4.
    Row {
        netlist: THREE,
        violation: EVER_3,
        visits: 0,
        window: 3,
        is_initial: true,
        variables: 408,
        words: 3572,
        path: "none",
    },
    // A path may begin at 3, where what is pending is met. 1 pair: words 3210 + 284 + 58, 6, 127.
    Row {
        netlist: THREE,
        violation: EVER_3,
        visits: 0,
        window: 2,
        is_initial: false,
        variables: 422,
        words: 3685,
        path: " 1100/0 0010/0 1001/1",
    },
    // No state is before it: with the base at this window, the counter is proved. 3 pairs: words 4280 + 426 + 58, 8,
    // 381.
    Row {
        netlist: THREE,
        violation: EVER_3,
        visits: 0,
        window: 3,
        is_initial: false,
        variables: 586,
        words: 5153,
        path: "none",
    },
    // TOGGLE has s = 2, a table of 3 gates and a latch; m 3, v 0: W 12. The deltas take 3, 6 and 6, and the inner
    // obligation is accepting; it asks for itself, and the others for both but the start, for the inner one beside a
    // constant, which takes 1: of a state 3 + 4 + 2 + 2 = 11 by 7 terms; of a step 6 + 3 + 2 * (4 + 7 + 7) + 5 +
    // 6 + 4 + 3 + 2 * (3 * 3 + 2) and 21 for as many terms; T 117, H 28, g 142. Words: 2340 + 128 + 56, 18, 3.
    Row {
        netlist: TOGGLE,
        violation: Violation::EventuallyAlways(Test::High(0)),
        visits: 0,
        window: 2,
        is_initial: true,
        variables: 284,
        words: 2545,
        path: "none",
    },
    // What is pending could be met only at a 1 with a 1 behind it. 1 pair: words 3510 + 256 + 56, 6, 109.
    Row {
        netlist: TOGGLE,
        violation: Violation::EventuallyAlways(Test::High(0)),
        visits: 0,
        window: 2,
        is_initial: false,
        variables: 438,
        words: 3937,
        path: "none",
    },
];

fn query(alloc: Global, joint: &Joint<'_>, window: u32, initial: bool) -> Result<Cnf, CnfFault>
    ensures variables { IfOk result (λ cnf. cnf.variables
        ≡ spec.query_variables joint.now.design joint.now.automaton joint.now.visits window initial) }
    ensures clauses { IfOk result (λ cnf. cnf.clauses
        ≡ spec.query joint.now.design joint.now.automaton joint.now.visits window initial) }
{
    if initial {
        joint.base(alloc, window)
    } else {
        joint.induction(alloc, window)
    }
}

// A path in digits.
fn digits(alloc: Global, path: &JointPath) -> Result<Vec<u8>, NoMemory> {
    let mut text = Vec::new(alloc);
    for state in path.states.as_slice() {
        add_bytes(&mut text, b" ")?;
        for bit in state.valuation.as_slice() {
            add_bytes(&mut text, if *bit { b"1" } else { b"0" })?;
        }
        add_bytes(&mut text, b"/")?;
        add_number(&mut text, u64::from(state.count))?;
    }
    Ok(text)
}

// What is found of a query.
#[derive(Drop)]
struct Found {
    variables: u32,
    words: usize,
    path: Vec<u8>,
}

// The path that a model of the formula gives, in digits, or `none`.
fn path_digits(
    alloc: Global,
    joint: &Joint<'_>,
    window: u32,
    initial: bool,
    formula: &Cnf,
) -> Result<Vec<u8>, Fail>
    requires variables { formula.now.variables
        ≡ spec.query_variables joint.now.design joint.now.automaton joint.now.visits window initial }
    requires clauses { formula.now.clauses
        ≡ spec.query joint.now.design joint.now.automaton joint.now.visits window initial }
{
    let Some(values) = model(alloc, formula)? else {
        return Ok(Vec::from_slice(alloc, b"none")?);
    };
    let path = joint.read_path(alloc, window, initial, &values)?;
    Ok(digits(alloc, &path)?)
}

fn of_joint(alloc: Global, joint: &Joint<'_>, window: u32, initial: bool) -> Result<Found, Fail> {
    let formula = query(alloc, joint, window, initial)?;
    let path = path_digits(alloc, joint, window, initial, &formula)?;
    Ok(Found {
        variables: formula.variables,
        words: formula.clauses.words(),
        path,
    })
}

fn answered(alloc: Global, row: &Row<'_>) -> Result<Found, Fail> {
    let netlist = netlist(alloc, row.netlist)?;
    let violation = automaton(alloc, &netlist, row.violation)?;
    if row.visits > 16 {
        return Err("too many visits".into());
    }
    let joint = joint(alloc, &netlist, &violation, row.visits)?;
    of_joint(alloc, &joint, row.window, row.is_initial)
}

#[test]
fn queries_are_as_worked_out(rt: HostRuntime) -> Result<(), Fail> {
    for row in &ROWS {
        let found = answered(rt.alloc(), row)?;
        assert_eq!(rt; found.variables, row.variables);
        assert_eq!(rt; found.words, row.words);
        assert_eq!(rt; found.path.as_slice(), row.path.as_bytes());
    }
    Ok(())
}
