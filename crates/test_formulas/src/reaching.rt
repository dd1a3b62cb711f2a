// The formulas of reachability.
ghost use Rattle.std.specs.Prelude.{◌≡◌, ◌≤◌, IfOk};
ghost use Rattle.clauses.specs.declared.flat.TheConstants.{MOST_VARIABLES};
ghost use Rattle.clauses.specs.Literals.{clause_within, is_within as within};

use crate::models::model;
use crate::netlists::{TOGGLE, netlist};
use crate::violations::{Test, Violation, automaton};
use clauses::Cnf;
use joint::{Joint, joint};
use std::alloc::Global;
use std::test::Fail;

// What a formula looks for.
#[derive(Clone, Copy)]
enum Query {
    Initial,
    Step,
    Bad,
    // A pair that enters a cube, of which the first state is initial where that is asked.
    Relative(bool),
}

// A query over one clause, and the cube that it asks for, if it does; and whether q is 1 in the first state of a model,
// where there is one.
#[derive(Clone, Copy)]
struct Row<'a> {
    query: Query,
    clause: &'a [i32],
    cube: &'a [i32],
    first: Option<bool>,
}

// The working. TOGGLE has 2 signals, q and n, of which each is the other's negation; q is 0 at first, and changes with
// each step. Something is looked for at which q is 1, of which there are 2 obligations, the start and its copy, and with
// no visits 1 bit of the count. So a state has 10 bits: whether there is a valuation before, two of that, then q and n,
// which are 4 and 5, four of obligations, and 10, by which it is bad.
const ROWS: [Row<'static>; 10] = [
    // In an initial state q is 0,
    Row {
        query: Query::Initial,
        clause: &[-4],
        cube: &[],
        first: None,
    },
    // and not 1.
    Row {
        query: Query::Initial,
        clause: &[4],
        cube: &[],
        first: Some(false),
    },
    // A step leads from 0 to 1.
    Row {
        query: Query::Step,
        clause: &[-4],
        cube: &[],
        first: Some(false),
    },
    // In each state q or n is 1.
    Row {
        query: Query::Step,
        clause: &[4, 5],
        cube: &[],
        first: None,
    },
    // No bad state is one that is not bad,
    Row {
        query: Query::Bad,
        clause: &[-10],
        cube: &[],
        first: None,
    },
    // and in some q is 1.
    Row {
        query: Query::Bad,
        clause: &[4],
        cube: &[],
        first: Some(true),
    },
    // From the initial state a step leads to 1.
    Row {
        query: Query::Relative(true),
        clause: &[4, 5],
        cube: &[4],
        first: Some(false),
    },
    // It is itself where q is 0.
    Row {
        query: Query::Relative(true),
        clause: &[4, 5],
        cube: &[-4],
        first: None,
    },
    // Another state need not be,
    Row {
        query: Query::Relative(false),
        clause: &[4, 5],
        cube: &[-4],
        first: Some(true),
    },
    // unless the clause asks it to be.
    Row {
        query: Query::Relative(false),
        clause: &[-4],
        cube: &[-4],
        first: None,
    },
];

// Whether a literal is of one of so many variables.
fn is_within(variables: u32, literal: i32) -> bool
    ensures { result ≡ within variables literal }
{
    literal != 0 && literal.unsigned_abs() <= variables
}

// Whether each literal is.
fn are_within(variables: u32, literals: &[i32]) -> bool
    ensures { result ≡ clause_within variables literals.now }
{
    for literal in literals {
        if !is_within(variables, *literal) {
            return false;
        }
    }
    true
}

// One clause over so many variables.
fn one_clause(alloc: Global, variables: u32, clause: &[i32]) -> Result<Cnf, Fail>
    requires { variables ≤ MOST_VARIABLES }
    ensures { IfOk result (λ cnf. cnf.variables ≡ variables) }
{
    if !are_within(variables, clause) {
        return Err("a literal past the bits".into());
    }
    let mut cnf = Cnf::new(alloc, variables);
    cnf.push(clause)?;
    Ok(cnf)
}

// The formula of a row.
fn formula(alloc: Global, joint: &Joint<'_>, row: &Row<'_>) -> Result<Cnf, Fail> {
    let bits = joint.state_bits();
    let asked = one_clause(alloc, bits, row.clause)?;
    if !are_within(bits, row.cube) {
        return Err("a literal past the bits".into());
    }
    let formula = match row.query {
        Query::Initial => joint.query_initial(alloc, &asked.clauses)?,
        Query::Step => joint.query_step(alloc, &asked.clauses)?,
        Query::Bad => joint.query_bad(alloc, &asked.clauses)?,
        Query::Relative(initial) => {
            joint.query_relative(alloc, &asked.clauses, initial, row.cube)?
        }
    };
    Ok(formula)
}

// Whether q is 1 in the first state of a model, where there is one.
fn first_of(alloc: Global, formula: &Cnf) -> Result<Option<bool>, Fail> {
    let Some(values) = model(alloc, formula)? else {
        return Ok(None);
    };
    match values.as_slice().get(3) {
        Some(value) => Ok(Some(*value)),
        None => Err("too few values".into()),
    }
}

#[test]
fn reaching_is_as_worked_out(rt: HostRuntime) -> Result<(), Fail> {
    let alloc = rt.alloc();
    let netlist = netlist(alloc, TOGGLE)?;
    let violation = automaton(alloc, &netlist, Violation::Eventually(Test::High(0)))?;
    let joint = joint(alloc, &netlist, &violation, 0)?;
    assert_eq!(rt; joint.state_bits(), 10);
    for row in &ROWS {
        let formula = formula(alloc, &joint, row)?;
        assert_eq!(rt; first_of(alloc, &formula)?, row.first);
    }
    Ok(())
}
