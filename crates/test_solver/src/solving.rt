// What no clause says: that the solver decides small formulas within few steps, with ample memory.
ghost use Rattle.std.specs.Prelude.{◌≡◌, IfOk};
ghost use Rattle.clauses.specs.Literals.{is_within as within};

use cdcl::{Answer, solve};
use clauses::{Cnf, Entry, Log};
use std::alloc::Global;
use std::test::Fail;

// Two variables, and so many of the four clauses that have both.
fn some_of_four(alloc: Global, count: usize) -> Result<Cnf, Fail>
    ensures { IfOk result (λ cnf. cnf.variables ≡ 2) }
{
    let mut cnf = Cnf::new(alloc, 2);
    cnf.push(&[1, 2])?;
    cnf.push(&[1, -2])?;
    cnf.push(&[-1, 2])?;
    if count > 3 {
        cnf.push(&[-1, -2])?;
    }
    Ok(cnf)
}

#[test]
fn four_clauses_are_refuted(rt: HostRuntime) -> Result<(), Fail> {
    let cnf = some_of_four(rt.alloc(), 4)?;
    let Answer::Refuted(log) = solve(rt.alloc(), &cnf, 10)? else {
        return Err("not refuted".into());
    };
    assert_eq!(rt; log.lemmas(), 2);
    assert!(rt; matches!(solve(rt.alloc(), &cnf, 1)?, Answer::Spent(_)));
    Ok(())
}

#[test]
fn three_clauses_have_a_model(rt: HostRuntime) -> Result<(), Fail> {
    let cnf = some_of_four(rt.alloc(), 3)?;
    assert!(rt; matches!(solve(rt.alloc(), &cnf, 10)?, Answer::Model(_)));
    Ok(())
}

// Whether a literal is of one of so many variables.
pub(crate) fn is_within(literal: i32, variables: u32) -> bool
    ensures { result ≡ within variables literal }
{
    literal != 0 && literal.unsigned_abs() <= variables
}

// Adds a clause whose literals are within the variables.
fn add(cnf: &mut Cnf, clause: &[i32]) -> Result<(), Fail> {
    for literal in clause {
        if !is_within(*literal, cnf.variables) {
            return Err("a literal past the variables".into());
        }
    }
    cnf.push(clause)?;
    Ok(())
}

// That a pigeon is in a hole.
pub(crate) fn is_in(pigeon: i32, hole: i32, holes: i32) -> i32 {
    pigeon
        .wrapping_mul(holes)
        .wrapping_add(hole)
        .wrapping_add(1)
}

// Each pigeon is in a hole, and no hole has two.
fn pigeons(alloc: Global, pigeons: i32, holes: i32) -> Result<Cnf, Fail> {
    let mut cnf = Cnf::new(alloc, 30);
    let mut clause = Vec::new(alloc);
    for pigeon in 0..pigeons {
        clause.clear();
        for hole in 0..holes {
            clause.push(is_in(pigeon, hole, holes))?;
        }
        add(&mut cnf, &clause)?;
    }
    for hole in 0..holes {
        for pigeon in 0..pigeons {
            for other in 0..pigeon {
                let first = is_in(pigeon, hole, holes).wrapping_neg();
                let second = is_in(other, hole, holes).wrapping_neg();
                add(&mut cnf, &[first, second])?;
            }
        }
    }
    Ok(cnf)
}

// Whether a log has a drop.
fn has_drop(log: &Log) -> bool {
    let mut entries = log.entries();
    while let Some(entry) = entries.next() {
        if let Entry::Forget(_) = entry {
            return true;
        }
    }
    false
}

#[test]
fn pigeons_without_a_hole_are_refuted(rt: HostRuntime) -> Result<(), Fail> {
    let cnf = pigeons(rt.alloc(), 6, 5)?;
    let Answer::Refuted(log) = solve(rt.alloc(), &cnf, 20_000)? else {
        return Err("not refuted".into());
    };
    assert!(rt; has_drop(&log));
    let few = pigeons(rt.alloc(), 3, 2)?;
    assert!(rt; matches!(solve(rt.alloc(), &few, 1)?, Answer::Spent(_)));
    Ok(())
}
