// What no clause says: that growing clauses are decided within few conflicts, with ample memory, and by which literals.
ghost use Rattle.std.specs.Prelude.{◌≡◌, IfOk};

use crate::solving::{is_in, is_within};
use cdcl_incremental::{Asked, Growing};
use clauses::Cnf;
use std::alloc::Global;
use std::test::Fail;

// Adds a clause, whose literals are of the variables.
fn add(growing: &mut Growing, alloc: Global, clause: &[i32]) -> Result<(), Fail> {
    let variables = growing.variables();
    for literal in clause {
        if !is_within(*literal, variables) {
            return Err("a literal past the variables".into());
        }
    }
    growing.add(alloc, clause)?;
    Ok(())
}

// Asks with literals of the variables.
fn ask(growing: &mut Growing, alloc: Global, assumed: &[i32], steps: u64) -> Result<Asked, Fail> {
    let variables = growing.variables();
    for literal in assumed {
        if !is_within(*literal, variables) {
            return Err("a literal past the variables".into());
        }
    }
    Ok(growing.ask(alloc, assumed, steps)?)
}

// How many literals the core has where there is no model, and None where there is one.
fn core_size(asked: &Asked) -> Result<Option<usize>, Fail> {
    match asked {
        Asked::Model(_) => Ok(None),
        Asked::Refuted(core) => Ok(Some(core.len())),
        Asked::Spent => Err("undecided".into()),
    }
}

// Clauses of so many variables, without a clause.
fn empty(alloc: Global, variables: u32, room: u32) -> Result<Growing, Fail> {
    if variables > 100 || room > 100 {
        return Err("too many variables".into());
    }
    let cnf = Cnf::new(alloc, variables);
    Ok(Growing::new(alloc, &cnf, room)?)
}

// Four pigeons, each of which is in one of three holes where its selector is true: 13 for the first, and so on. No hole
// has two.
fn selected_pigeons(alloc: Global) -> Result<Growing, Fail> {
    let mut growing = empty(alloc, 16, 0)?;
    for pigeon in 0..4 {
        let selector = pigeon + 13;
        let first = is_in(pigeon, 0, 3);
        let clause = [-selector, first, is_in(pigeon, 1, 3), is_in(pigeon, 2, 3)];
        add(&mut growing, alloc, &clause)?;
        for other in 0..pigeon {
            for hole in 0..3 {
                let one = is_in(pigeon, hole, 3).wrapping_neg();
                let two = is_in(other, hole, 3).wrapping_neg();
                add(&mut growing, alloc, &[one, two])?;
            }
        }
    }
    Ok(growing)
}

#[test]
fn pigeons_are_refuted_by_their_selectors(rt: HostRuntime) -> Result<(), Fail> {
    let mut growing = selected_pigeons(rt.alloc())?;
    let all = ask(&mut growing, rt.alloc(), &[13, 14, 15, 16], 1_000)?;
    assert_eq!(rt; core_size(&all)?, Some(4));
    let three = ask(&mut growing, rt.alloc(), &[13, 14, 16], 1_000)?;
    assert_eq!(rt; core_size(&three)?, None);
    let again = ask(&mut growing, rt.alloc(), &[16, 15, 14, 13], 1_000)?;
    assert_eq!(rt; core_size(&again)?, Some(4));
    Ok(())
}

#[test]
fn clauses_come_between_questions(rt: HostRuntime) -> Result<(), Fail> {
    let mut growing = empty(rt.alloc(), 2, 1)?;
    add(&mut growing, rt.alloc(), &[1, 2])?;
    let first = ask(&mut growing, rt.alloc(), &[-1], 10)?;
    assert_eq!(rt; core_size(&first)?, None);
    assert_eq!(rt; growing.open(), Some(3));
    assert_eq!(rt; growing.open(), None);
    add(&mut growing, rt.alloc(), &[-2, 3])?;
    add(&mut growing, rt.alloc(), &[-2, -3])?;
    let second = ask(&mut growing, rt.alloc(), &[-1], 10)?;
    assert_eq!(rt; core_size(&second)?, Some(1));
    let third = ask(&mut growing, rt.alloc(), &[1], 10)?;
    assert_eq!(rt; core_size(&third)?, None);
    add(&mut growing, rt.alloc(), &[-1])?;
    let fourth = ask(&mut growing, rt.alloc(), &[3], 10)?;
    assert_eq!(rt; core_size(&fourth)?, Some(0));
    assert_eq!(rt; growing.clauses().len(), 4);
    Ok(())
}

#[test]
fn literals_are_repeated(rt: HostRuntime) -> Result<(), Fail> {
    let mut growing = empty(rt.alloc(), 2, 0)?;
    add(&mut growing, rt.alloc(), &[1, 1])?;
    add(&mut growing, rt.alloc(), &[2, -2, 2])?;
    let refuted = ask(&mut growing, rt.alloc(), &[2, -1, -1], 10)?;
    assert_eq!(rt; core_size(&refuted)?, Some(1));
    let model = ask(&mut growing, rt.alloc(), &[1, 1, 2], 10)?;
    assert_eq!(rt; core_size(&model)?, None);
    Ok(())
}

#[test]
fn a_formula_is_refuted_at_once(rt: HostRuntime) -> Result<(), Fail> {
    let mut cnf = Cnf::new(rt.alloc(), 2);
    cnf.push(&[1])?;
    cnf.push(&[-1])?;
    let mut growing = Growing::new(rt.alloc(), &cnf, 0)?;
    let first = ask(&mut growing, rt.alloc(), &[2], 0)?;
    assert_eq!(rt; core_size(&first)?, Some(0));
    add(&mut growing, rt.alloc(), &[2])?;
    let second = ask(&mut growing, rt.alloc(), &[], 0)?;
    assert_eq!(rt; core_size(&second)?, Some(0));
    let mut without = empty(rt.alloc(), 1, 0)?;
    add(&mut without, rt.alloc(), &[])?;
    let third = ask(&mut without, rt.alloc(), &[1], 0)?;
    assert_eq!(rt; core_size(&third)?, Some(0));
    Ok(())
}

#[test]
fn a_literal_and_its_negation_are_assumed(rt: HostRuntime) -> Result<(), Fail> {
    let mut growing = empty(rt.alloc(), 3, 0)?;
    add(&mut growing, rt.alloc(), &[1, 2, 3])?;
    let both = ask(&mut growing, rt.alloc(), &[3, 1, -1], 10)?;
    assert_eq!(rt; core_size(&both)?, Some(2));
    let one = ask(&mut growing, rt.alloc(), &[-1, -2], 10)?;
    assert_eq!(rt; core_size(&one)?, None);
    Ok(())
}
