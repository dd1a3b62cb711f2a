// What no clause says: that the calls succeed with ample memory.
use cdcl_propagation::Propagator;
use psl_base::NoMemory;
use std::alloc::Global;
use std::test::Fail;

// Whether two clauses at work give no conflict; how many words they have; and whether the first is as it came.
fn two_clauses(alloc: Global) -> Result<(bool, u32, bool), NoMemory> {
    let mut propagator = Propagator::new(alloc, 3)?;
    propagator.attach(&[0, 2], 0, 2)?;
    propagator.attach(&[3, 4, 1], 3, 4)?;
    let conflict = propagator.propagate()?;
    Ok((
        conflict.is_none(),
        propagator.clauses().words(),
        propagator.clause(1) == Some([0, 2].as_slice()),
    ))
}

#[test]
fn clauses_make_literals_true(rt: HostRuntime) -> Result<(), Fail> {
    assert_eq!(rt; two_clauses(rt.alloc())?, (true, 5, true));
    Ok(())
}

// Whether a clause of one literal gives no conflict, makes the literal true, and is its reason.
fn one_literal(alloc: Global) -> Result<(bool, bool, bool), NoMemory> {
    let mut propagator = Propagator::new(alloc, 2)?;
    propagator.attach_unit(&[1, 1], 1)?;
    let conflict = propagator.propagate()?;
    Ok((
        conflict.is_none(),
        propagator.trail().literals() == [1].as_slice(),
        propagator.trail().reasons() == [1].as_slice(),
    ))
}

#[test]
fn a_clause_of_one_literal_makes_it_true(rt: HostRuntime) -> Result<(), Fail> {
    assert_eq!(rt; one_literal(rt.alloc())?, (true, true, true));
    Ok(())
}

// Whether a learned clause gives no conflict, and makes its first literal true behind a decision.
fn learned(alloc: Global) -> Result<(bool, bool), NoMemory> {
    let mut propagator = Propagator::new(alloc, 2)?;
    propagator.decide(1);
    propagator.learn(&[2, 0], 2, 0)?;
    let conflict = propagator.propagate()?;
    Ok((
        conflict.is_none(),
        propagator.trail().literals() == [1, 2].as_slice(),
    ))
}

#[test]
fn a_learned_clause_makes_its_first_literal_true(rt: HostRuntime) -> Result<(), Fail> {
    assert_eq!(rt; learned(rt.alloc())?, (true, true));
    Ok(())
}
