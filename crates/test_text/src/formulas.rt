// What no clause says: that calls succeed with ample memory, and the places of faults in texts by hand.
use psl_base::Place;
use sat_dimacs::{DimacsFault, read_dimacs};
use std::alloc::Global;
use std::process::Abort;
use std::test::Fail;

// How many variables, clauses and words the formula of a text has.
fn sizes_of(alloc: Global, rt: &impl Abort, text: &[u8]) -> Result<(u32, usize, usize), Fail> {
    assert!(rt; text.len() < 1_000);
    let cnf = read_dimacs(alloc, text)?;
    Ok((cnf.variables, cnf.clauses.len(), cnf.clauses.words()))
}

#[test]
fn formulas_are_read(rt: HostRuntime) -> Result<(), Fail> {
    let text = b"c two clauses\np cnf 3 2\n1 -2\nc more\n 0 3\n0\n%\n0\n";
    assert_eq!(rt; sizes_of(rt.alloc(), &rt, text)?, (3, 2, 5));
    assert_eq!(rt; sizes_of(rt.alloc(), &rt, b"p cnf 0 1 0")?, (0, 1, 1));
    Ok(())
}

fn fault_of(alloc: Global, rt: &impl Abort, text: &[u8]) -> Option<DimacsFault> {
    assert!(rt; text.len() < 1_000);
    read_dimacs(alloc, text).err()
}

#[test]
fn faults_have_their_places(rt: HostRuntime) -> Result<(), Fail> {
    assert_eq!(rt;
        fault_of(rt.alloc(), &rt, b"c x\n 1 0\n"),
        Some(DimacsFault::NoHeader(Place { line: 2, column: 2 }))
    );
    assert_eq!(rt;
        fault_of(rt.alloc(), &rt, b"p cnf 2 1\n1 -3 0\n"),
        Some(DimacsFault::LiteralTooLarge(Place { line: 2, column: 3 }))
    );
    assert_eq!(rt;
        fault_of(rt.alloc(), &rt, b"p cnf 2 1\n1 -2"),
        Some(DimacsFault::OpenClause(Place { line: 2, column: 5 }))
    );
    Ok(())
}
