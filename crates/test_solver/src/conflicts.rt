// What no clause says: that the calls succeed with ample memory.
use cdcl_conflict::{Analyzer, Lemma, TrailView};
use clause_store::Store;
use std::test::Fail;

#[test]
fn a_literal_and_its_negation(rt: HostRuntime) -> Result<(), Fail> {
    let mut clauses = Store::new(rt.alloc());
    clauses.push(&[0])?;
    clauses.push(&[1])?;
    let trail = TrailView {
        literals: &[0],
        reasons: &[1],
        places: &[0],
        fixed: 1,
        start: 1,
    };
    let mut lemma = Lemma {
        literals: Vec::new(rt.alloc()),
        hints: Vec::new(rt.alloc()),
    };
    Analyzer::new(rt.alloc(), 1)?.analyze(2, &trail, &clauses, &mut lemma)?;
    assert_eq!(rt; lemma.literals.len(), 0);
    assert_eq!(rt; lemma.hints.as_slice(), [1, 2].as_slice());
    Ok(())
}
