// What no clause says: that the calls succeed with ample memory.
use cdcl_trail::{Trail, number_of, opposite, signed};
use std::test::Fail;

#[test]
fn levels_come_and_go(rt: HostRuntime) -> Result<(), Fail> {
    let mut trail = Trail::new(rt.alloc(), 3)?;
    trail.push(2, 7);
    assert!(rt; !trail.is_true(1) && !trail.is_true(0));
    trail.decide(1);
    assert_eq!(rt; trail.literals(), [2, 1].as_slice());
    assert_eq!(rt; trail.reasons(), [7, 0].as_slice());
    assert_eq!(rt; trail.limits(), [1].as_slice());
    assert_eq!(rt; trail.places().len(), 3);
    assert!(rt; trail.limits().len() > 0);
    trail.undo_to(0);
    assert!(rt; trail.is_true(2) && !trail.is_true(1));
    Ok(())
}

#[test]
fn numbers_are_signed(rt: HostRuntime) {
    assert_eq!(rt; (signed(4), signed(5)), (3, -3));
    assert_eq!(rt; (number_of(3), number_of(-3)), (4, 5));
    assert_eq!(rt; (opposite(4), opposite(5)), (5, 4));
}
