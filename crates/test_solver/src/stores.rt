// What no clause says: that calls succeed with ample memory.
use clause_store::{NoMemory, Store};
use std::alloc::Global;
use std::test::Fail;

// Three clauses, of which the second is empty.
fn three_clauses(alloc: Global) -> Result<Store, NoMemory> {
    let mut store = Store::new(alloc);
    store.push(&[1, 2, 3])?;
    store.push(&[])?;
    store.push(&[4])?;
    Ok(store)
}

#[test]
fn clauses_come_and_go(rt: HostRuntime) -> Result<(), Fail> {
    let store = three_clauses(rt.alloc())?;
    assert_eq!(rt; (store.len(), store.live(), store.words()), (3, 3, 4));
    assert!(rt; store.get(0) == Some([1, 2, 3].as_slice()));
    assert!(rt; store.get(1) == Some([].as_slice()));
    assert!(rt; store.get(3).is_none());
    Ok(())
}
