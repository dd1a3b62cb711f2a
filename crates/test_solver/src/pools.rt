// What no clause says: that calls succeed with ample memory, and that lists are read as they were put.
use std::test::Fail;
use word_pool::{NoMemory, Pool};

// Lists of several lengths, some of them empty, are put, given back, moved together and put again.
#[test]
fn lists_survive_compaction(rt: HostRuntime) -> Result<(), Fail> {
    let mut pool = Pool::new(rt.alloc());
    let first = pool.put(&[7, 8, 9])?;
    let empty = pool.put(&[])?;
    let second = pool.put(&[1])?;
    let third = pool.put(&[0, 1, 2, 3])?;
    pool.give_back(first);
    assert!(rt; !pool.is_live(first));
    assert!(rt; pool.is_live(second));
    assert_eq!(rt;
        (pool.used_words(), pool.free_words(), pool.live_ids()),
        (5, 3, 3)
    );

    pool.compact();
    assert_eq!(rt; pool.get(second), [1].as_slice());
    assert_eq!(rt; pool.get(third), [0, 1, 2, 3].as_slice());
    assert_eq!(rt; pool.get(empty), [].as_slice());

    let again = pool.put_reserved(&[4, 5, 6]);
    assert_eq!(rt;
        again,
        first,
        "the id that was given back is handed out again"
    );
    assert_eq!(rt; pool.get(again), [4, 5, 6].as_slice());
    assert_eq!(rt; pool.get(third), [0, 1, 2, 3].as_slice());
    assert_eq!(rt;
        (pool.used_words(), pool.free_words(), pool.live_ids()),
        (8, 0, 4)
    );
    Ok(())
}

// A list gets the words of one of its length that was given back, and else new ones.
#[test]
fn free_runs_are_used_again(rt: HostRuntime) -> Result<(), Fail> {
    let mut pool = Pool::new(rt.alloc());
    let first = pool.put(&[1, 2])?;
    pool.give_back(first);
    let one = pool.put(&[3])?;
    assert_eq!(rt; (pool.used_words(), pool.free_words()), (1, 2));
    let again = pool.put(&[4, 5])?;
    assert_eq!(rt; (pool.used_words(), pool.free_words()), (3, 0));
    assert_eq!(rt; pool.get(one), [3].as_slice());
    assert_eq!(rt; pool.get(again), [4, 5].as_slice());
    Ok(())
}

#[test]
fn reserved_room_is_there(rt: HostRuntime) -> Result<(), Fail> {
    let mut pool = Pool::new(rt.alloc());
    pool.reserve(4, 3)?;
    assert_eq!(rt;
        (pool.used_words(), pool.free_words(), pool.live_ids()),
        (0, 4, 0)
    );
    let list = pool.put_reserved(&[10, 11, 12]);
    let empty = pool.put_reserved(&[]);
    pool.give_back(empty);
    let last = pool.put_reserved(&[13]);
    assert_eq!(rt; pool.get(list), [10, 11, 12].as_slice());
    assert_eq!(rt; pool.get(last), [13].as_slice());
    assert_eq!(rt;
        (pool.used_words(), pool.free_words(), pool.live_ids()),
        (4, 0, 2)
    );
    Ok(())
}

#[test]
fn prints_a_refusal(rt: HostRuntime) -> Result<(), Fail> {
    let text = format!(in rt.alloc(); "{NoMemory}")?;
    assert_eq!(rt; text.as_str(), "out of memory");
    Ok(())
}
