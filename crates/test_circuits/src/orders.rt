// What no clause says: that an order and a cycle are found with ample memory.
use netlist_order::{Wiring, order_of};
use std::test::Fail;

// Table 0 reads two tables that both read table 3; signal 4 is an input.
#[test]
fn orders_a_diamond(rt: HostRuntime) -> Result<(), Fail> {
    let lists = [[1u32, 2].as_slice(), &[3], &[4, 3], &[]];
    let drivers = [Some(0u32), Some(1), Some(2), Some(3)];
    let order = order_of(rt.alloc(), &Wiring::new(&lists, &drivers))?
        .ok()
        .ok_or("a cycle")?;
    assert_eq!(rt; order.len(), 4);
    assert_eq!(rt; (order[0], order[3]), (3, 0));
    Ok(())
}

// Tables 1 and 2 are on a cycle that reads table 0, which reads another cycle, of tables 3 and 4.
#[test]
fn names_the_first_table_on_a_cycle(rt: HostRuntime) -> Result<(), Fail> {
    let lists = [[3u32].as_slice(), &[2], &[0, 1], &[4], &[3]];
    let drivers = [Some(0u32), Some(1), Some(2), Some(3), Some(4)];
    let first = order_of(rt.alloc(), &Wiring::new(&lists, &drivers))?
        .err()
        .ok_or("no cycle")?;
    assert_eq!(rt; first, 1);
    Ok(())
}
