use sat_order::{Order, luby};
use std::process::Abort;
use std::test::Fail;

#[test]
fn a_new_order_is_empty(rt: HostRuntime) -> Result<(), Fail> {
    let mut order = Order::new(rt.alloc());
    assert_eq!(rt; order.take(), None);
    order.reserve(3)?;
    assert!(rt; order.reserved() == 3);
    assert_eq!(rt; order.take(), None);
    order.put(1);
    assert_eq!(rt; order.take(), Some(1));
    assert_eq!(rt; order.take(), None);
    Ok(())
}

#[test]
fn active_variables_come_first(rt: HostRuntime) -> Result<(), Fail> {
    let mut order = Order::new(rt.alloc());
    order.reserve(9)?;
    for var in 0..9 {
        assert!(rt; var < order.reserved());
        order.put(var);
    }
    assert!(rt; order.reserved() == 9);
    order.bump(7);
    order.decay();
    order.bump(4);
    assert_eq!(rt; order.take(), Some(4));
    assert_eq!(rt; order.take(), Some(7));
    Ok(())
}

#[test]
fn lengths_of_runs(rt: HostRuntime) {
    let wanted = [1u64, 1, 2, 1, 1, 2, 4, 1, 1, 2, 1, 1, 2, 4, 8];
    for i in 1..16u64 {
        assert!(rt; luby(i) == wanted[(i - 1) as usize]);
    }
}
