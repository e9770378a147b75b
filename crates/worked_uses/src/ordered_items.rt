//! Items that are offered in any order.
use std::test::Fail;
use uses::window::in_order;

#[test]
fn puts_items_in_order(rt: HostRuntime) -> Result<(), Fail> {
    let offers = vec![in rt.alloc(); (0, 'c'), (3, 'f'), (8191, 'b'), (0, 'x'), (8190, 'a')]?;
    let items = in_order(rt.alloc(), 8190, 16, offers)?;
    assert!(rt; items.as_slice() == ['a', 'b', 'c'].as_slice());
    Ok(())
}

#[test]
fn none_without_the_first(rt: HostRuntime) -> Result<(), Fail> {
    let offers = vec![in rt.alloc(); (1, 1_u32), (2, 2), (4096, 3)]?;
    let items = in_order(rt.alloc(), 0, 2, offers)?;
    assert!(rt; items.is_empty());
    Ok(())
}
