use blocked_table::Blocked;
use std::test::Fail;

#[test]
fn keeps_nothing_at_first(rt: HostRuntime) -> Result<(), Fail> {
    let mut blocked = Blocked::make(rt.alloc(), 4, 2)?;
    assert_eq!(rt; blocked.holder(3), None);
    assert_eq!(rt; blocked.holder(4), None);
    assert!(rt; !blocked.has_ready());
    assert!(rt; blocked.take_ready().is_none());
    blocked.wake(&[0, 3, 9]);
    assert!(rt; !blocked.has_ready());
    Ok(())
}
