//! How long segments are held.
use capture_rules::{HeldTime, HeldTimes};
use std::test::Fail;

/// Something is held for so many nanoseconds at most.
const WAIT: u64 = 20;

#[test]
fn a_flow_skips_to_the_last_old_one(rt: HostRuntime) -> Result<(), Fail> {
    let mut held = HeldTimes::new(rt.alloc(), WAIT);
    assert!(rt; held.is_empty());
    assert!(rt; held.skip_to(u64::MAX, 0).is_none());
    for (number, time) in [(2, 10), (8191, 9), (5, 11), (3, 10)] {
        held.keep(HeldTime { number, time })?;
    }
    assert!(rt; held.skip_to(29, 8190).is_none());
    assert!(rt; held.skip_to(30, 8190) == Some(8191));
    assert!(rt; held.skip_to(31, 8190) == Some(3));
    assert!(rt; held.skip_to(32, 8190) == Some(5));
    held.pass(4);
    assert!(rt; held.skip_to(31, 4).is_none());
    assert!(rt; held.skip_to(32, 4) == Some(5));
    held.pass(6);
    assert!(rt; held.is_empty());
    Ok(())
}

#[test]
fn what_lies_behind_is_dropped(rt: HostRuntime) -> Result<(), Fail> {
    let mut held = HeldTimes::new(rt.alloc(), WAIT);
    held.keep(HeldTime { number: 7, time: 0 })?;
    held.pass(7);
    assert!(rt; held.skip_to(100, 7) == Some(7));
    held.pass(8);
    // It would lie ahead again.
    assert!(rt; held.skip_to(100, 7000).is_none());
    held.keep(HeldTime { number: 7, time: 0 })?;
    held.clear();
    assert!(rt; held.is_empty());
    Ok(())
}
