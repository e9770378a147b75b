//! Tests to be run with the Nth request for memory refused, and the one whose name ends in
//! `without_memory` with all later ones refused too. Each says `refused` when one was.
use super::rows::{leave_an_item, take_each_before_the_next};
use mailbox::{Full, OpenFault, Taken, open};
use std::test::Fail;
use worked_frames::refused::{expect_refused, say_refused, say_whether_refused};

#[test]
fn open_refused(rt: HostRuntime) -> Result<(), Fail> {
    let first = open::<u32>(rt.alloc(), 1);
    let opened = if first.is_err() {
        expect_refused(&rt, first.err(), Some(OpenFault::OutOfMemory))?;
        open(rt.alloc(), 1)
    } else {
        first
    };
    let (mut ports, mut mouth) = opened?;
    assert!(rt; ports.p0.post(&rt, 7) == Ok(()));
    assert!(rt; ports.p0.post(&rt, 8) == Err(Full(8)));
    assert!(rt; mouth.next(&rt) == Taken::Item { from: 0, item: 7 });
    assert!(rt; mouth.next(&rt) == Taken::Empty);
    Ok(())
}

#[test]
fn no_room_refused(rt: HostRuntime) -> Result<(), Fail> {
    assert!(rt; open::<u32>(rt.alloc(), 0).err() == Some(OpenFault::NoCapacity));
    Ok(())
}

/// In the end it asks for memory itself, so that a run is known in which nothing else did.
#[test]
fn calls_after_open_without_memory(rt: HostRuntime) -> Result<(), Fail> {
    let narrow = open::<u32>(rt.alloc(), 1);
    let wide = open::<u32>(rt.alloc(), 7);
    let (Ok(narrow), Ok(wide)) = (narrow, wide) else {
        return say_refused(&rt);
    };
    take_each_before_the_next(&rt, narrow.0, narrow.1);
    leave_an_item(&rt, wide.0, wide.1);
    say_whether_refused(&rt, rt.alloc())
}
