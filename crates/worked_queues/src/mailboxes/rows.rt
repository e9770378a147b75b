//! Mailboxes with little room, worked out by hand.
ghost use Rattle.std.specs.Prelude.{◌≡◌};
ghost use Rattle.mailbox.specs.Mouths.{places};
ghost use Rattle.mailbox.specs.Openings.{addresses};

use super::{close_and_take, close_in_vain, close_port};
use mailbox::{ClosedPorts, Full, Mouth, OpenFault, Ports, Settled, Taken, open, settle};
use std::process::Abort;
use std::sync::Wait;
use std::test::Fail;

#[test]
fn no_room(rt: HostRuntime) -> Result<(), Fail> {
    assert!(rt; open::<u32>(rt.alloc(), 0).err() == Some(OpenFault::NoCapacity));
    Ok(())
}

// The mailbox has room for one entry.
pub(super) fn take_each_before_the_next<R: Abort + Wait>(
    rt: &R,
    ports: Ports<u32>,
    mouth: Mouth<u32>,
)
    requires { addresses ports ≡ places mouth }
{
    let mut mouth = mouth;
    let Ports {
        mut p0,
        p1,
        p2,
        p3,
        p4,
    } = ports;
    assert!(rt; p0.post(rt, 7) == Ok(()));
    assert!(rt; p0.post(rt, 8) == Err(Full(8)));
    let p0 = close_in_vain(rt, p0);
    assert!(rt; mouth.next(rt) == Taken::Item { from: 0, item: 7 });
    assert!(rt; mouth.next(rt) == Taken::Empty);
    let p0 = close_and_take(rt, &mut mouth, p0, 0);
    let p1 = close_and_take(rt, &mut mouth, p1, 1);
    let p2 = close_and_take(rt, &mut mouth, p2, 2);
    let p3 = close_and_take(rt, &mut mouth, p3, 3);
    assert!(rt; !mouth.all_ended());
    let p4 = close_and_take(rt, &mut mouth, p4, 4);
    assert!(rt; mouth.all_ended());
    assert!(rt; mouth.next(rt) == Taken::Empty);
    let settled = settle(rt, ClosedPorts { p0, p1, p2, p3, p4 }, mouth);
    assert!(rt; settled == Settled { left: [0; 5] });
}

#[test]
fn room_for_one(rt: HostRuntime) -> Result<(), Fail> {
    let (ports, mouth) = open::<u32>(rt.alloc(), 1)?;
    take_each_before_the_next(&rt, ports, mouth);
    Ok(())
}

#[test]
fn room_is_shared(rt: HostRuntime) -> Result<(), Fail> {
    let (ports, mut mouth) = open::<u32>(rt.alloc(), 2)?;
    let Ports {
        mut p0,
        mut p1,
        mut p2,
        p3: _,
        p4: _,
    } = ports;
    assert!(rt; p0.post(&rt, 1) == Ok(()));
    assert!(rt; p1.post(&rt, 2) == Ok(()));
    assert!(rt; p2.post(&rt, 3) == Err(Full(3)));
    assert!(rt; mouth.next(&rt) == Taken::Item { from: 0, item: 1 });
    assert!(rt; p2.post(&rt, 3) == Ok(()));
    let _p0 = close_in_vain(&rt, p0);
    assert!(rt; mouth.next(&rt) == Taken::Item { from: 1, item: 2 });
    assert!(rt; mouth.next(&rt) == Taken::Item { from: 2, item: 3 });
    assert!(rt; mouth.next(&rt) == Taken::Empty);
    Ok(())
}

#[test]
fn port_dropped_without_a_close(rt: HostRuntime) -> Result<(), Fail> {
    let (ports, mut mouth) = open::<u32>(rt.alloc(), 1)?;
    let Ports { p0, p1, p2, p3, p4 } = ports;
    let mut p0 = p0;
    assert!(rt; p0.post(&rt, 7) == Ok(()));
    drop(p0);
    assert!(rt; mouth.next(&rt) == Taken::Item { from: 0, item: 7 });
    assert!(rt; mouth.next(&rt) == Taken::Empty);
    assert!(rt; mouth.next(&rt) == Taken::Empty);
    close_and_take(&rt, &mut mouth, p1, 1);
    close_and_take(&rt, &mut mouth, p2, 2);
    close_and_take(&rt, &mut mouth, p3, 3);
    close_and_take(&rt, &mut mouth, p4, 4);
    assert!(rt; !mouth.all_ended());
    Ok(())
}

#[test]
fn end_mark_takes_the_room(rt: HostRuntime) -> Result<(), Fail> {
    let (ports, mut mouth) = open::<u32>(rt.alloc(), 1)?;
    let Ports { mut p0, p1, .. } = ports;
    assert!(rt; p0.post(&rt, 7) == Ok(()));
    let p1 = close_in_vain(&rt, p1);
    assert!(rt; mouth.next(&rt) == Taken::Item { from: 0, item: 7 });
    let _p1 = close_port(&rt, p1);
    assert!(rt; p0.post(&rt, 8) == Err(Full(8)));
    assert!(rt; mouth.next(&rt) == Taken::End { from: 1 });
    assert!(rt; p0.post(&rt, 8) == Ok(()));
    Ok(())
}

// The mailbox has room for seven entries: two items and five end marks.
pub(super) fn leave_an_item<R: Abort + Wait>(rt: &R, ports: Ports<u32>, mouth: Mouth<u32>)
    requires { addresses ports ≡ places mouth }
{
    let mut mouth = mouth;
    let Ports {
        mut p0,
        p1,
        p2,
        p3,
        p4,
    } = ports;
    assert!(rt; p0.post(rt, 1) == Ok(()));
    assert!(rt; p0.post(rt, 2) == Ok(()));
    let p0 = close_port(rt, p0);
    let p1 = close_port(rt, p1);
    let p2 = close_port(rt, p2);
    let p3 = close_port(rt, p3);
    let p4 = close_port(rt, p4);
    assert!(rt; mouth.next(rt) == Taken::Item { from: 0, item: 1 });
    let settled = settle(rt, ClosedPorts { p0, p1, p2, p3, p4 }, mouth);
    assert!(rt;
        settled
            == Settled {
                left: [1, 0, 0, 0, 0]
            }
    );
}

#[test]
fn end_marks_are_not_left(rt: HostRuntime) -> Result<(), Fail> {
    let (ports, mouth) = open::<u32>(rt.alloc(), 7)?;
    leave_an_item(&rt, ports, mouth);
    Ok(())
}

#[test]
fn most_room(rt: HostRuntime) -> Result<(), Fail> {
    let (ports, mut mouth) = open::<u32>(rt.alloc(), u16::MAX)?;
    let Ports { mut p4, .. } = ports;
    for item in 0..65535 {
        assert!(rt; p4.post(&rt, item) == Ok(()));
    }
    assert!(rt; p4.post(&rt, 65535) == Err(Full(65535)));
    for item in 0..65535 {
        assert!(rt; mouth.next(&rt) == Taken::Item { from: 4, item });
    }
    assert!(rt; mouth.next(&rt) == Taken::Empty);
    Ok(())
}
