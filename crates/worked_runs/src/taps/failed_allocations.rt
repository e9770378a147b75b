//! A test to be run with the Nth request for memory and all later ones refused. It says `refused`
//! when a call was.
use super::{REQUEST, show};
use docsis_wire::Bytes;
use std::test::Fail;
use uplink::NoTap;
use worked_frames::refused::{say_refused, say_whether_refused};

#[test]
fn no_tap_without_memory(rt: HostRuntime) -> Result<(), Fail> {
    let Ok(frame) = Vec::from_slice(rt.alloc(), &[0, 0, 0, 0, 0x11, 0x11]) else {
        return say_refused(&rt);
    };
    let mut tap = NoTap;
    show(&mut tap, &Bytes::from(frame));
    show(&mut tap, &REQUEST);
    assert!(rt; tap == NoTap);
    say_whether_refused(&rt, rt.alloc())
}
