//! Taps that don't look.
mod failed_allocations;

use docsis_wire::Bytes;
use std::test::Fail;
use uplink::{NoTap, Request, Tap, Taps};

const REQUEST: Request = Request {
    channel: 3,
    flow: 63,
    cluster: 7,
    units: 65_535,
    sequence: 8191,
};

/// Shows one item to a tap.
fn show<T, X: Tap<T>>(tap: &mut X, item: &T) {
    tap.took(63, item);
}

#[test]
fn no_tap_looks_at_frames_and_at_requests(rt: HostRuntime) -> Result<(), Fail> {
    let mut taps = Taps {
        frames: NoTap,
        requests: NoTap,
    };
    show(&mut taps.frames, &Bytes::from(Vec::new(rt.alloc())));
    show(&mut taps.requests, &REQUEST);
    assert!(rt; taps.frames == NoTap);
    assert!(rt; taps.requests == NoTap);
    Ok(())
}
