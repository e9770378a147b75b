//! A test to be run with the Nth request for memory refused.
use super::{FRONT, KEPT, behind};
use crate::expect::{expect_bytes, expect_same};
use crate::refused::say_refused;
use std::test::Fail;

/// Where there is no memory for a copy the bytes stay in theirs, and the next call copies them.
#[test]
fn stays_in_its_room_until_copied(rt: HostRuntime) -> Result<(), Fail> {
    let Ok(bytes) = behind(rt.alloc(), FRONT, 4096) else {
        return say_refused(&rt);
    };
    let first = bytes.without_spare_room(rt.alloc());
    expect_bytes(&rt, "after the first call", first.as_slice(), KEPT);
    let second = first.without_spare_room(rt.alloc());
    expect_bytes(&rt, "after the second call", second.as_slice(), KEPT);
    expect_same(&rt, "its room", second.into_vec().capacity(), KEPT.len());
    Ok(())
}
