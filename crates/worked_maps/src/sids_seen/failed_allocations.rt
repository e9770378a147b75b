//! Each allocation is refused once: what was seen is counted anew, and a second call puts its text.
use super::{TEXT, text_of, two_flows};
use std::test::Fail;

#[test]
fn what_was_seen_is_counted(rt: HostRuntime) -> Result<(), Fail> {
    let seen = match two_flows(rt.alloc()) {
        Ok(seen) => seen,
        Err(_) => two_flows(rt.alloc())?,
    };
    let text = match text_of(rt.alloc(), &seen) {
        Ok(text) => text,
        Err(_) => text_of(rt.alloc(), &seen)?,
    };
    assert!(rt; text.as_slice() == TEXT);
    Ok(())
}
