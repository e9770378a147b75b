//! Tests to be run with the Nth request for memory refused, and then with all later ones refused
//! too. Each says `refused` when a call was.
use crate::frame_files::{FRAME, ORIGIN};
use frame_records::{FrameLink, put_file_header, put_frame};
use std::test::Fail;

/// A refused record leaves what was put before it, and can be put then.
#[test]
fn record_refused(rt: HostRuntime) -> Result<(), Fail> {
    let mut out = Vec::new(rt.alloc());
    if put_file_header(&mut out, FrameLink::Xra).is_err() {
        println!(rt; "refused")?;
        assert!(rt; out.is_empty());
        put_file_header(&mut out, FrameLink::Xra)?;
    }
    for count in 0..3_usize {
        if put_frame(rt.alloc(), &mut out, FrameLink::Xra, 5, &ORIGIN, &FRAME).is_err() {
            println!(rt; "refused")?;
            assert!(rt; out.len() == 24 + 54 * count);
            put_frame(rt.alloc(), &mut out, FrameLink::Xra, 5, &ORIGIN, &FRAME)?;
        }
    }
    assert!(rt; out.len() == 24 + 54 * 3);
    Ok(())
}
