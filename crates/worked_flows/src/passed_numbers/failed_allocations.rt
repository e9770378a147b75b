//! Tests to be run with the Nth request for memory refused, and the one whose name ends in
//! `without_memory` with all later ones refused too. Each says `refused` when a call was.
use loss_rule::{LastNumbers, slid_to};
use std::alloc::{AllocError, Global};
use std::process::Abort;
use std::test::Fail;
use worked_frames::refused::{say_refused, say_whether_refused};

/// The flow has a service identifier on the first and the last channel.
fn three_channels(alloc: Global) -> Result<LastNumbers, AllocError> {
    LastNumbers::new(alloc, &[true, false, true], 0)
}

/// Numbers come on both, and one of them is dropped.
fn expect_passed(rt: &impl Abort, lasts: &mut LastNumbers) {
    lasts.note(0, 5);
    assert!(rt; lasts.passed_by_all() == None);
    lasts.note(2, 9);
    assert!(rt; lasts.passed_by_all() == Some(5));
    lasts.come_to(6);
    assert!(rt; lasts.passed_by_all() == None);
    assert!(rt; slid_to(6, 4, 10) == Some(7));
}

#[test]
fn new_refused(rt: HostRuntime) -> Result<(), Fail> {
    let mut lasts = match three_channels(rt.alloc()) {
        Ok(lasts) => lasts,
        Err(_) => {
            say_refused(&rt)?;
            three_channels(rt.alloc())?
        }
    };
    expect_passed(&rt, &mut lasts);
    Ok(())
}

/// In the end it asks for memory itself, so that a run is known in which nothing else did.
#[test]
fn numbers_without_memory(rt: HostRuntime) -> Result<(), Fail> {
    let Ok(mut lasts) = three_channels(rt.alloc()) else {
        return say_refused(&rt);
    };
    expect_passed(&rt, &mut lasts);
    say_whether_refused(&rt, rt.alloc())
}
