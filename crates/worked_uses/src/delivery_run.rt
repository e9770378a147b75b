//! What no clause says: that a consumer's thread ends, at little and at ample room.
use delivery::OpenFault;
use std::alloc::{AllocError, Global};
use std::test::Fail;
use uses::delivery_run::deliver;

/// Frames of four bytes that spell the numbers below `count`.
fn numbers(alloc: Global, count: u32) -> Result<Vec<Vec<u8>>, AllocError> {
    let mut frames = Vec::new(alloc);
    for number in 0..count {
        let frame = number.to_be_bytes().to_vec(alloc)?;
        let Ok(()) = frames.push(frame) else {
            return Err(AllocError);
        };
    }
    Ok(frames)
}

#[test]
fn all_frames_are_delivered_in_order(rt: HostRuntime) -> Result<(), Fail> {
    for capacity in [1, 2, 16, 1024] {
        let frames = numbers(rt.alloc(), 20000)?;
        let delivered = deliver(rt, rt.alloc(), capacity, frames)?;
        assert!(rt; delivered.len() == 20000);
        for (frame, number) in delivered.iter().zip(0_u32..) {
            assert!(rt; frame.as_slice() == number.to_be_bytes().as_slice());
        }
    }
    Ok(())
}

#[test]
fn no_frames_and_no_capacity(rt: HostRuntime) -> Result<(), Fail> {
    let none = deliver(rt, rt.alloc(), 1, Vec::new(rt.alloc()))?;
    assert!(rt; none.is_empty());
    let fault = deliver(rt, rt.alloc(), 0, Vec::new(rt.alloc())).err();
    assert!(rt; fault == Some(OpenFault::NoCapacity));
    Ok(())
}
