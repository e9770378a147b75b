//! Tests to be run with the Nth request for memory refused, and the one whose name ends in
//! `without_memory` with all later ones refused too. Each says `refused` when one was.
use super::{
    abandon_the_second, close_three_times, settle_before_the_second_is_taken,
    take_both_from_one_place, two_offered,
};
use delivery::{Feeder, Refused, Took, ring, settle};
use std::alloc::Global;
use std::process::Abort;
use std::test::Fail;
use worked_frames::refused::{say_refused, say_whether_refused};

#[test]
fn ring_refused(rt: HostRuntime) -> Result<(), Fail> {
    let (feeder, mut taker) = match ring(rt.alloc(), 16) {
        Ok(ends) => ends,
        Err(_) => {
            say_refused(&rt)?;
            ring(rt.alloc(), 16)?
        }
    };
    let Ok(_closed) = feeder.close() else {
        panic!(&rt; "the feeder came back");
    };
    assert!(rt; taker.take() == Took::Closed);
    Ok(())
}

/// A frame of two bytes, made once more where the memory for it was refused.
fn frame(rt: &impl Print, alloc: Global, number: u8) -> Result<Vec<u8>, Fail> {
    if let Ok(frame) = [number, 7].to_vec(alloc) {
        return Ok(frame);
    }
    say_refused(rt)?;
    Ok([number, 7].to_vec(alloc)?)
}

/// Offers a frame, and once more the one that came back where the backlog could not grow. In
/// between as many frames wait as before, none of which the ring has room for.
fn offer_again(
    rt: &(impl Print + Abort),
    feeder: &mut Feeder,
    frame: Vec<u8>,
    waiting: usize,
) -> Result<bool, Fail> {
    let number = frame.as_slice().first().copied();
    let Err(Refused(back)) = feeder.offer(frame) else {
        return Ok(true);
    };
    say_refused(rt)?;
    assert!(rt; back.len() == 2);
    assert!(rt; back.as_slice().first().copied() == number);
    assert!(rt; feeder.flush() == waiting);
    Ok(feeder.offer(back).is_ok())
}

/// The backlog grows several times. The first frame is in the ring, which has room for one.
#[test]
fn offer_refused(rt: HostRuntime) -> Result<(), Fail> {
    let (mut feeder, mut taker) = match ring(rt.alloc(), 1) {
        Ok(ends) => ends,
        Err(_) => {
            say_refused(&rt)?;
            ring(rt.alloc(), 1)?
        }
    };
    for number in 0_u8..40 {
        let frame = frame(&rt, rt.alloc(), number)?;
        let waiting = usize::from(number.saturating_sub(1));
        assert!(rt; offer_again(&rt, &mut feeder, frame, waiting)?);
    }
    for number in 0_u8..40 {
        let Took::Frame(frame) = taker.take() else {
            panic!(&rt; "no frame was taken");
        };
        assert!(rt; frame.as_slice() == [number, 7].as_slice());
        assert!(rt; feeder.flush() == usize::from(38_u8.saturating_sub(number)));
    }
    let Ok(_closed) = feeder.close() else {
        panic!(&rt; "the feeder came back");
    };
    assert!(rt; taker.take() == Took::Closed);
    Ok(())
}

/// Only the ring, the two frames and the backlog take memory.
#[test]
fn whole_run_refused(rt: HostRuntime) -> Result<(), Fail> {
    let (mut feeder, mut taker) = match ring(rt.alloc(), 1) {
        Ok(ends) => ends,
        Err(_) => {
            say_refused(&rt)?;
            ring(rt.alloc(), 1)?
        }
    };
    let first = frame(&rt, rt.alloc(), 1)?;
    let second = frame(&rt, rt.alloc(), 2)?;
    assert!(rt; feeder.offer(first).is_ok());
    if let Err(Refused(second)) = feeder.offer(second) {
        say_refused(&rt)?;
        assert!(rt; feeder.offer(second).is_ok());
    }
    let Err(feeder) = feeder.close() else {
        panic!(&rt; "the feeder closed");
    };
    assert!(rt; matches!(taker.take(), Took::Frame(_)));
    let mut feeder = feeder;
    assert!(rt; feeder.flush() == 0);
    assert!(rt; matches!(taker.take(), Took::Frame(_)));
    let Ok(mut closed) = feeder.close() else {
        panic!(&rt; "the feeder came back");
    };
    assert!(rt; taker.take() == Took::Closed);
    assert!(rt; settle(&mut closed, &mut taker) == 0);
    Ok(())
}

/// In the end it asks for memory itself, so that a run is known in which nothing else did.
#[test]
fn calls_after_offer_without_memory(rt: HostRuntime) -> Result<(), Fail> {
    let first = two_offered(rt.alloc(), 1);
    let second = two_offered(rt.alloc(), 1);
    let third = two_offered(rt.alloc(), 1);
    let wide = two_offered(rt.alloc(), 3);
    let (Ok(first), Ok(second), Ok(third), Ok(wide)) = (first, second, third, wide) else {
        return say_refused(&rt);
    };
    take_both_from_one_place(&rt, first.0, first.1);
    abandon_the_second(&rt, second.0, second.1);
    close_three_times(&rt, third.0, third.1);
    settle_before_the_second_is_taken(&rt, wide.0, wide.1);
    say_whether_refused(&rt, rt.alloc())
}
