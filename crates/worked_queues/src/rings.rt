//! What no clause says: the answers that were worked out by hand, that calls succeed where there is
//! memory, and what a taker gives after its feeder was abandoned.
ghost use Rattle.std.specs.Prelude.{◌≡◌, IfOk};
ghost use Rattle.delivery.specs.Feeders.{feeder_ring, closed_ring};
ghost use Rattle.delivery.specs.Takers.{taker_ring};

mod failed_allocations;

use delivery::{ClosedFeeder, Feeder, OpenFault, Taker, Took, ring, settle};
use std::alloc::{AllocError, Global};
use std::process::Abort;
use std::test::Fail;
use worked_frames::samples::{EXTENDED, PLAIN};

fn offer(alloc: Global, feeder: &mut Feeder, frame: &[u8]) -> Result<(), AllocError>
    ensures { feeder_ring feeder.new ≡ feeder_ring feeder.old }
{
    let frame = frame.to_vec(alloc)?;
    feeder.offer(frame).map_err(|_| AllocError)
}

fn takes(rt: &impl Abort, taker: &mut Taker, frame: &[u8])
    ensures { taker_ring taker.new ≡ taker_ring taker.old }
{
    let Took::Frame(taken) = taker.take() else {
        panic!(rt; "no frame was taken");
    };
    assert!(rt; taken.as_slice() == frame);
}

fn close_feeder(rt: &impl Abort, feeder: Feeder) -> ClosedFeeder
    ensures { closed_ring result ≡ feeder_ring feeder }
{
    let Ok(closed) = feeder.close() else {
        panic!(rt; "the feeder came back");
    };
    closed
}

fn comes_back(rt: &impl Abort, feeder: Feeder) -> Feeder
    ensures { feeder_ring result ≡ feeder_ring feeder }
{
    let Err(back) = feeder.close() else {
        panic!(rt; "the feeder closed");
    };
    back
}

#[test]
fn no_ring_without_capacity(rt: HostRuntime) {
    let Err(fault) = ring(rt.alloc(), 0) else {
        panic!(&rt; "a ring without capacity");
    };
    assert!(rt; fault == OpenFault::NoCapacity);
}

/// The two frames, offered to a ring with room for `capacity`.
fn two_offered(alloc: Global, capacity: u16) -> Result<(Feeder, Taker), AllocError>
    ensures { IfOk result (λ ends. feeder_ring ends.0 ≡ taker_ring ends.1) }
{
    let Ok((mut feeder, taker)) = ring(alloc, capacity) else {
        return Err(AllocError);
    };
    offer(alloc, &mut feeder, PLAIN)?;
    offer(alloc, &mut feeder, EXTENDED)?;
    Ok((feeder, taker))
}

/// The ring has room for one of the two frames.
fn take_both_from_one_place(rt: &impl Abort, feeder: Feeder, taker: Taker)
    requires { feeder_ring feeder ≡ taker_ring taker }
{
    let mut feeder = feeder;
    let mut taker = taker;
    takes(rt, &mut taker, PLAIN);
    assert!(rt; taker.take() == Took::NothingYet);
    assert!(rt; feeder.flush() == 0);
    let feeder = comes_back(rt, feeder);
    takes(rt, &mut taker, EXTENDED);
    let mut feeder = close_feeder(rt, feeder);
    assert!(rt; settle(&mut feeder, &mut taker) == 0);
    assert!(rt; taker.take() == Took::Closed);
    assert!(rt; taker.take() == Took::Closed);
    assert!(rt; settle(&mut feeder, &mut taker) == 0);
}

#[test]
fn second_frame_waits_and_the_end_mark_after_it(rt: HostRuntime) -> Result<(), Fail> {
    let (feeder, taker) = two_offered(rt.alloc(), 1)?;
    take_both_from_one_place(&rt, feeder, taker);
    Ok(())
}

/// The ring has room for one of the two frames.
fn abandon_the_second(rt: &impl Abort, feeder: Feeder, taker: Taker) {
    let mut taker = taker;
    let backlog = feeder.abandon();
    assert!(rt; backlog.len() == 1);
    for frame in backlog {
        assert!(rt; frame.as_slice() == EXTENDED);
    }
    takes(rt, &mut taker, PLAIN);
    assert!(rt; taker.take() == Took::NothingYet);
    assert!(rt; taker.take() == Took::NothingYet);
}

#[test]
fn abandoned_feeder_gives_its_backlog(rt: HostRuntime) -> Result<(), Fail> {
    let (feeder, taker) = two_offered(rt.alloc(), 1)?;
    abandon_the_second(&rt, feeder, taker);
    Ok(())
}

/// The ring has room for one of the two frames.
fn close_three_times(rt: &impl Abort, feeder: Feeder, taker: Taker) {
    let mut taker = taker;
    let mut feeder = comes_back(rt, feeder);
    assert!(rt; feeder.flush() == 1);
    assert!(rt; feeder.has_backlog());
    takes(rt, &mut taker, PLAIN);
    assert!(rt; feeder.flush() == 0);
    assert!(rt; !feeder.has_backlog());
    let feeder = comes_back(rt, feeder);
    takes(rt, &mut taker, EXTENDED);
    close_feeder(rt, feeder);
    assert!(rt; taker.take() == Took::Closed);
}

#[test]
fn close_moves_the_backlog_as_far_as_it_goes(rt: HostRuntime) -> Result<(), Fail> {
    let (feeder, taker) = two_offered(rt.alloc(), 1)?;
    close_three_times(&rt, feeder, taker);
    Ok(())
}

/// The ring has room for both frames and the end mark.
fn settle_before_the_second_is_taken(rt: &impl Abort, feeder: Feeder, taker: Taker)
    requires { feeder_ring feeder ≡ taker_ring taker }
{
    let mut taker = taker;
    let mut feeder = close_feeder(rt, feeder);
    takes(rt, &mut taker, PLAIN);
    assert!(rt; settle(&mut feeder, &mut taker) == 1);
    takes(rt, &mut taker, EXTENDED);
    assert!(rt; settle(&mut feeder, &mut taker) == 0);
    assert!(rt; taker.take() == Took::Closed);
}

#[test]
fn frame_that_was_not_taken_is_left(rt: HostRuntime) -> Result<(), Fail> {
    let (feeder, taker) = two_offered(rt.alloc(), 3)?;
    settle_before_the_second_is_taken(&rt, feeder, taker);
    Ok(())
}

#[test]
fn ring_that_was_never_used(rt: HostRuntime) -> Result<(), Fail> {
    let (feeder, mut taker) = ring(rt.alloc(), 1)?;
    assert!(rt; feeder.abandon().is_empty());
    assert!(rt; taker.take() == Took::NothingYet);
    let (feeder, mut taker) = ring(rt.alloc(), 1)?;
    let mut feeder = close_feeder(&rt, feeder);
    assert!(rt; settle(&mut feeder, &mut taker) == 0);
    assert!(rt; taker.take() == Took::Closed);
    Ok(())
}

/// The greatest ring, with two frames more than it holds in the backlog, and frames of 0 and 65,541
/// bytes.
#[test]
fn greatest_ring_and_longest_frame(rt: HostRuntime) -> Result<(), Fail> {
    let longest = vec![in rt.alloc(); 7_u8; 65541]?;
    let (mut feeder, mut taker) = ring(rt.alloc(), 65535)?;
    offer(rt.alloc(), &mut feeder, &longest)?;
    for number in 1_u32..131071 {
        offer(rt.alloc(), &mut feeder, &number.to_be_bytes())?;
    }
    offer(rt.alloc(), &mut feeder, &[])?;
    assert!(rt; feeder.flush() == 65537);
    takes(&rt, &mut taker, &longest);
    for number in 1_u32..65535 {
        takes(&rt, &mut taker, &number.to_be_bytes());
    }
    assert!(rt; taker.take() == Took::NothingYet);
    assert!(rt; feeder.flush() == 2);
    for number in 65535_u32..131070 {
        takes(&rt, &mut taker, &number.to_be_bytes());
    }
    close_feeder(&rt, feeder);
    takes(&rt, &mut taker, &131070_u32.to_be_bytes());
    takes(&rt, &mut taker, &[]);
    assert!(rt; taker.take() == Took::Closed);
    Ok(())
}

/// A ring of two places that are full, and one frame more in the backlog.
fn full_ring(alloc: Global) -> Result<(Feeder, Taker), Fail> {
    let (mut feeder, taker) = ring(alloc, 2)?;
    offer(alloc, &mut feeder, PLAIN)?;
    offer(alloc, &mut feeder, EXTENDED)?;
    offer(alloc, &mut feeder, PLAIN)?;
    Ok((feeder, taker))
}

/// Whoever still holds a frame drops it. `scripts/frames-dropped-once` runs this test and the
/// others under a checker of memory, which finds a frame that is dropped twice or never.
#[test]
fn ends_dropped_with_frames_left(rt: HostRuntime) -> Result<(), Fail> {
    let (mut feeder, taker) = full_ring(rt.alloc())?;
    drop(taker);
    assert!(rt; feeder.flush() == 1);
    offer(rt.alloc(), &mut feeder, EXTENDED)?;
    drop(feeder);

    let (feeder, mut taker) = full_ring(rt.alloc())?;
    drop(feeder);
    takes(&rt, &mut taker, PLAIN);
    drop(taker);

    let (feeder, mut taker) = full_ring(rt.alloc())?;
    takes(&rt, &mut taker, PLAIN);
    drop(feeder.abandon());
    takes(&rt, &mut taker, EXTENDED);
    assert!(rt; taker.take() == Took::NothingYet);

    let (feeder, mut taker) = full_ring(rt.alloc())?;
    takes(&rt, &mut taker, PLAIN);
    let feeder = comes_back(&rt, feeder);
    takes(&rt, &mut taker, EXTENDED);
    drop(close_feeder(&rt, feeder));
    drop(taker);

    let (feeder, mut taker) = full_ring(rt.alloc())?;
    takes(&rt, &mut taker, PLAIN);
    takes(&rt, &mut taker, EXTENDED);
    let feeder = close_feeder(&rt, feeder);
    drop(taker);
    drop(feeder);
    Ok(())
}
