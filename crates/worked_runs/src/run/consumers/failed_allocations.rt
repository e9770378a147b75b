//! Tests to be run with the Nth request for memory or for a thread refused, and the one whose name
//! ends in `without_memory` with all later ones refused too. Each says `refused` when a call was.
use super::{
    Answer, ONE_REQUEST, TWO_FRAMES_COUNTED, collect, frames_collected, receive_on_channel_0,
};
use crate::run::held_up::{Calls, Counting};
use crate::run::receivers::no_inputs;
use crate::run::{TWO_FRAMES, numbered};
use std::alloc::{AllocError, Global};
use std::process::Abort;
use std::sync::Wait;
use std::test::Fail;
use std::thread::Threads;
use uplink::{Collected, Counts, ListSource, RunFault};
use worked_frames::refused::{expect_refused, say_refused, say_whether_refused};
use worked_traces::traces::*;

/// What both were given before.
const EARLIER: Counts = Counts {
    frames: 100,
    bytes: 100,
    requests: 100,
};

fn after(earlier: Counts, given: Counts) -> Counts {
    Counts {
        frames: earlier.frames.saturating_add(given.frames),
        bytes: earlier.bytes.saturating_add(given.bytes),
        requests: earlier.requests.saturating_add(given.requests),
    }
}

/// Receives two frames and a request. What comes back has counted them besides what it had, or, if
/// memory was refused, a part of them; and unless it says that the threads began, the source wasn't
/// asked for anything. They may begin and ask nothing: a worker may find no memory before.
fn try_to_count<R>(alloc: Global, rt: R) -> Result<(Counts, Counts), RunFault>
where
    R: Abort + Threads + Wait + Copy + Send + 'static,
{
    let calls = Calls::none(alloc)?;
    let list = ListSource::new(inputs_of(alloc, &TWO_FRAMES, 0)?);
    let source = Counting::new(list, &calls)?;
    let setup = numbered::narrow(alloc, 16)?;
    match receive_on_channel_0(alloc, rt, setup, source, EARLIER, EARLIER) {
        Ok(received) => Ok((received.consumer, received.scheduler)),
        Err(error) => {
            assert!(rt; error.began || calls.made() == 0);
            expect_part(&rt, error.consumer, TWO_FRAMES_COUNTED);
            expect_part(&rt, error.scheduler, ONE_REQUEST);
            Err(error.fault)
        }
    }
}

/// Ends the test if there are less than were counted before, or more than that with these.
fn expect_part(rt: &impl Abort, found: Counts, given: Counts) {
    let most = after(EARLIER, given);
    assert!(rt; EARLIER.frames <= found.frames);
    assert!(rt; found.frames <= most.frames);
    assert!(rt; EARLIER.bytes <= found.bytes);
    assert!(rt; found.bytes <= most.bytes);
    assert!(rt; EARLIER.requests <= found.requests);
    assert!(rt; found.requests <= most.requests);
}

#[test]
fn receive_refused(rt: HostRuntime) -> Result<(), Fail> {
    let counted = match try_to_count(rt.alloc(), rt) {
        Ok(counted) => counted,
        Err(fault) => {
            expect_refused(&rt, fault, RunFault::OutOfMemory)?;
            try_to_count(rt.alloc(), rt)?
        }
    };
    let wanted = (
        after(EARLIER, TWO_FRAMES_COUNTED),
        after(EARLIER, ONE_REQUEST),
    );
    assert!(rt; counted == wanted);
    Ok(())
}

/// How many segments come, each with a frame, a fourth of them on each channel.
const SEGMENTS: u16 = 16;

/// Receives the segments. If memory was refused, the consumer was given the first frames, and no
/// other: no flow was closed that still waits for what a channel didn't give. The consumer may be
/// refused memory itself.
fn try_to_collect<R>(alloc: Global, rt: R) -> Result<Option<usize>, RunFault>
where
    R: Abort + Threads + Wait + Copy + Send + 'static,
{
    match collect(alloc, rt, SEGMENTS)? {
        Ok(received) if !received.consumer.whole => Err(RunFault::OutOfMemory),
        Ok(received) => Ok(frames_collected(Ok(received))),
        Err(error) => {
            assert!(rt; are_first_collected(&error.consumer));
            Err(error.fault)
        }
    }
}

/// Whether the first frames were collected, if memory for what collects them wasn't refused itself.
fn are_first_collected(collected: &Collected) -> bool {
    let Some(frames) = collected.frames.first() else {
        return false;
    };
    !collected.whole || numbered::are_first(frames, SEGMENTS)
}

#[test]
fn receive_gives_the_first_frames_refused(rt: HostRuntime) -> Result<(), Fail> {
    let collected = match try_to_collect(rt.alloc(), rt) {
        Ok(collected) => collected,
        Err(fault) => {
            expect_refused(&rt, fault, RunFault::OutOfMemory)?;
            try_to_collect(rt.alloc(), rt)?
        }
    };
    assert!(rt; collected == Some(usize::from(SEGMENTS)));
    Ok(())
}

/// The answer where the mailboxes have no room. Only whether an identifier is given twice is looked
/// at before, which takes memory.
fn without_room<R>(alloc: Global, rt: R) -> Result<Answer<Counts, Counts>, AllocError>
where
    R: Threads + Wait + Copy + Send + 'static,
{
    let mut setup = numbered::narrow(alloc, 16)?;
    setup.mailbox = 0;
    let source = no_inputs(alloc);
    Ok(receive_on_channel_0(alloc, rt, setup, source, EARLIER, ONE_REQUEST))
}

/// The fault, and what both have counted.
fn fault_of(answer: Answer<Counts, Counts>) -> Option<(RunFault, Counts, Counts)> {
    let error = answer.err()?;
    Some((error.fault, error.consumer, error.scheduler))
}

#[test]
fn receive_without_room_without_memory(rt: HostRuntime) -> Result<(), Fail> {
    let Ok(answer) = without_room(rt.alloc(), rt) else {
        return say_refused(&rt);
    };
    let fault = fault_of(answer);
    let has_memory = Vec::<u8>::with_capacity(rt.alloc(), 1).is_ok();
    if has_memory || fault != Some((RunFault::OutOfMemory, EARLIER, ONE_REQUEST)) {
        let wanted = Some((RunFault::NoCapacity, EARLIER, ONE_REQUEST));
        assert!(rt; fault == wanted);
    }
    say_whether_refused(&rt, rt.alloc())
}
