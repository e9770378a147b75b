//! Tests to be run with the Nth request for memory refused. Each says `refused` when a call was.
use super::{LENGTHS, expect_listed, frame};
use consumer::FrameList;
use docsis_wire::Bytes;
use std::alloc::Global;
use std::process::Abort;
use std::test::Fail;
use worked_frames::refused::{say_refused, say_whether_refused};

/// Adds frames of these lengths, each once more where the first call was refused memory, after
/// which the list has the frames before it.
fn push_again(
    rt: &(impl Print + Abort),
    alloc: Global,
    frames: &mut FrameList,
) -> Result<(), Fail> {
    for (place, len) in (0..).zip(LENGTHS) {
        let before = frames.len();
        let added = match frame(alloc, place, len) {
            Ok(first) => frames.push(first),
            Err(error) => Err(error),
        };
        if added.is_err() {
            say_refused(rt)?;
            expect_listed(rt, frames, LENGTHS.get(..before).unwrap_or_default());
            frames.push(frame(alloc, place, len)?)?;
        }
    }
    Ok(())
}

#[test]
fn frames_stay_where_memory_fails(rt: HostRuntime) -> Result<(), Fail> {
    let mut frames = FrameList::new(rt.alloc());
    push_again(&rt, rt.alloc(), &mut frames)?;
    expect_listed(&rt, &frames, &LENGTHS);
    say_whether_refused(&rt, rt.alloc())
}

/// A frame, made once more where the first call was refused memory.
fn made_frame(rt: &impl Print, alloc: Global, place: u8, len: usize) -> Result<Bytes, Fail> {
    match frame(alloc, place, len) {
        Ok(made) => Ok(made),
        Err(_) => {
            say_refused(rt)?;
            Ok(frame(alloc, place, len)?)
        }
    }
}

#[test]
fn cleared_list_takes_as_many_frames_without_memory_of_its_own(
    rt: HostRuntime,
) -> Result<(), Fail> {
    let mut frames = FrameList::new(rt.alloc());
    push_again(&rt, rt.alloc(), &mut frames)?;
    for _ in 0..3 {
        frames.clear();
        for (place, len) in (0..).zip(LENGTHS) {
            let made = made_frame(&rt, rt.alloc(), place, len)?;
            // It asks for no memory, so none is refused here.
            assert!(rt; frames.push(made).is_ok());
        }
        expect_listed(&rt, &frames, &LENGTHS);
    }
    say_whether_refused(&rt, rt.alloc())
}
