//! Tests to be run with the Nth request for memory refused. Each says `refused` when a call was.
use super::{expect_frames, expect_requests, frame, request};
use consumer::{Collected, Consumer};
use docsis_wire::Bytes;
use std::alloc::Global;
use std::test::Fail;
use worked_frames::refused::{say_refused, say_whether_refused};

/// A consumer that keeps everything, made once more where the first call was refused memory.
fn collected_again(rt: &impl Print, alloc: Global) -> Result<Collected, Fail> {
    if let Ok(first) = Collected::new(alloc, 2, 2) {
        return Ok(first);
    }
    say_refused(rt)?;
    Ok(Collected::new(alloc, 2, 2)?)
}

/// A frame, made once more where the first call was refused memory.
fn frame_again(rt: &impl Print, alloc: Global, bytes: &[u8]) -> Result<Bytes, Fail> {
    if let Ok(first) = frame(alloc, bytes) {
        return Ok(first);
    }
    say_refused(rt)?;
    Ok(frame(alloc, bytes)?)
}

/// What can't be kept is left out and told; what is given after it is kept.
#[test]
fn tells_what_it_left_out(rt: HostRuntime) -> Result<(), Fail> {
    let alloc = rt.alloc();
    let mut collected = collected_again(&rt, alloc)?;
    let first = frame_again(&rt, alloc, &[1, 2])?;
    let second = frame_again(&rt, alloc, &[3])?;
    collected.frame(1, first);
    let first_kept = collected.whole;
    if !first_kept {
        say_refused(&rt)?;
        expect_frames(&rt, &collected, 1, &[]);
    }
    collected.whole = true;
    collected.request(request(1, 4));
    if !collected.whole {
        say_refused(&rt)?;
        expect_requests(&rt, &collected, 1, &[]);
        collected.request(request(1, 4));
        assert!(rt; !collected.whole);
    }
    expect_requests(&rt, &collected, 1, &[request(1, 4)]);
    collected.whole = true;
    collected.frame(1, second);
    if !collected.whole {
        say_refused(&rt)?;
    } else if first_kept {
        expect_frames(&rt, &collected, 1, &[&[1, 2], &[3]]);
    } else {
        expect_frames(&rt, &collected, 1, &[&[3]]);
    }
    say_whether_refused(&rt, alloc)
}
