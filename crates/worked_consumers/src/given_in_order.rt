//! Frames and requests that were given to each consumer.
mod failed_allocations;

use consumer::{Collected, Consumer, Counts, Forgets, give_frames, give_request};
use docsis_wire::Bytes;
use lane::Request;
use std::alloc::{AllocError, Global};
use std::process::Abort;
use std::test::Fail;

/// A request on a channel for so many units.
fn request(channel: u8, units: u16) -> Request {
    Request {
        channel,
        flow: 0,
        cluster: 0,
        units,
        sequence: 0,
    }
}

/// A frame with these bytes.
fn frame(alloc: Global, bytes: &[u8]) -> Result<Bytes, AllocError> {
    Ok(Bytes::from(Vec::from_slice(alloc, bytes)?))
}

/// Gives two frames to flow 1, a request on channel 2, a frame to flow 0, no request, a frame
/// without bytes to flow 1, and a request on channel 0.
fn give_some<O: Consumer>(alloc: Global, out: &mut O) -> Result<(), AllocError> {
    let first = vec![in alloc; frame(alloc, &[1, 2, 3])?, frame(alloc, &[4])?]?;
    let last = frame(alloc, &[])?;
    give_frames(out, 1, first);
    give_request(out, Some(request(2, 7)));
    out.frame(0, frame(alloc, &[5, 6])?);
    give_request(out, None);
    out.frame(1, last);
    out.request(request(0, 9));
    Ok(())
}

/// Compares the frames of a flow.
fn expect_frames(rt: &impl Abort, collected: &Collected, flow: usize, expected: &[&[u8]]) {
    let Some(frames) = collected.frames.get(flow) else {
        assert!(rt; expected.len() == 0);
        return;
    };
    assert!(rt; frames.len() == expected.len());
    for (index, bytes) in expected.iter().enumerate() {
        assert!(rt; frames.get(index) == Some(*bytes));
    }
}

/// Compares the requests of a channel.
fn expect_requests(rt: &impl Abort, collected: &Collected, channel: usize, expected: &[Request]) {
    match collected.requests.get(channel) {
        Some(requests) => assert!(rt; requests.as_slice() == expected),
        None => assert!(rt; expected.len() == 0),
    }
}

#[test]
fn collects_by_flow_and_channel(rt: HostRuntime) -> Result<(), Fail> {
    let mut collected = Collected::new(rt.alloc(), 2, 3)?;
    give_some(rt.alloc(), &mut collected)?;
    assert!(rt; collected.whole);
    expect_frames(&rt, &collected, 0, &[&[5, 6]]);
    expect_frames(&rt, &collected, 1, &[&[1, 2, 3], &[4], &[]]);
    expect_requests(&rt, &collected, 0, &[request(0, 9)]);
    expect_requests(&rt, &collected, 1, &[]);
    expect_requests(&rt, &collected, 2, &[request(2, 7)]);
    Ok(())
}

#[test]
fn says_that_a_frame_was_left_out(rt: HostRuntime) -> Result<(), Fail> {
    let mut collected = Collected::new(rt.alloc(), 1, 3)?;
    give_some(rt.alloc(), &mut collected)?;
    assert!(rt; !collected.whole);
    expect_frames(&rt, &collected, 0, &[&[5, 6]]);
    expect_requests(&rt, &collected, 2, &[request(2, 7)]);
    Ok(())
}

#[test]
fn says_that_a_request_was_left_out(rt: HostRuntime) -> Result<(), Fail> {
    let mut collected = Collected::new(rt.alloc(), 2, 2)?;
    give_some(rt.alloc(), &mut collected)?;
    assert!(rt; !collected.whole);
    expect_requests(&rt, &collected, 0, &[request(0, 9)]);
    expect_frames(&rt, &collected, 1, &[&[1, 2, 3], &[4], &[]]);
    Ok(())
}

#[test]
fn counts_frames_bytes_and_requests(rt: HostRuntime) -> Result<(), Fail> {
    let mut counts = Counts::default();
    give_some(rt.alloc(), &mut counts)?;
    let expected = Counts {
        frames: 4,
        bytes: 6,
        requests: 2,
    };
    assert!(rt; counts == expected);
    Ok(())
}

#[test]
fn counts_stay_at_their_greatest_value(rt: HostRuntime) -> Result<(), Fail> {
    let mut counts = Counts {
        frames: u64::MAX - 1,
        bytes: u64::MAX - 5,
        requests: u64::MAX,
    };
    give_some(rt.alloc(), &mut counts)?;
    let expected = Counts {
        frames: u64::MAX,
        bytes: u64::MAX,
        requests: u64::MAX,
    };
    assert!(rt; counts == expected);
    Ok(())
}

#[test]
fn forgets(rt: HostRuntime) -> Result<(), Fail> {
    let mut nothing = Forgets;
    give_some(rt.alloc(), &mut nothing)?;
    assert!(rt; nothing == Forgets);
    Ok(())
}
