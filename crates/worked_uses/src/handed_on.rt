//! Frames of inputs that are read from bytes, taken by another thread.
use docsis_wire::NoCheck;
use flow_core::FlowRecord;
use std::alloc::{AllocError, Global};
use std::io::Cursor;
use std::sync::Wait;
use std::test::Fail;
use std::thread::Threads;
use uplink::{Foreknown, ListDecisions, LossRule, Setup, SidRow, Sources, Width};
use uses::byte_source::{ByteSource, EndOfSource};
use uses::handed_on::take_elsewhere;

/// How many segments come, each with a frame.
const SEGMENTS: u8 = 200;

/// A segment that holds a frame of seven bytes, which ends with its number.
fn segment(number: u8) -> [u8; 15] {
    let [high, low] = (u16::from(number) << 3).to_be_bytes();
    [
        0x80, 0, high, low, 0, 0, 0, 0, 0, 0, 0, 1, 0x11, 0x11, number,
    ]
}

/// The segments as a source reads them, each behind a grant of its size.
fn forms(alloc: Global) -> Result<Vec<u8>, AllocError> {
    let mut bytes = Vec::new(alloc);
    for number in 0..SEGMENTS {
        bytes.extend_from_slice(&[0, 0, 0, 0, 0, number, 0, 1, 0, 0, 0, 15])?;
        bytes.extend_from_slice(&[0, 1, 0, 0, 0, number, 1, 0, 0, 0, 15])?;
        bytes.extend_from_slice(&segment(number))?;
    }
    Ok(bytes)
}

fn setup(alloc: Global) -> Result<Setup, AllocError> {
    let flow_record = FlowRecord {
        sfid: 1,
        first: 0,
        window: 16,
        clusters: 2,
        ring: 1,
    };
    let row = SidRow {
        channel: 0,
        sid: 1,
        flow: 0,
    };
    Ok(Setup {
        flows: Vec::from_slice(alloc, &[flow_record])?,
        sids: Vec::from_slice(alloc, &[row])?,
        mailbox: 1,
    })
}

type Bytewise = ByteSource<Cursor<Vec<u8>>>;

fn source(alloc: Global, bytes: Vec<u8>) -> Result<(Bytewise, EndOfSource), AllocError> {
    ByteSource::new(alloc, Cursor::new(bytes))
}

/// Receives what is read on channel 0, and answers what the other thread took, with what says
/// how the source ended; or nothing where that failed.
fn receive_bytes<R>(
    alloc: Global,
    rt: R,
    capacity: u16,
) -> Result<Option<(Vec<Vec<u8>>, EndOfSource)>, AllocError>
where
    R: Threads + Wait + Copy + Send + 'static,
{
    let (s0, end) = source(alloc, forms(alloc)?)?;
    let (s1, _) = source(alloc, Vec::new(alloc))?;
    let (s2, _) = source(alloc, Vec::new(alloc))?;
    let (s3, _) = source(alloc, Vec::new(alloc))?;
    let frames = take_elsewhere(
        alloc,
        rt,
        Width::PROFILE,
        setup(alloc)?,
        LossRule::Decided,
        Sources { s0, s1, s2, s3 },
        Foreknown(ListDecisions::new(Vec::new(alloc))),
        NoCheck,
        0,
        capacity,
    );
    Ok(frames.ok().map(|frames| (frames, end)))
}

/// Whether these are all frames, in order.
fn are_all(frames: &[Vec<u8>]) -> bool {
    frames.len() == usize::from(SEGMENTS)
        && (0..SEGMENTS).zip(frames).all(|(number, frame)| frame.as_slice()
            == [0, 0, 0, 1, 0x11, 0x11, number].as_slice())
}

#[test]
fn frames_of_read_inputs_are_taken_elsewhere(rt: HostRuntime) -> Result<(), Fail> {
    for capacity in [1, 16] {
        let (frames, end) = receive_bytes(rt.alloc(), rt, capacity)?.ok_or("frames")?;
        assert!(rt; are_all(&frames));
        assert!(rt; end.get() == Some(Ok(())));
    }
    Ok(())
}

#[test]
fn ring_needs_room(rt: HostRuntime) -> Result<(), Fail> {
    assert!(rt; receive_bytes(rt.alloc(), rt, 0)?.is_none());
    Ok(())
}
