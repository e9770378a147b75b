//! Headers and whole segments, read and written.
mod failed_allocations;

use crate::expect::{expect_bytes, expect_same, expect_true};
use docsis_wire::{
    Bytes, Segment, SegmentFault, SegmentHeader, read_segment, ready, write_segment,
};
use std::alloc::{AllocError, Global};
use std::process::Abort;
use std::test::Fail;

struct Reading {
    name: &'static str,
    bytes: [u8; 8],
    head: SegmentHeader,
}

const READINGS: [Reading; 3] = [
    Reading {
        name: "nothing but the PFI and the check sequence",
        bytes: [0x80, 0, 0, 0, 0, 0, 0xab, 0xcd],
        head: SegmentHeader {
            pfi: true,
            reserved: false,
            pointer: 0,
            sequence: 0,
            cluster: 0,
            request: 0,
            hcs: 43_981,
        },
    },
    Reading {
        name: "each field at its greatest value",
        bytes: [0xbf, 0xff, 0xff, 0xff, 0xff, 0xff, 0, 0],
        head: SegmentHeader {
            pfi: true,
            reserved: false,
            pointer: 16_383,
            sequence: 8191,
            cluster: 7,
            request: 65_535,
            hcs: 0,
        },
    },
    Reading {
        name: "no header begins, and the reserved bit is set",
        bytes: [0x40, 0x05, 0, 0x0a, 0, 0x10, 0, 0],
        head: SegmentHeader {
            pfi: false,
            reserved: true,
            pointer: 5,
            sequence: 1,
            cluster: 2,
            request: 16,
            hcs: 0,
        },
    },
];

fn expect_readings(rt: &impl Abort) {
    for reading in &READINGS {
        let head = read_segment(&reading.bytes);
        expect_same(rt, reading.name, head, Some(reading.head));
    }
    let short = read_segment(&[0x40, 0x05, 0, 0x0a, 0, 0x10, 0]);
    expect_same(rt, "seven bytes", short, None);
}

#[test]
fn reads_headers(rt: HostRuntime) {
    expect_readings(&rt);
}

fn expect_writings(rt: &impl Abort) {
    for reading in &READINGS {
        let bytes = write_segment(&reading.head);
        expect_same(rt, reading.name, bytes, reading.bytes);
    }
}

#[test]
fn writes_headers(rt: HostRuntime) {
    expect_writings(&rt);
}

/// A header, the length of a payload, and whether the header's pointer stays within it.
const POINTINGS: [(&str, [u8; 8], usize, bool); 4] = [
    ("at the first byte", [0x80, 0, 0, 0, 0, 0, 0, 0], 1, true),
    ("at the last byte", [0x80, 4, 0, 0, 0, 0, 0, 0], 5, true),
    ("after the last byte", [0x80, 5, 0, 0, 0, 0, 0, 0], 5, false),
    (
        "where it means nothing",
        [0x3f, 0xff, 0, 0, 0, 0, 0, 0],
        0,
        true,
    ),
];

fn pointing_segments(alloc: Global) -> Result<Vec<Segment>, AllocError> {
    let mut segments = Vec::new(alloc);
    for (_, bytes, len, _) in &POINTINGS {
        let Some(head) = read_segment(bytes) else {
            unreachable!()
        };
        let payload = Bytes::from(vec![in alloc; 0; *len]?);
        segments.push(Segment { head, payload })?;
    }
    Ok(segments)
}

fn expect_pointings(rt: &impl Abort, segments: &[Segment]) {
    expect_same(rt, "segments", segments.len(), POINTINGS.len());
    for (segment, (name, _, _, within)) in segments.iter().zip(&POINTINGS) {
        expect_same(rt, name, ready(segment), *within);
    }
}

#[test]
fn knows_whether_a_pointer_stays_within(rt: HostRuntime) -> Result<(), Fail> {
    expect_pointings(&rt, &pointing_segments(rt.alloc())?);
    Ok(())
}

/// A segment whose pointer leads to the last of its bytes.
const POINTED: &[u8] = &[0x80, 2, 0, 8, 0, 0, 0, 0, 0x11, 0x22, 0x33];

#[test]
fn reads_segments(rt: HostRuntime) -> Result<(), Fail> {
    let segment = Segment::read(rt.alloc(), POINTED)?;
    expect_same(&rt, "the head", Some(segment.head), read_segment(POINTED));
    expect_bytes(
        &rt,
        "the payload",
        segment.payload.as_slice(),
        &[0x11, 0x22, 0x33],
    );
    let empty = Segment::read(rt.alloc(), &[0; 8])?;
    expect_true(&rt, "a header alone", empty.payload.is_empty());
    Ok(())
}

const FAULTS: [(&str, &[u8], SegmentFault); 4] = [
    ("nothing", &[], SegmentFault::TooShort),
    (
        "seven bytes",
        &[0x80, 0, 0, 0, 0, 0, 0],
        SegmentFault::TooShort,
    ),
    (
        "a pointer and no payload",
        &[0x80, 0, 0, 0, 0, 0, 0, 0],
        SegmentFault::PointerPast,
    ),
    (
        "a pointer after the last byte",
        &[0x80, 3, 0, 8, 0, 0, 0, 0, 0x11, 0x22, 0x33],
        SegmentFault::PointerPast,
    ),
];

fn expect_faults(rt: &impl Abort, alloc: Global) {
    for (name, bytes, fault) in &FAULTS {
        let answer = Segment::read(alloc, bytes);
        expect_same(rt, name, answer.err(), Some(*fault));
    }
}

#[test]
fn reads_no_faulty_segments(rt: HostRuntime) {
    expect_faults(&rt, rt.alloc());
}

/// The bytes of a burst, as they are received.
fn burst_of(alloc: Global, bytes: &[u8]) -> Result<Bytes, AllocError> {
    Ok(Bytes::from(Vec::from_slice(alloc, bytes)?))
}

#[test]
fn makes_segments_of_bursts(rt: HostRuntime) -> Result<(), Fail> {
    let segment = Segment::from_burst(burst_of(rt.alloc(), POINTED)?)?;
    let payload = [0x11, 0x22, 0x33];
    expect_same(&rt, "the head", Ok(segment.head), Segment::head_of(POINTED));
    expect_bytes(&rt, "the payload", segment.payload.as_slice(), &payload);
    expect_same(&rt, "its length", segment.payload.len(), 3);
    let Segment {
        head: _,
        payload: bytes,
    } = segment;
    expect_bytes(&rt, "as a vector", bytes.into_vec().as_slice(), &payload);
    let empty = Segment::from_burst(burst_of(rt.alloc(), &[0; 8])?)?;
    expect_true(&rt, "a header alone", empty.payload.is_empty());
    Ok(())
}

#[test]
fn gives_faulty_bursts_back(rt: HostRuntime) -> Result<(), Fail> {
    for (name, bytes, fault) in &FAULTS {
        let answer = Segment::from_burst(burst_of(rt.alloc(), bytes)?);
        let refused = answer.err().ok_or("a segment")?;
        expect_same(&rt, name, refused.fault, *fault);
        expect_bytes(&rt, name, refused.burst.as_slice(), bytes);
        expect_same(&rt, name, Segment::head_of(bytes), Err(*fault));
    }
    Ok(())
}

/// How many bytes more are left out, and what is left then.
const LEFT_OUT: [(&str, usize, &[u8]); 4] = [
    ("none", 0, &[1, 2, 3, 4, 5]),
    ("two", 2, &[3, 4, 5]),
    ("one more", 1, &[4, 5]),
    ("all", 2, &[]),
];

#[test]
fn leaves_bytes_out_at_the_front(rt: HostRuntime) -> Result<(), Fail> {
    let mut bytes = burst_of(rt.alloc(), &[1, 2, 3, 4, 5])?;
    for (name, count, left) in &LEFT_OUT {
        expect_true(&rt, name, *count <= bytes.len());
        bytes = bytes.without_front(*count);
        expect_bytes(&rt, name, bytes.as_slice(), left);
        expect_same(&rt, name, bytes.is_empty(), left.is_empty());
    }
    Ok(())
}

#[test]
fn says_why_bytes_are_no_segment(rt: HostRuntime) -> Result<(), Fail> {
    let texts = [
        (SegmentFault::TooShort, "too short"),
        (SegmentFault::PointerPast, "pointer past the end"),
        (SegmentFault::OutOfMemory, "out of memory"),
    ];
    for (fault, text) in &texts {
        let said = fault.to_string(rt.alloc())?;
        expect_same(&rt, text, said.as_str(), text);
    }
    Ok(())
}
