//! Frames that an analyser recorded, read from the records of a capture.
use crate::frame_files::{FRAME, ORIGIN, TIME};
use capture::{CaptureFault, CaptureReader, CaptureRecord};
use frame_records::{FrameLink, RecordedFrame, put_file_header, put_frame, recorded_frame};
use std::alloc::{AllocError, Global};
use std::test::Fail;

/// The record of a packet, the whole of it.
pub(crate) fn record(alloc: Global, bytes: &[u8]) -> Result<CaptureRecord, AllocError> {
    Ok(CaptureRecord {
        link_type: 273,
        nanoseconds: TIME,
        original: u32::try_from(bytes.len()).unwrap_or(u32::MAX),
        bytes: bytes.to_vec(alloc)?,
    })
}

/// The first record of a file.
pub(crate) fn first_record(
    alloc: Global,
    file: &[u8],
) -> Result<Option<CaptureRecord>, CaptureFault> {
    let mut reader = CaptureReader::new();
    let mut rest = file;
    for _ in 0..file.len() {
        let taken = reader.take(alloc, rest)?;
        if taken.record.is_some() {
            return Ok(taken.record);
        }
        rest = taken.rest;
    }
    Ok(None)
}

#[test]
fn a_written_frame(rt: HostRuntime) -> Result<(), Fail> {
    let mut file = Vec::new(rt.alloc());
    put_file_header(&mut file, FrameLink::Xra)?;
    put_frame(rt.alloc(), &mut file, FrameLink::Xra, TIME, &ORIGIN, &FRAME)?;
    let Some(given) = first_record(rt.alloc(), &file)? else {
        return Err(Fail::from(AllocError));
    };
    let wanted = RecordedFrame {
        time: TIME,
        channel: 3,
        sid: 291,
        frame: &FRAME,
    };
    assert!(rt; recorded_frame(&given) == Some(wanted));
    Ok(())
}

/// A name, a packet, and the channel, the SID and the bytes of the frame that it holds.
type Held = (&'static str, &'static [u8], u32, u32, &'static [u8]);

fn held() -> &'static [Held] {
    &[
        (
            "channel and SID",
            &[
                2, 80, 0, 7, 10, 1, 3, 11, 2, 1, 0x23, 0, 0, 0, 2, 0x11, 0x11,
            ],
            3,
            291,
            &[0, 0, 0, 2, 0x11, 0x11],
        ),
        (
            "the SID first, and numbers of four bytes",
            &[
                1, 80, 0, 12, 11, 4, 0xff, 0xff, 0xff, 0xff, 10, 4, 1, 2, 3, 4, 0xaa,
            ],
            0x0102_0304,
            0xffff_ffff,
            &[0xaa],
        ),
        (
            "two TLVs 10, of which the first has no bytes, and two TLVs 11",
            &[
                0, 80, 0, 14, 10, 0, 11, 1, 5, 10, 3, 1, 0, 0, 11, 2, 0, 6, 0xaa, 0xbb,
            ],
            65_536,
            6,
            &[0xaa, 0xbb],
        ),
        (
            "no bytes of a frame",
            &[1, 80, 0, 6, 10, 1, 0, 11, 1, 0],
            0,
            0,
            &[],
        ),
        (
            "two bursts behind channel and SID",
            &[
                1, 80, 0, 18, 10, 1, 3, 11, 1, 7, 14, 4, 10, 2, 0, 9, 14, 4, 11, 2, 0, 9, 0xaa,
            ],
            3,
            7,
            &[0xaa],
        ),
    ]
}

#[test]
fn packets_with_a_frame(rt: HostRuntime) -> Result<(), Fail> {
    for (name, bytes, channel, sid, frame) in held() {
        let wanted = RecordedFrame {
            time: TIME,
            channel: *channel,
            sid: *sid,
            frame: *frame,
        };
        let given = record(rt.alloc(), *bytes)?;
        assert!(rt; recorded_frame(&given) == Some(wanted), "{name}");
    }
    Ok(())
}

/// A name, and a packet that holds no frame.
fn passed_over() -> &'static [(&'static str, &'static [u8])] {
    &[
        ("no bytes", &[]),
        ("three bytes", &[1, 80, 0]),
        ("no TLVs", &[1, 80, 0, 0, 0xaa]),
        ("a TDMA burst", &[1, 65, 0, 6, 10, 1, 3, 11, 1, 7, 0xaa]),
        ("an OFDMA burst", &[1, 72, 0, 6, 10, 1, 3, 11, 1, 7, 0xaa]),
        ("a type above", &[1, 81, 0, 6, 10, 1, 3, 11, 1, 7, 0xaa]),
        ("no TLV 10", &[1, 80, 0, 3, 11, 1, 7, 0xaa]),
        ("no TLV 11", &[1, 80, 0, 3, 10, 1, 3, 0xaa]),
        (
            "TLV 10 in TLV 14 alone",
            &[1, 80, 0, 8, 11, 1, 7, 14, 3, 10, 1, 3, 0xaa],
        ),
        ("TLV 10 of no bytes", &[1, 80, 0, 5, 10, 0, 11, 1, 7, 0xaa]),
        ("TLV 11 of no bytes", &[1, 80, 0, 5, 10, 1, 3, 11, 0, 0xaa]),
        (
            "TLV 10 of five bytes",
            &[1, 80, 0, 10, 10, 5, 0, 0, 0, 0, 3, 11, 1, 7, 0xaa],
        ),
        (
            "TLV 11 of five bytes",
            &[1, 80, 0, 10, 10, 1, 3, 11, 5, 0, 0, 0, 0, 7, 0xaa],
        ),
        (
            "two TLVs 10, of which the last has no bytes",
            &[1, 80, 0, 8, 10, 1, 3, 11, 1, 7, 10, 0, 0xaa],
        ),
        (
            "a TLV that overruns the length of all",
            &[1, 80, 0, 6, 10, 1, 3, 11, 2, 7, 0xaa],
        ),
        (
            "half a TLV at the end",
            &[1, 80, 0, 7, 10, 1, 3, 11, 1, 7, 14, 0xaa],
        ),
        (
            "TLVs that overrun the packet",
            &[1, 80, 0, 7, 10, 1, 3, 11, 1, 7],
        ),
    ]
}

#[test]
fn packets_without_a_frame(rt: HostRuntime) -> Result<(), Fail> {
    for (name, bytes) in passed_over() {
        let given = record(rt.alloc(), *bytes)?;
        assert!(rt; recorded_frame(&given).is_none(), "{name}");
    }
    Ok(())
}

/// A packet with a frame of one byte.
const PACKET: [u8; 11] = [1, 80, 0, 6, 10, 1, 3, 11, 1, 7, 0xaa];

#[test]
fn records_of_another_link_type(rt: HostRuntime) -> Result<(), Fail> {
    for (link_type, is_found) in [(273, true), (143, false), (0, false), (272, false)] {
        let given = CaptureRecord {
            link_type,
            ..record(rt.alloc(), &PACKET)?
        };
        assert!(rt; recorded_frame(&given).is_some() == is_found);
    }
    Ok(())
}

#[test]
fn records_that_were_cut_short(rt: HostRuntime) -> Result<(), Fail> {
    for (original, is_found) in [(11, true), (12, false), (u32::MAX, false)] {
        let given = CaptureRecord {
            original,
            ..record(rt.alloc(), &PACKET)?
        };
        assert!(rt; recorded_frame(&given).is_some() == is_found);
    }
    Ok(())
}
