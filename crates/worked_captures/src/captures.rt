//! Files of either format, read by one reader.
mod failed_allocations;

use crate::pcapng::{Wanted, are, three_packets, wanted};
use capture::{
    BurstKind, CaptureFault, CaptureReader, CaptureRecord, Passed, PcapFault, PcapngFault,
    burst_in_capture,
};
use std::alloc::Global;
use std::test::Fail;

/// Pcap, microseconds, most significant byte first, link type 273; records of three bytes and of
/// two that were cut short.
pub(super) fn microseconds() -> &'static [u8] {
    &[
        0xa1, 0xb2, 0xc3, 0xd4, 0, 2, 0, 4, 0, 0, 0, 0, 0, 0, 0, 0, 0, 4, 0, 0, 0, 0, 1, 0x11, //
        0, 0, 0, 7, 0, 0, 0, 9, 0, 0, 0, 3, 0, 0, 0, 3, 0xaa, 0xbb, 0xcc, //
        0xff, 0xff, 0xff, 0xff, 0xff, 0xff, 0xff, 0xff, 0, 0, 0, 2, 0, 0, 0, 4, 0xdd, 0xee,
    ]
}

/// Its packets.
pub(super) fn of_microseconds() -> &'static [Wanted] {
    &[
        (273, 7_000_009_000, 3, &[0xaa, 0xbb, 0xcc]),
        (273, 4_294_971_589_967_295_000, 4, &[0xdd, 0xee]),
    ]
}

/// Pcap, nanoseconds, least significant byte first, link type 1; one record of one byte.
fn nanoseconds() -> &'static [u8] {
    &[
        0x4d, 0x3c, 0xb2, 0xa1, 2, 0, 4, 0, 1, 0, 0, 0, 2, 0, 0, 0, 0xff, 0xff, 0, 0, 1, 0, 0, 0, //
        4, 3, 2, 1, 0xff, 0xc9, 0x9a, 0x3b, 1, 0, 0, 0, 0x40, 0, 0, 0, 0x5a,
    ]
}

/// Its packet.
fn of_nanoseconds() -> &'static [Wanted] {
    &[(1, 16_909_060_999_999_999, 64, &[0x5a])]
}

/// The records that a piece completes.
pub(super) fn records_of(
    alloc: Global,
    reader: &mut CaptureReader,
    piece: &[u8],
    records: &mut Vec<CaptureRecord>,
) -> Result<(), CaptureFault> {
    let mut rest = piece;
    for _ in 0..piece.len() {
        if rest.is_empty() {
            break;
        }
        let taken = reader.take(alloc, rest)?;
        rest = taken.rest;
        if let Some(record) = taken.record {
            records
                .push(record)
                .map_err(|_| CaptureFault::Pcap(PcapFault::OutOfMemory))?;
        }
    }
    Ok(())
}

#[test]
fn files_of_either_format_in_pieces_of_every_size(rt: HostRuntime) -> Result<(), Fail> {
    let files = [
        ("pcap, microseconds", microseconds(), of_microseconds()),
        ("pcap, nanoseconds", nanoseconds(), of_nanoseconds()),
        ("pcapng", three_packets(), wanted()),
    ];
    for (name, file, packets) in files {
        for size in 1..=file.len() {
            let mut reader = CaptureReader::new();
            let mut records = Vec::new(rt.alloc());
            for piece in file.chunks(size.max(1)) {
                records_of(rt.alloc(), &mut reader, piece, &mut records)?;
            }
            assert!(rt; are(&records, packets), "{name} in pieces of {size}");
            assert!(rt; reader.finish().is_ok());
        }
    }
    Ok(())
}

/// What a file is refused for, at its end or before it.
fn fault_of(alloc: Global, file: &[u8]) -> Option<CaptureFault> {
    let mut reader = CaptureReader::new();
    let mut records = Vec::new(alloc);
    match records_of(alloc, &mut reader, file, &mut records) {
        Ok(()) => reader.finish().err(),
        Err(fault) => Some(fault),
    }
}

/// A name, a file, and its fault.
fn refused() -> &'static [(&'static str, &'static [u8], CaptureFault)] {
    &[
        ("no bytes", &[], CaptureFault::NoCapture),
        (
            "24 bytes of text",
            b"frame 000000021111aabb\n\n\n",
            CaptureFault::NoCapture,
        ),
        (
            "a line feed first, and no section header",
            b"\n\r\n\nabcdefgh",
            CaptureFault::NoCapture,
        ),
        (
            "the beginning of a pcap file",
            &[0xa1, 0xb2, 0xc3, 0xd4, 0, 2],
            CaptureFault::Pcap(PcapFault::EndsInside),
        ),
        (
            "the beginning of a pcapng file",
            &[0x0a, 0x0d, 0x0d, 0x0a, 0, 0],
            CaptureFault::Pcapng(PcapngFault::EndsInside),
        ),
        (
            "another byte-order magic",
            &[0x0a, 0x0d, 0x0d, 0x0a, 0, 0, 0, 28, 0x1a, 0x2b, 0x3c, 0x4e],
            CaptureFault::Pcapng(PcapngFault::BadByteOrder),
        ),
    ]
}

#[test]
fn files_that_are_refused(rt: HostRuntime) {
    for (name, file, fault) in refused() {
        assert!(rt; fault_of(rt.alloc(), file) == Some(*fault), "{name}");
    }
}

#[test]
fn a_fault_is_reported_again(rt: HostRuntime) {
    let mut reader = CaptureReader::new();
    let text: &[u8] = b"\n\r\n\nabcdefgh";
    assert!(rt; reader.take(rt.alloc(), text).is_err());
    let again = reader.take(rt.alloc(), three_packets());
    assert!(rt; again.err() == Some(CaptureFault::NoCapture));
    assert!(rt; reader.finish().err() == Some(CaptureFault::NoCapture));
}

#[test]
fn faults_in_words(rt: HostRuntime) -> Result<(), Fail> {
    let none = format!(in rt.alloc(); "{}", CaptureFault::NoCapture)?;
    assert!(rt; none.as_str() == "neither a pcap nor a pcapng file");
    let inside = format!(in rt.alloc(); "{}", CaptureFault::Pcapng(PcapngFault::EndsInside))?;
    assert!(rt; inside.as_str() == "the file ends within a block");
    Ok(())
}

/// A packet of 21 bytes with a burst.
fn packet() -> &'static [u8] {
    &[
        2, 65, 0, 9, 10, 1, 3, 11, 1, 7, 18, 1, 1, 0, 0, 0, 0, 0, 0, 0, 0,
    ]
}

/// A record of it, which is said to have had so many bytes.
fn record_of(alloc: Global, original: u32) -> Result<CaptureRecord, Fail> {
    Ok(CaptureRecord {
        link_type: 273,
        nanoseconds: 0,
        original,
        bytes: packet().to_vec(alloc)?,
    })
}

#[test]
fn bursts_in_records(rt: HostRuntime) -> Result<(), Fail> {
    let whole = record_of(rt.alloc(), 21)?;
    assert!(rt; burst_in_capture(&whole).is_ok_and(|burst| burst.kind == BurstKind::Tdma));
    let cut = record_of(rt.alloc(), 22)?;
    assert!(rt; burst_in_capture(&cut).err() == Some(Passed::CutShort));
    Ok(())
}
