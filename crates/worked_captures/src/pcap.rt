//! Files of the format pcap, whole and in pieces of every size.
mod failed_allocations;

use capture::{Endian, PcapFault, PcapHeader, PcapReader, Record, RecordHead, Resolution};
use std::alloc::Global;
use std::test::Fail;

/// Microseconds, most significant byte first, link type 273; records of 3, 0 and 2 bytes.
pub(crate) fn three_records() -> &'static [u8] {
    &[
        0xa1, 0xb2, 0xc3, 0xd4, 0, 2, 0, 4, 0, 0, 0, 0, 0, 0, 0, 0, 0, 4, 0, 0, 0, 0, 1, 0x11, //
        0, 0, 0, 7, 0, 0, 0, 9, 0, 0, 0, 3, 0, 0, 0, 3, 0xaa, 0xbb, 0xcc, //
        0, 0, 0, 8, 0, 0, 0, 1, 0, 0, 0, 0, 0, 0, 0, 5, //
        1, 2, 3, 4, 0, 0, 0, 2, 0, 0, 0, 2, 0, 0, 0, 4, 0xdd, 0xee,
    ]
}

/// Seconds, fraction, captured and original length, and the bytes, of each.
pub(crate) fn wanted() -> &'static [([u32; 4], &'static [u8])] {
    &[
        ([7, 9, 3, 3], &[0xaa, 0xbb, 0xcc]),
        ([8, 1, 0, 5], &[]),
        ([0x0102_0304, 2, 2, 4], &[0xdd, 0xee]),
    ]
}

/// Nanoseconds, least significant byte first, link type 1; one record of one byte.
pub(crate) fn one_record() -> &'static [u8] {
    &[
        0x4d, 0x3c, 0xb2, 0xa1, 2, 0, 4, 0, 1, 0, 0, 0, 2, 0, 0, 0, 0xff, 0xff, 0, 0, 1, 0, 0, 0, //
        4, 3, 2, 1, 0xff, 0xc9, 0x9a, 0x3b, 1, 0, 0, 0, 0x40, 0, 0, 0, 0x5a,
    ]
}

/// Another first number.
fn no_pcap() -> &'static [u8] {
    &[
        0xa1, 0xb3, 0xc3, 0xd4, 0, 2, 0, 4, 0, 0, 0, 0, 0, 0, 0, 0, 0, 4, 0, 0, 0, 0, 1, 0x11,
    ]
}

/// The header, and a record that is said to have a byte more than 1 MiB.
fn too_long() -> &'static [u8] {
    &[
        0xa1, 0xb2, 0xc3, 0xd4, 0, 2, 0, 4, 0, 0, 0, 0, 0, 0, 0, 0, 0, 4, 0, 0, 0, 0, 1, 0x11, //
        0, 0, 0, 7, 0, 0, 0, 9, 0, 0x10, 0, 1, 0, 0x10, 0, 1, 0xaa,
    ]
}

/// The records that a piece completes.
pub(crate) fn records_of(
    alloc: Global,
    reader: &mut PcapReader,
    piece: &[u8],
    records: &mut Vec<Record>,
) -> Result<(), PcapFault> {
    let mut rest = piece;
    for _ in 0..piece.len() {
        let taken = reader.take(alloc, rest)?;
        rest = taken.rest;
        if let Some(record) = taken.record {
            records.push(record).map_err(|_| PcapFault::OutOfMemory)?;
        }
    }
    Ok(())
}

fn is(record: &Record, wanted: &([u32; 4], &[u8])) -> bool {
    let head = record.head;
    [head.seconds, head.fraction, head.captured, head.original] == wanted.0
        && record.bytes.as_slice() == wanted.1
}

pub(crate) fn are(records: &[Record], wanted: &[([u32; 4], &[u8])]) -> bool {
    records.len() == wanted.len()
        && records
            .iter()
            .zip(wanted)
            .all(|(record, want)| is(record, want))
}

#[test]
pub(crate) fn three_records_in_pieces_of_every_size(rt: HostRuntime) -> Result<(), Fail> {
    for size in 1..80 {
        let mut reader = PcapReader::new(rt.alloc());
        let mut records = Vec::new(rt.alloc());
        for piece in three_records().chunks(size) {
            records_of(rt.alloc(), &mut reader, piece, &mut records)?;
        }
        assert!(rt; are(&records, wanted()), "in pieces of {size}");
        assert!(rt; reader.finish().is_ok());
    }
    Ok(())
}

#[test]
fn most_significant_byte_first_and_microseconds(rt: HostRuntime) -> Result<(), Fail> {
    let mut reader = PcapReader::new(rt.alloc());
    assert!(rt; reader.header().is_none());
    let mut records = Vec::new(rt.alloc());
    records_of(rt.alloc(), &mut reader, three_records(), &mut records)?;
    let wanted = PcapHeader {
        endian: Endian::Big,
        resolution: Resolution::Microseconds,
        major: 2,
        minor: 4,
        zone: 0,
        accuracy: 0,
        snap_length: 0x40000,
        link_type: 273,
    };
    assert!(rt; reader.header() == Some(wanted));
    Ok(())
}

#[test]
fn least_significant_byte_first_and_nanoseconds(rt: HostRuntime) -> Result<(), Fail> {
    let mut reader = PcapReader::new(rt.alloc());
    let mut records = Vec::new(rt.alloc());
    records_of(rt.alloc(), &mut reader, one_record(), &mut records)?;
    let one: ([u32; 4], &[u8]) = ([0x0102_0304, 999_999_999, 1, 64], &[0x5a]);
    assert!(rt; are(&records, &[one]));
    let wanted = PcapHeader {
        endian: Endian::Little,
        resolution: Resolution::Nanoseconds,
        major: 2,
        minor: 4,
        zone: 1,
        accuracy: 2,
        snap_length: 0xffff,
        link_type: 1,
    };
    assert!(rt; reader.header() == Some(wanted));
    Ok(())
}

/// What a file is refused for, at its end or before it.
fn fault_of(alloc: Global, file: &[u8]) -> Option<PcapFault> {
    let mut reader = PcapReader::new(alloc);
    let mut records = Vec::new(alloc);
    match records_of(alloc, &mut reader, file, &mut records) {
        Ok(()) => reader.finish().err(),
        Err(fault) => Some(fault),
    }
}

#[test]
fn files_that_end_inside(rt: HostRuntime) {
    let file = three_records();
    for end in 0..file.len() {
        let wanted = if end == 24 || end == 43 || end == 59 {
            None
        } else {
            Some(PcapFault::EndsInside)
        };
        assert!(rt; fault_of(rt.alloc(), &file[..end]) == wanted, "at {end}");
    }
}

#[test]
fn files_that_are_refused(rt: HostRuntime) {
    assert!(rt; fault_of(rt.alloc(), no_pcap()) == Some(PcapFault::NotPcap));
    assert!(rt; fault_of(rt.alloc(), too_long()) == Some(PcapFault::RecordTooLong));
}

#[test]
fn a_fault_is_reported_again(rt: HostRuntime) {
    let mut reader = PcapReader::new(rt.alloc());
    assert!(rt; reader.take(rt.alloc(), no_pcap()).is_err());
    let again = reader.take(rt.alloc(), three_records());
    assert!(rt; again.err() == Some(PcapFault::NotPcap));
    assert!(rt; reader.finish().err() == Some(PcapFault::NotPcap));
}
