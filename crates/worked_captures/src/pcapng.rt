//! Files of the format pcapng, whole and in pieces of every size.
mod block_faults;
mod blocks_in_pieces;
mod failed_allocations;
mod hostile;
mod pcapng_files;
mod units;

use capture::{CaptureRecord, PcapngFault, PcapngReader};
use std::alloc::Global;

/// Most significant byte first: a section, an interface of link type 273 whose times are
/// microseconds, a block of another type, and packets of three bytes, of none, and of two that were
/// cut short and have an option behind them.
pub(crate) fn three_packets() -> &'static [u8] {
    &[
        0x0a, 0x0d, 0x0d, 0x0a, 0, 0, 0, 28, 0x1a, 0x2b, 0x3c, 0x4d, 0, 1, 0, 0, //
        0xff, 0xff, 0xff, 0xff, 0xff, 0xff, 0xff, 0xff, 0, 0, 0, 28, //
        0, 0, 0, 1, 0, 0, 0, 20, 1, 0x11, 0, 0, 0, 4, 0, 0, 0, 0, 0, 20, //
        0, 0, 0, 6, 0, 0, 0, 36, 0, 0, 0, 0, 0, 0, 0, 0, 0, 0x1e, 0x84, 0x81, //
        0, 0, 0, 3, 0, 0, 0, 3, 0xaa, 0xbb, 0xcc, 0, 0, 0, 0, 36, //
        0, 0, 0, 4, 0, 0, 0, 16, 0xde, 0xad, 0xbe, 0xef, 0, 0, 0, 16, //
        0, 0, 0, 6, 0, 0, 0, 32, 0, 0, 0, 0, 0, 5, 0x5d, 0x4a, 0x80, 0, 0, 0, //
        0, 0, 0, 0, 0, 0, 0, 0, 0, 0, 0, 32, //
        0, 0, 0, 6, 0, 0, 0, 48, 0, 0, 0, 0, 0, 0, 0, 0, 0, 0, 0, 7, //
        0, 0, 0, 2, 0, 0, 0, 4, 0xdd, 0xee, 0, 0, //
        0, 2, 0, 4, 0, 0, 0, 1, 0, 0, 0, 0, 0, 0, 0, 48,
    ]
}

/// Its section and its interface, and what follows them.
pub(super) fn beginning_and_rest() -> Option<(&'static [u8], &'static [u8])> {
    three_packets().split_at_checked(48)
}

/// Link type, nanoseconds, original length, and the bytes, of each.
pub(crate) type Wanted = (u32, u64, u32, &'static [u8]);

/// The packets of that file.
pub(crate) fn wanted() -> &'static [Wanted] {
    &[
        (273, 2_000_001_000, 3, &[0xaa, 0xbb, 0xcc]),
        (273, 1_509_949_440_000_000_000, 0, &[]),
        (273, 7_000, 4, &[0xdd, 0xee]),
    ]
}

/// The records that a piece completes.
pub(super) fn records_of(
    alloc: Global,
    reader: &mut PcapngReader,
    piece: &[u8],
    records: &mut Vec<CaptureRecord>,
) -> Result<(), PcapngFault> {
    let mut rest = piece;
    for _ in 0..piece.len() {
        if rest.is_empty() {
            break;
        }
        let taken = reader.take(alloc, rest)?;
        rest = taken.rest;
        if let Some(record) = taken.record {
            records.push(record).map_err(|_| PcapngFault::OutOfMemory)?;
        }
    }
    Ok(())
}

fn is(record: &CaptureRecord, wanted: &Wanted) -> bool {
    (record.link_type, record.nanoseconds, record.original) == (wanted.0, wanted.1, wanted.2)
        && record.bytes.as_slice() == wanted.3
}

pub(crate) fn are(records: &[CaptureRecord], wanted: &[Wanted]) -> bool {
    records.len() == wanted.len()
        && records
            .iter()
            .zip(wanted)
            .all(|(record, want)| is(record, want))
}

/// What a file is refused for, at its end or before it.
pub(super) fn fault_of(alloc: Global, file: &[u8]) -> Option<PcapngFault> {
    let mut reader = PcapngReader::new(alloc);
    let mut records = Vec::new(alloc);
    match records_of(alloc, &mut reader, file, &mut records) {
        Ok(()) => reader.finish().err(),
        Err(fault) => Some(fault),
    }
}
