//! Each allocation of a reader is refused once: it is reported, the reader reports it again, and
//! what is begun anew gives what a first call gives.
use super::{are, records_of, three_packets, wanted};
use capture::{CaptureRecord, PcapngFault, PcapngReader};
use std::alloc::Global;
use std::process::Abort;

/// The packets of the file, in pieces of nine bytes, by a first reader or, where that was refused
/// memory, by a second one.
fn all_packets(rt: &impl Abort, alloc: Global) -> Vec<CaptureRecord> {
    let mut reader = PcapngReader::new(alloc);
    let mut records = Vec::new(alloc);
    if pieces(alloc, &mut reader, &mut records).is_err() {
        reader = PcapngReader::new(alloc);
        records = Vec::new(alloc);
        pieces(alloc, &mut reader, &mut records).expect(rt, "memory");
    }
    records
}

fn pieces(
    alloc: Global,
    reader: &mut PcapngReader,
    records: &mut Vec<CaptureRecord>,
) -> Result<(), PcapngFault> {
    for piece in three_packets().chunks(9) {
        records_of(alloc, reader, piece, records)?;
    }
    Ok(())
}

#[test]
fn a_file_is_read(rt: HostRuntime) {
    let records = all_packets(&rt, rt.alloc());
    assert!(rt; are(&records, wanted()));
}

#[test]
fn a_reader_that_was_refused_memory_says_so_again(rt: HostRuntime) {
    let mut reader = PcapngReader::new(rt.alloc());
    let mut rest = three_packets();
    for _ in 0..16 {
        match reader.take(rt.alloc(), rest) {
            Ok(taken) => rest = taken.rest,
            Err(fault) => {
                assert!(rt; fault == PcapngFault::OutOfMemory);
                let again = reader.take(rt.alloc(), rest);
                assert!(rt; again.err() == Some(fault));
                return;
            }
        }
    }
}
