//! Each allocation of a reader and of a writer is refused once: it is reported, a reader reports it
//! again, and what is begun anew gives what a first call gives.
use super::{are, records_of, three_records, wanted};
use capture::{Endian, PcapFault, PcapReader, Record, write_record};
use std::alloc::Global;
use std::process::Abort;

/// The records of the file, by a first reader or, where that was refused memory, by a second one.
fn all_records(rt: &impl Abort, alloc: Global) -> Vec<Record> {
    let mut reader = PcapReader::new(alloc);
    let mut records = Vec::new(alloc);
    if records_of(alloc, &mut reader, three_records(), &mut records).is_err() {
        reader = PcapReader::new(alloc);
        records = Vec::new(alloc);
        records_of(alloc, &mut reader, three_records(), &mut records).expect(rt, "memory");
    }
    records
}

#[test]
fn a_file_is_read_and_written(rt: HostRuntime) {
    let records = all_records(&rt, rt.alloc());
    assert!(rt; are(&records, wanted()));
    let mut out = Vec::new(rt.alloc());
    for record in &records {
        let before = out.len();
        if write_record(&mut out, Endian::Big, record).is_err() {
            assert!(rt; out.len() == before);
            assert!(rt; write_record(&mut out, Endian::Big, record).is_ok());
        }
    }
    assert!(rt; three_records().get(24..) == Some(out.as_slice()));
}

#[test]
fn a_reader_that_was_refused_memory_says_so_again(rt: HostRuntime) {
    let mut reader = PcapReader::new(rt.alloc());
    if let Err(fault) = reader.take(rt.alloc(), three_records()) {
        assert!(rt; fault == PcapFault::OutOfMemory);
        let again = reader.take(rt.alloc(), three_records());
        assert!(rt; again.err() == Some(fault));
    }
}
