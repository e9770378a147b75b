//! Each allocation of a reader is refused once: it is reported, the reader reports it again, and
//! what is begun anew gives what a first call gives.
use super::{microseconds, of_microseconds, records_of};
use crate::pcapng::are;
use capture::{CaptureFault, CaptureReader, CaptureRecord, PcapFault};
use std::alloc::Global;
use std::process::Abort;

/// The packets of the file, by a first reader or, where that was refused memory, by a second one.
fn all_packets(rt: &impl Abort, alloc: Global) -> Vec<CaptureRecord> {
    let mut reader = CaptureReader::new();
    let mut records = Vec::new(alloc);
    if records_of(alloc, &mut reader, microseconds(), &mut records).is_err() {
        reader = CaptureReader::new();
        records = Vec::new(alloc);
        records_of(alloc, &mut reader, microseconds(), &mut records).expect(rt, "memory");
    }
    records
}

#[test]
fn a_file_is_read(rt: HostRuntime) {
    let records = all_packets(&rt, rt.alloc());
    assert!(rt; are(&records, of_microseconds()));
}

#[test]
fn a_reader_that_was_refused_memory_says_so_again(rt: HostRuntime) {
    let mut reader = CaptureReader::new();
    if let Err(fault) = reader.take(rt.alloc(), microseconds()) {
        assert!(rt; fault == CaptureFault::Pcap(PcapFault::OutOfMemory));
        let again = reader.take(rt.alloc(), microseconds());
        assert!(rt; again.err() == Some(fault));
    }
}
