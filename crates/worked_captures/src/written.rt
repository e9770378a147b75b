//! Pcap files that are written, and bursts in their records.
use crate::pcap::{one_record, records_of, three_records};
use capture::{
    BurstKind, Passed, PcapFault, PcapReader, Record, RecordHead, burst_in_record,
    write_pcap_header, write_record,
};
use std::alloc::Global;
use std::test::Fail;

/// The file that is written of what was read of one.
fn written_again(alloc: Global, file: &[u8]) -> Result<Vec<u8>, PcapFault> {
    let mut reader = PcapReader::new(alloc);
    let mut records = Vec::new(alloc);
    records_of(alloc, &mut reader, file, &mut records)?;
    let mut out = Vec::new(alloc);
    if let Some(header) = reader.header() {
        write_pcap_header(&mut out, &header)?;
        for record in &records {
            write_record(&mut out, header.endian, record)?;
        }
    }
    Ok(out)
}

#[test]
fn what_is_read_is_written_byte_for_byte(rt: HostRuntime) -> Result<(), Fail> {
    let out = written_again(rt.alloc(), three_records())?;
    assert!(rt; out.as_slice() == three_records());
    let out = written_again(rt.alloc(), one_record())?;
    assert!(rt; out.as_slice() == one_record());
    Ok(())
}

/// A packet of which all 21 bytes were captured.
fn packet() -> &'static [u8] {
    &[
        2, 65, 0, 9, 10, 1, 3, 11, 1, 7, 18, 1, 1, 0, 0, 0, 0, 0, 0, 0, 0,
    ]
}

/// A record of the packet's bytes, which is said to have had so many.
fn record_of(alloc: Global, original: u32) -> Result<Record, PcapFault> {
    let bytes = packet().to_vec(alloc)?;
    let captured = u32::try_from(bytes.len()).map_err(|_| PcapFault::RecordTooLong)?;
    let head = RecordHead {
        seconds: 0,
        fraction: 0,
        captured,
        original,
    };
    Ok(Record { head, bytes })
}

#[test]
fn a_record_that_was_cut_short_is_no_burst(rt: HostRuntime) -> Result<(), Fail> {
    let whole = record_of(rt.alloc(), 21)?;
    assert!(rt; burst_in_record(&whole).is_ok_and(|burst| burst.kind == BurstKind::Tdma));
    let cut = record_of(rt.alloc(), 22)?;
    assert!(rt; burst_in_record(&cut).err() == Some(Passed::CutShort));
    Ok(())
}
