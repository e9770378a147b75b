//! Maps of whole captures.
mod failed_allocations;
mod packets;
mod three_flows;

use capture_engines::map_capture;
use engines::{Device, EngineFault};
use packets::{burst, change, whole};
use std::alloc::{AllocError, Global};
use std::io;
use std::io::{Read, Write};
use std::test::Fail;

/// Gives some bytes, so many at once.
#[derive(Drop)]
struct InPieces<'a> {
    rest: &'a [u8],
    size: usize,
}

impl Read for InPieces<'_> {
    fn read(&mut self, buf: &mut [u8]) -> io::Result<usize> {
        let count = self.size.min(self.rest.len()).min(buf.len());
        let (front, rest) = self.rest.split_at(count);
        buf[..count].copy_from_slice(front);
        self.rest = rest;
        Ok(count)
    }
}

/// A pcap file of these packets of link type 273, a second apart: at most 255 of at most 255 bytes.
fn file(alloc: Global, packets: &[&[u8]]) -> Result<Vec<u8>, AllocError> {
    let mut file = Vec::new(alloc);
    file.extend_from_slice(&[
        0xa1, 0xb2, 0x3c, 0x4d, 0, 2, 0, 4, 0, 0, 0, 0, 0, 0, 0, 0, 0, 4, 0, 0, 0, 0, 1, 0x11,
    ])?;
    for (place, packet) in packets.iter().enumerate() {
        let second = u32::from((place % 256) as u8);
        let length = u32::from((packet.len() % 256) as u8);
        file.extend_from_slice(&second.to_be_bytes())?;
        file.extend_from_slice(&1u32.to_be_bytes())?;
        file.extend_from_slice(&length.to_be_bytes())?;
        file.extend_from_slice(&length.to_be_bytes())?;
        file.extend_from_slice(packet)?;
    }
    Ok(file)
}

/// What comes of a capture that is read in pieces of this size, and what was written.
fn mapped(alloc: Global, bytes: &[u8], size: usize) -> (Result<(), EngineFault>, Vec<u8>) {
    let mut written = Vec::new(alloc);
    let mut reader = Device::new(InPieces { rest: bytes, size });
    let mut writer = Device::new(&mut written);
    let done = map_capture(alloc, &mut reader, &mut writer);
    reader.into_inner();
    writer.into_inner();
    (done, written)
}

/// The map of a registration and a change.
const TEXT: &[u8] = b"# modem 02:00:00:00:00:01 at 1.000000001, record 2, by REG-RSP-MP\n\
    flow 100 auto 1024 1\n\
    # modem 02:00:00:00:00:01 at 1.000000001, record 2, by REG-RSP-MP\n\
    flow 101 auto 1024 2\n\
    # modem 02:00:00:00:00:01 at 1.000000001, record 2, by REG-RSP-MP\n\
    channel 0 17\n\
    # modem 02:00:00:00:00:01 at 1.000000001, record 2, by REG-RSP-MP\n\
    channel 1 18\n\
    # modem 02:00:00:00:00:01 at 1.000000001, record 2, by REG-RSP-MP\n\
    channel 2 33\n\
    # modem 02:00:00:00:00:01 at 1.000000001, record 2, by REG-RSP-MP\n\
    channel 3 34\n\
    # modem 02:00:00:00:00:01 at 3.000000001, record 4, by DBC-REQ, transaction 7\n\
    channel 4 19\n\
    # modem 02:00:00:00:00:01 at 1.000000001, record 2, by REG-RSP-MP\n\
    sid 0 256 0\n\
    # modem 02:00:00:00:00:01 at 1.000000001, record 2, by REG-RSP-MP\n\
    sid 1 257 0\n\
    # modem 02:00:00:00:00:01 at 1.000000001, record 2, by REG-RSP-MP\n\
    sid 2 258 0\n\
    # modem 02:00:00:00:00:01 at 1.000000001, record 2, by REG-RSP-MP\n\
    sid 3 259 0\n\
    # modem 02:00:00:00:00:01 at 1.000000001, record 2, by REG-RSP-MP\n\
    sid 0 272 1\n\
    # modem 02:00:00:00:00:01 at 1.000000001, record 2, by REG-RSP-MP\n\
    sid 1 273 1\n\
    # modem 02:00:00:00:00:01 at 1.000000001, record 2, by REG-RSP-MP\n\
    sid 2 274 1\n\
    # modem 02:00:00:00:00:01 at 1.000000001, record 2, by REG-RSP-MP\n\
    sid 3 275 1\n\
    # modem 02:00:00:00:00:01 at 3.000000001, record 4, by DBC-REQ, transaction 7\n\
    sid 4 261 0\n\
    # deleted later: upstream channel 17, SID 256, flow 100, cluster 0, \
    modem 02:00:00:00:00:01 at 3.000000001, record 4, by DBC-REQ, transaction 7\n";

#[test]
fn a_capture_is_mapped_in_pieces_of_any_size(rt: HostRuntime) -> Result<(), Fail> {
    let bytes = file(rt.alloc(), &[burst(), whole(), burst(), change()])?;
    for size in [1, 7, 100, 1_000_000] {
        let (done, written) = mapped(rt.alloc(), &bytes, size);
        assert!(rt; done.is_ok());
        assert!(rt; written.as_slice() == TEXT);
    }
    Ok(())
}

/// The table of a capture without registrations.
const TABLE: &[u8] =
    b"# No registration tells the SID of a flow. What was seen of segments, by upstream channel and SID:\n\
    # channel 3, SID 291: segments 2, bad checks 0, numbers 1234 to 1234\n";

#[test]
fn without_registrations_what_was_seen_is_told(rt: HostRuntime) -> Result<(), Fail> {
    let bytes = file(rt.alloc(), &[burst(), burst()])?;
    let (done, written) = mapped(rt.alloc(), &bytes, 64);
    assert!(rt; done.is_ok());
    assert!(rt; written.as_slice() == TABLE);
    Ok(())
}

/// Whether a capture is at fault behind so many records, and nothing was written.
fn is_faulty(alloc: Global, bytes: &[u8], records: u64) -> bool {
    let (done, written) = mapped(alloc, bytes, 50);
    let is_fault = match done {
        Err(EngineFault::Capture(fault)) => fault.records == records,
        _ => false,
    };
    is_fault && written.is_empty()
}

#[test]
fn a_fault_says_how_many_records_came_before_it(rt: HostRuntime) -> Result<(), Fail> {
    let mut bytes = file(rt.alloc(), &[burst(), whole()])?;
    bytes.pop();
    assert!(rt; is_faulty(rt.alloc(), &bytes, 1));
    assert!(rt; is_faulty(rt.alloc(), &[], 0));
    bytes.truncate(24);
    let (done, _) = mapped(rt.alloc(), &bytes, 50);
    assert!(rt; done.is_ok());
    Ok(())
}
